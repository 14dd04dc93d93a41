// The costs of each kind, as plain values. A cost carries the bound of its numbers, so that the laws hold of every cost.
ghost use Rattle.std.specs.Prelude.{◌^◌, ◌<◌};

// The most minutes that a table's cell may hold, in every kind.
pub const CELL_MINUTES: u32 = 1_000_000;

// Total: all minutes of short rest together.
#[derive(Clone, Copy, Debug, PartialEq, Eq, PartialOrd, Ord, Hash)]
pub struct Total {
    pub minutes: u64,
    ghost fits: { minutes < 2 ^ 64 },
}

// Worst: the longest shortage of rest.
#[derive(Clone, Copy, Debug, PartialEq, Eq, PartialOrd, Ord, Hash)]
pub struct Worst {
    pub minutes: u32,
    ghost fits: { minutes < 2 ^ 32 },
}

// Class: the worst class of short rest, with its minutes.
#[derive(Clone, Copy, Debug, PartialEq, Eq, PartialOrd, Ord, Hash)]
pub struct Class {
    pub class: u8,
    pub minutes: u64,
    ghost byte: { class < 2 ^ 8 },
    ghost fits: { minutes < 2 ^ 64 },
}

// Any kind, widened by the cost forbidden, which is greater than all others.
// No `Option`: that has an order in which `None` comes first, where forbidden comes last, and nothing can be said of how it prints.
#[derive(Clone, Copy, Debug, PartialEq, Eq, Hash)]
pub enum Widened<K> {
    Allowed(K),
    Forbidden,
}

// A duty: a driver's work from its start to its finish, in minutes of its day.
#[derive(Clone, Copy, Debug, PartialEq, Eq, Hash)]
pub struct Duty {
    pub start: u16,
    pub finish: u16,
}
