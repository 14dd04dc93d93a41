// The size of a table, sets of its rows and columns, a step on it, and its least cell, as plain values.
ghost use Rattle.std.specs.Prelude.{◌≡◌, ◌≤◌, MatchOption};

// The most rows that a table has.
pub const MOST_ROWS: usize = 32;

// How many rows a table has, and as many columns.
#[derive(Debug, PartialEq, Eq, Clone, Copy)]
pub struct Size {
    n: usize,
    ghost some: { 1 ≤ n },
    ghost few: { n ≤ 32 },
}

impl Size {
    // The size of n rows, or none where n is out of bounds. No `TryFrom`: its error would say no more than `None`.
    pub fn of(n: usize) -> Option<Size>
        ensures { MatchOption result ((1 ≤ n) × (n ≤ 32) → ⊥) (λ s. s.n ≡ n) }
    {
        match n {
            1..=MOST_ROWS => Some(Size { n }),
            _ => None,
        }
    }

    pub fn rows(self) -> usize
        ensures { result ≡ self.n }
    {
        self.n
    }
}

// A set of rows and a set of columns, as masks. Row or column r is the bit of worth 2^r of its mask.
#[derive(Debug, PartialEq, Eq, Clone, Copy)]
pub struct Sets {
    pub rows: u32,
    pub columns: u32,
}

// A step: a set of rows, a set of columns and an amount.
#[derive(Debug, PartialEq, Eq, Clone, Copy)]
pub struct Step<C> {
    pub sets: Sets,
    pub amount: C,
}

// A least cell: what it holds, and where it stands.
#[derive(Debug, PartialEq, Eq, Clone, Copy)]
pub struct Least<C> {
    pub amount: C,
    pub row: usize,
    pub column: usize,
}
