// Costs as text: minutes, `class:minutes`, and `forbidden`.
ghost use Rattle.std.specs.Prelude.{◌++◌, Some, codes, decimal};
ghost use Rattle.costs.specs.Shown.{shown_cell};

use crate::values::{Class, Total, Widened, Worst};
use std::fmt;

// Total and worst print alike, a line each: what is printed belongs to the type, and one `impl` can name one type.
// By `write!`, and not by the number's own `fmt`: no cost is padded or signed, whatever the caller's format asks for.
impl fmt::Display for Total {
    ghost output = { λ c. Some (decimal c.minutes) };

    fn fmt<W: fmt::Write>(&self, f: &mut fmt::Formatter<W>) -> fmt::Result {
        write!(f, "{}", self.minutes)
    }
}

impl fmt::Display for Worst {
    ghost output = { λ c. Some (decimal c.minutes) };

    fn fmt<W: fmt::Write>(&self, f: &mut fmt::Formatter<W>) -> fmt::Result {
        write!(f, "{}", self.minutes)
    }
}

impl fmt::Display for Class {
    ghost output = { λ c. Some (decimal c.class ++ (codes ":" ++ decimal c.minutes)) };

    fn fmt<W: fmt::Write>(&self, f: &mut fmt::Formatter<W>) -> fmt::Result {
        write!(f, "{}:{}", self.class, self.minutes)
    }
}

impl<K: fmt::Display> fmt::Display for Widened<K> {
    ghost output = { shown_cell K.Display.output };

    fn fmt<W: fmt::Write>(&self, f: &mut fmt::Formatter<W>) -> fmt::Result {
        match self {
            Widened::Allowed(cost) => cost.fmt(f),
            Widened::Forbidden => f.write_str("forbidden"),
        }
    }
}
