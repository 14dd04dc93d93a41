// What a list between commas may hold.
ghost use Rattle.std.specs.Prelude.{ℕ, List, MatchOption};
ghost use Rattle.words.specs.Words.{NumberText, DutyText};

use crate::numbers::{number, two_numbers};
use costs::values::Duty;

// A trait of its own, and not `FromStr`: that of `u8` takes a sign, and the other types belong to another crate.
pub trait Item: Copy {
    ghost text: { List ℕ → Self → Type 0 };

    fn read(piece: &str) -> Option<Self>
        ensures { MatchOption result ((x : Self) → text piece.now x → ⊥) (λ x. text piece.now x) };
}

// A duty is `START-FINISH`.
impl Item for Duty {
    ghost text = { DutyText };

    fn read(piece: &str) -> Option<Duty> {
        let (start, finish) = two_numbers(piece, '-')?;
        Some(Duty {
            start: u16::try_from(start).ok()?,
            finish: u16::try_from(finish).ok()?,
        })
    }
}

// A column is a number of a byte.
impl Item for u8 {
    ghost text = { NumberText 8 };

    fn read(piece: &str) -> Option<u8> {
        u8::try_from(number(piece)?).ok()
    }
}
