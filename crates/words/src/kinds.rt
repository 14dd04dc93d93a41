// The kinds by name.
ghost use Rattle.std.specs.Prelude.{Some, codes};
ghost use Rattle.words.specs.Words.{KindRead};

use std::error::Error;
use std::fmt;
use std::str::FromStr;

#[derive(Clone, Copy, Debug, PartialEq, Eq, Hash)]
pub enum Kind {
    Total,
    Worst,
    Class,
}

// A word that names no kind.
#[derive(Clone, Copy, Debug, PartialEq, Eq, Hash)]
pub struct UnknownKind;

// Written out, and not derived, since a contract says what is printed.
impl fmt::Display for UnknownKind {
    ghost output = { λ _. Some (codes "expected the kind total, worst or class") };

    fn fmt<W: fmt::Write>(&self, f: &mut fmt::Formatter<W>) -> fmt::Result {
        f.write_str("expected the kind total, worst or class")
    }
}

impl Error for UnknownKind {}

impl FromStr for Kind {
    type Err = UnknownKind;

    ghost from_str_gives = { KindRead };

    fn from_str(word: &str) -> Result<Kind, UnknownKind> {
        match word {
            "total" => Ok(Kind::Total),
            "worst" => Ok(Kind::Worst),
            "class" => Ok(Kind::Class),
            _ => Err(UnknownKind),
        }
    }
}
