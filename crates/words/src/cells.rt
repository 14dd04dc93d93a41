// Costs, and the cells of a table.
ghost use Rattle.words.specs.Words.{TotalText, WorstText, ClassText, CellText};

use crate::items::Item;
use crate::numbers::{number, two_numbers};
use costs::values::{Class, Total, Widened, Worst};

impl Item for Total {
    ghost text = { TotalText };

    fn read(piece: &str) -> Option<Total> {
        let minutes = number(piece)?;
        Some(Total { minutes })
    }
}

impl Item for Worst {
    ghost text = { WorstText };

    fn read(piece: &str) -> Option<Worst> {
        let minutes = u32::try_from(number(piece)?).ok()?;
        Some(Worst { minutes })
    }
}

// `CLASS:MINUTES`.
impl Item for Class {
    ghost text = { ClassText };

    fn read(piece: &str) -> Option<Class> {
        let (class, minutes) = two_numbers(piece, ':')?;
        Some(Class {
            class: u8::try_from(class).ok()?,
            minutes,
        })
    }
}

// A cell is a cost, or `-` where it is forbidden.
impl<K: Item> Item for Widened<K> {
    ghost text = { CellText K.Item.text };

    fn read(piece: &str) -> Option<Widened<K>> {
        if piece == "-" {
            return Some(Widened::Forbidden);
        }
        K::read(piece).map(Widened::Allowed)
    }
}
