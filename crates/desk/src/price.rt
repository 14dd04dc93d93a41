// `price`: what a roster by hand costs between two days' duties.
ghost use Rattle.std.specs.Prelude.{◌≡◌, Some, IfOk};
ghost use Rattle.costs.specs.Plain.{CostOf};
ghost use Rattle.desk.specs.Prices.{gauged_grid, Linked, Priced, Answered, price_text};
ghost use Rattle.desk.specs.declared.price.Unpriced.TheVariants.{NoMemory};
ghost use Rattle.tables.specs.Tables.{chosen};

use crate::faults::MORE_MEMORY;
use costs::composition::plain_cost;
use costs::gauge::{rest_cost, well_formed};
use costs::kind::{PlainKind, WrittenKind};
use costs::values::{Class, Duty, Total, Widened, Worst};
use std::alloc::{AllocError, Global};
use std::fmt;
use tables::rosters::is_roster;
use tables::values::Size;
use thiserror::Error;
use words::kinds::Kind;

#[derive(Clone, Copy, Debug, PartialEq, Eq)]
pub enum Price {
    InTotal(Widened<Total>),
    InWorst(Widened<Worst>),
    InClass(Widened<Class>),
}

impl fmt::Display for Price {
    ghost output = { λ price. Some (price_text price) };

    fn fmt<W: fmt::Write>(&self, f: &mut fmt::Formatter<W>) -> fmt::Result {
        match self {
            Price::InTotal(cost) => cost.fmt(f),
            Price::InWorst(cost) => cost.fmt(f),
            Price::InClass(cost) => cost.fmt(f),
        }
    }
}

// Why a roster has no price.
#[derive(Clone, Copy, Debug, PartialEq, Eq, Error)]
pub enum Unpriced {
    #[error("expected 1 to 32 duties")]
    DutyCount,
    #[error("expected as many later duties as earlier ones")]
    LaterCount,
    #[error("expected times up to 1439, and no finish before its start")]
    DutyTimes,
    #[error("expected a column below the number of duties for each duty, and none twice")]
    NoRoster,
    #[error("{MORE_MEMORY}")]
    NoMemory,
}

// Two days' duties, and the roster that links them.
#[derive(Clone, Copy, Debug, PartialEq, Eq)]
pub struct Link<'a> {
    pub earlier: &'a [Duty],
    pub later: &'a [Duty],
    pub roster: &'a [u8],
}

impl<'a> Link<'a> {
    // The cell that the roster chooses in each row.
    fn chosen_cells<K: WrittenKind>(self, heap: Global) -> Result<Vec<Widened<K>>, AllocError>
        requires { Linked self }
        ensures { IfOk result (λ v. v.items ≡ chosen (gauged_grid K.written self.entry.earlier.now self.entry.later.now) self.entry.roster.now) }
    {
        self.earlier
            .iter()
            .zip(self.roster)
            .map(|(duty, column)| rest_cost(*duty, self.later[usize::from(*column)]))
            .collect(heap)
    }

    // What these cells come to.
    fn cost<K: WrittenKind + PlainKind>(self, heap: Global) -> Result<Widened<K>, AllocError>
        requires { Linked self }
        ensures { IfOk result (λ cost. CostOf K.means (chosen (gauged_grid K.written self.entry.earlier.now self.entry.later.now) self.entry.roster.now) cost) }
    {
        let cells = self.chosen_cells(heap)?;
        Ok(plain_cost(&cells))
    }

    fn price_chosen(self, heap: Global, kind: Kind) -> Result<Price, AllocError>
        requires { Linked self }
        ensures { IfOk result (λ p. Priced kind self.entry.earlier.now self.entry.later.now self.entry.roster.now p) }
    {
        // Each arm picks a type of cost, which no closure or table of functions could.
        match kind {
            Kind::Total => Ok(Price::InTotal(self.cost(heap)?)),
            Kind::Worst => Ok(Price::InWorst(self.cost(heap)?)),
            Kind::Class => Ok(Price::InClass(self.cost(heap)?)),
        }
    }

    // The roster's price, or the first thing that is wrong with what was given.
    pub fn price(self, heap: Global, kind: Kind) -> Result<Price, Unpriced>
        ensures { Answered kind self.entry.earlier.now self.entry.later.now self.entry.roster.now result }
    {
        let n = Size::of(self.earlier.len())
            .ok_or(Unpriced::DutyCount)?
            .rows();
        if self.later.len() != n {
            return Err(Unpriced::LaterCount);
        }
        if !well_formed(self.earlier, n) || !well_formed(self.later, n) {
            return Err(Unpriced::DutyTimes);
        }
        if !is_roster(self.roster, n) {
            return Err(Unpriced::NoRoster);
        }
        Ok(self.price_chosen(heap, kind)?)
    }
}

// Written out, since contracts name the error that a `?` makes.
impl From<AllocError> for Unpriced {
    ghost from_gives = { λ _ r. r ≡ NoMemory };

    fn from(_e: AllocError) -> Unpriced {
        Unpriced::NoMemory
    }
}
