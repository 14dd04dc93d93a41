// Why a line gets no reply. Each is printed as what was expected.
ghost use Rattle.std.specs.Prelude.{◌≡◌};
ghost use Rattle.desk.specs.declared.faults.Fault.TheVariants.{OutOfMemory};
ghost use Rattle.desk.specs.declared.faults.PriceFault.TheVariants.{NoMemoryLeft};
ghost use Rattle.desk.specs.declared.faults.WeighFault.TheVariants.{NoMemoryLeft as NoRoomLeft};

use crate::price::Unpriced;
use crate::weigh::Unweighed;
use std::alloc::AllocError;
use thiserror::Error;
use words::kinds::UnknownKind;

const COLUMN_LIST: &str = "expected a roster as COLUMN,COLUMN,..";

pub(crate) const MORE_MEMORY: &str = "expected more memory than there is";

#[derive(Clone, Copy, Debug, PartialEq, Eq, Error)]
pub enum PriceFault {
    #[error("{UnknownKind}")]
    NoKind,
    #[error("expected duties as START-FINISH,START-FINISH,..")]
    NoDuties,
    #[error("{COLUMN_LIST}")]
    NoColumns,
    #[error(transparent)]
    NotPriced(Unpriced),
    #[error("{MORE_MEMORY}")]
    NoMemoryLeft,
}

#[derive(Clone, Copy, Debug, PartialEq, Eq, Error)]
pub enum WeighFault {
    #[error("{UnknownKind}")]
    NoKind,
    #[error("expected 1 to 32 rows")]
    NoSize,
    #[error("expected cells as COST,COST,.., each a number (in class CLASS:MINUTES) or - for forbidden")]
    NoCells,
    #[error("{COLUMN_LIST}")]
    NoColumns,
    #[error(transparent)]
    NotWeighed(Unweighed),
    #[error("{MORE_MEMORY}")]
    NoMemoryLeft,
}

#[derive(Clone, Copy, Debug, PartialEq, Eq, Error)]
pub enum Fault {
    #[error("expected text in UTF-8")]
    NotText,
    #[error("expected a request: price or weigh")]
    NoRequest,
    #[error("expected price KIND EARLIER LATER ROSTER")]
    NotPrice,
    #[error("expected weigh KIND N CELLS ROSTER")]
    NotWeigh,
    #[error(transparent)]
    InPrice(PriceFault),
    #[error(transparent)]
    InWeigh(WeighFault),
    #[error("{MORE_MEMORY}")]
    OutOfMemory,
}

// Written out, and not derived, since contracts name the error that a `?` makes.
impl From<AllocError> for PriceFault {
    ghost from_gives = { λ _ r. r ≡ NoMemoryLeft };

    fn from(_e: AllocError) -> PriceFault {
        PriceFault::NoMemoryLeft
    }
}

impl From<AllocError> for WeighFault {
    ghost from_gives = { λ _ r. r ≡ NoRoomLeft };

    fn from(_e: AllocError) -> WeighFault {
        WeighFault::NoMemoryLeft
    }
}

impl From<AllocError> for Fault {
    ghost from_gives = { λ _ r. r ≡ OutOfMemory };

    fn from(_e: AllocError) -> Fault {
        Fault::OutOfMemory
    }
}
