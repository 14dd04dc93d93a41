// Worst: the greater of the minutes.
ghost use Rattle.std.specs.Prelude.{refl};
ghost use Rattle.costs.specs.Worsts.{worst_operations, worst_written};
ghost use Rattle.costs.specs.Plain.{Highest};
ghost use Rattle.costs.specs.PlainRows.{worst_means};
ghost use Rattle.costs.specs.MinutesLaws.{worst_laws, worst_faithful};

use crate::bytes::{number_32, put};
use crate::kind::{CostKind, PlainKind, WrittenKind};
use crate::values::{CELL_MINUTES, Worst};

impl CostKind for Worst {
    ghost operations = { worst_operations };

    ghost lawful = { worst_laws };

    fn empty() -> Worst {
        Worst { minutes: 0 }
    }

    fn compose(self, other: Worst) -> Worst {
        self.max(other)
    }

    fn at_most(self, other: Worst) -> bool {
        self <= other
    }

    fn rest(self, to: Worst) -> Worst {
        if self < to { to } else { Worst::empty() }
    }
}

impl PlainKind for Worst {
    ghost means = { Highest };

    ghost row_means = { worst_means };
}

impl WrittenKind for Worst {
    ghost CODE = { 2 };

    const CODE: u8 = 2;

    ghost BODY_SIZE = { 4 };

    const BODY_SIZE: usize = 4;

    ghost written = { worst_written };

    ghost faithful = { worst_faithful };

    ghost code_is = { refl };

    ghost size_is = { refl };

    // The same line as in total, at another width: each type writes itself.
    fn write_body(self, out: &mut [u8]) {
        put(&self.minutes.to_be_bytes(), out);
    }

    fn read_body(bytes: &[u8]) -> Worst {
        Worst {
            minutes: number_32(bytes),
        }
    }

    fn may_stand(self) -> bool {
        self.minutes <= CELL_MINUTES
    }

    fn shortage(minutes: u16) -> Worst {
        Worst {
            minutes: u32::from(minutes),
        }
    }
}
