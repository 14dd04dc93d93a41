// Total: the sum of the minutes.
ghost use Rattle.std.specs.Prelude.{refl};
ghost use Rattle.costs.specs.Totals.{total_operations, total_written};
ghost use Rattle.costs.specs.Plain.{Sum};
ghost use Rattle.costs.specs.PlainRows.{total_means};
ghost use Rattle.costs.specs.MinutesLaws.{total_laws, total_faithful};

use crate::bytes::{bytes_from, put};
use crate::kind::{CostKind, PlainKind, WrittenKind};
use crate::values::{CELL_MINUTES, Total};

impl CostKind for Total {
    ghost operations = { total_operations };

    ghost lawful = { total_laws };

    fn empty() -> Total {
        Total { minutes: 0 }
    }

    fn compose(self, other: Total) -> Total {
        Total {
            minutes: self.minutes.saturating_add(other.minutes),
        }
    }

    fn at_most(self, other: Total) -> bool {
        self <= other
    }

    fn rest(self, to: Total) -> Total {
        Total {
            minutes: to.minutes.saturating_sub(self.minutes),
        }
    }
}

impl PlainKind for Total {
    ghost means = { Sum };

    ghost row_means = { total_means };
}

impl WrittenKind for Total {
    ghost CODE = { 1 };

    const CODE: u8 = 1;

    ghost BODY_SIZE = { 8 };

    const BODY_SIZE: usize = 8;

    ghost written = { total_written };

    ghost faithful = { total_faithful };

    ghost code_is = { refl };

    ghost size_is = { refl };

    fn write_body(self, out: &mut [u8]) {
        put(&self.minutes.to_be_bytes(), out);
    }

    fn read_body(bytes: &[u8]) -> Total {
        Total {
            minutes: u64::from_be_bytes(bytes_from(bytes, 0)),
        }
    }

    fn may_stand(self) -> bool {
        self.minutes <= u64::from(CELL_MINUTES)
    }

    fn shortage(minutes: u16) -> Total {
        Total {
            minutes: u64::from(minutes),
        }
    }
}
