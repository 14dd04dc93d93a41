// Class: the cost of the higher class, and in equal classes the sum of the minutes.
ghost use Rattle.std.specs.Prelude.{refl};
ghost use Rattle.costs.specs.Classes.{class_operations, class_written};
ghost use Rattle.std.proofs.Common.{arith};
ghost use Rattle.std.proofs.lemmas.Bool.Decides.{nat_tests};
ghost use Rattle.costs.specs.Plain.{HighestClass};
ghost use Rattle.costs.specs.PlainRows.{class_means};
ghost use Rattle.costs.specs.Same.{same_class};
ghost use Rattle.costs.specs.ClassBodies.{class_faithful};

use crate::bytes::{first_bytes, put};
use crate::kind::{CostKind, PlainKind, WrittenKind};
use crate::values::{CELL_MINUTES, Class};
use std::cmp::Ordering;

impl CostKind for Class {
    ghost operations = { class_operations };

    ghost lawful = { record {
      compose_commutes = λ a b. same_class _ _ (Prim.grind (arith, nat_tests)) (Prim.grind (arith, nat_tests));
      compose_associates = λ a b c. same_class _ _ (Prim.grind (arith, nat_tests)) (Prim.grind (arith, nat_tests));
      empty_neutral = λ a. same_class _ _ (Prim.grind (arith, nat_tests)) (Prim.grind (arith, nat_tests));
      at_most_reflexive = λ a. Prim.grind (arith, nat_tests);
      at_most_transitive = λ a b c ab bc. Prim.grind (arith, nat_tests);
      at_most_total = λ a b. Prim.grind (arith, nat_tests);
      at_most_antisymmetric = λ a b ab ba. same_class _ _ (Prim.grind (arith, nat_tests)) (Prim.grind (arith, nat_tests));
      empty_least = λ a. Prim.grind (arith, nat_tests);
      compose_keeps_at_most = λ a b c ab. Prim.grind (arith, nat_tests);
      rest_completes = λ a b ab. same_class _ _ (Prim.grind (arith, nat_tests)) (Prim.grind (arith, nat_tests));
      rest_otherwise_empty = λ a b ba. same_class _ _ (Prim.grind (arith, nat_tests)) (Prim.grind (arith, nat_tests));
    } };

    fn empty() -> Class {
        Class {
            class: 0,
            minutes: 0,
        }
    }

    fn compose(self, other: Class) -> Class {
        match self.class.cmp(&other.class) {
            Ordering::Less => other,
            Ordering::Greater => self,
            Ordering::Equal => Class {
                class: self.class,
                minutes: self.minutes.saturating_add(other.minutes),
            },
        }
    }

    fn at_most(self, other: Class) -> bool {
        self <= other
    }

    fn rest(self, to: Class) -> Class {
        if self > to {
            Class::empty()
        } else if self.class == to.class {
            Class {
                class: to.class,
                minutes: to.minutes.saturating_sub(self.minutes),
            }
        } else {
            to
        }
    }
}

impl PlainKind for Class {
    ghost means = { HighestClass };

    ghost row_means = { class_means class_operations (record {
      no_class = refl;
      no_minutes = refl;
      higher = λ a b. Prim.grind (arith, nat_tests);
      first_alone = λ a b above. Prim.grind (arith, nat_tests);
      second_alone = λ a b below. Prim.grind (arith, nat_tests);
      together = λ a b same. Prim.grind (arith, nat_tests);
    }) };
}

impl WrittenKind for Class {
    ghost CODE = { 3 };

    const CODE: u8 = 3;

    ghost BODY_SIZE = { 9 };

    const BODY_SIZE: usize = 9;

    ghost written = { class_written };

    ghost faithful = { class_faithful };

    ghost code_is = { refl };

    ghost size_is = { refl };

    fn write_body(self, out: &mut [u8]) {
        // By name, one by one: a pattern with a rest gets no proof.
        let [a, b, c, d, e, f, g, h] = self.minutes.to_be_bytes();
        put(&[self.class, a, b, c, d, e, f, g, h], out);
    }

    fn read_body(bytes: &[u8]) -> Class {
        // By name, as in `write_body`.
        let [class, a, b, c, d, e, f, g, h] = first_bytes::<9>(bytes);
        Class {
            class,
            minutes: u64::from_be_bytes([a, b, c, d, e, f, g, h]),
        }
    }

    fn may_stand(self) -> bool {
        self.class <= 9 && self.minutes <= u64::from(CELL_MINUTES)
    }

    fn shortage(minutes: u16) -> Class {
        Class {
            class: match minutes {
                0 => 0,
                1..=60 => 1,
                _ => 2,
            },
            minutes: u64::from(minutes),
        }
    }
}
