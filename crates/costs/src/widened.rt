// The widened kind keeps the laws of a kind too.
ghost use Rattle.costs.specs.Wide.{widened};
ghost use Rattle.costs.specs.WideLaws.{wide_laws};

use crate::kind::CostKind;
use crate::values::Widened;

impl<K: CostKind> CostKind for Widened<K> {
    ghost operations = { widened K.CostKind.operations };

    ghost lawful = { wide_laws K.CostKind.lawful };

    fn empty() -> Widened<K> {
        Widened::Allowed(K::empty())
    }

    fn compose(self, other: Widened<K>) -> Widened<K> {
        match (self, other) {
            (Widened::Allowed(a), Widened::Allowed(b)) => Widened::Allowed(a.compose(b)),
            _ => Widened::Forbidden,
        }
    }

    // No derived order: the kind below need have none but its own `at_most`.
    fn at_most(self, other: Widened<K>) -> bool {
        match (self, other) {
            (Widened::Allowed(a), Widened::Allowed(b)) => a.at_most(b),
            (_, Widened::Forbidden) => true,
            (Widened::Forbidden, Widened::Allowed(_)) => false,
        }
    }

    fn rest(self, to: Widened<K>) -> Widened<K> {
        match (self, to) {
            (Widened::Allowed(a), Widened::Allowed(b)) => Widened::Allowed(a.rest(b)),
            (Widened::Allowed(_), Widened::Forbidden) => Widened::Forbidden,
            (Widened::Forbidden, _) => Widened::Allowed(K::empty()),
        }
    }
}
