// What a row of costs comes to.
ghost use Rattle.std.specs.Prelude.{◌≡◌};
ghost use Rattle.costs.specs.Kinds.{composed};
ghost use Rattle.costs.specs.Plain.{CostOf, Sum, Highest, HighestClass};

use crate::kind::{CostKind, PlainKind};
use crate::values::{Class, Total, Widened, Worst};

pub fn compose_all<K: CostKind>(costs: &[K]) -> K
    ensures { result ≡ composed K.operations costs.now }
{
    costs.iter().copied().fold(K::empty(), K::compose)
}

// What a row of cells comes to in whole numbers: in total the plain sum of the minutes, in worst the longest shortage,
// in class the highest class with the minutes of its cells.
pub fn plain_cost<K: PlainKind>(cells: &[Widened<K>]) -> Widened<K>
    ensures { CostOf K.means cells.now result }
{
    compose_all::<Widened<K>>(cells)
}

// The plain sum of the minutes.
pub fn total_cost(cells: &[Widened<Total>]) -> Widened<Total>
    ensures { CostOf Sum cells.now result }
{
    plain_cost::<Total>(cells)
}

// The longest shortage.
pub fn worst_cost(cells: &[Widened<Worst>]) -> Widened<Worst>
    ensures { CostOf Highest cells.now result }
{
    plain_cost::<Worst>(cells)
}

// The highest class, with the minutes of its cells.
pub fn class_cost(cells: &[Widened<Class>]) -> Widened<Class>
    ensures { CostOf HighestClass cells.now result }
{
    plain_cost::<Class>(cells)
}
