// Steps: their sets, their excess, and the value of a list of them.
ghost use Rattle.std.specs.Prelude.{◌↔◌, ◌≡◌, ◌+◌, ◌≤◌, ◌&&◌, IsTrue, count_ones};
ghost use Rattle.tables.specs.Steps.{in_set, excess, times, taken, value, Absorbed, wide};

use crate::values::{Sets, Size, Step};
use costs::kind::CostKind;
use costs::values::Widened;

const MASK_BITS: usize = u32::BITS as usize;

// Whether a mask's set has row or column `i`.
pub fn in_set(mask: u32, i: usize) -> bool
    ensures { result ≡ in_set mask i }
{
    i < MASK_BITS && (mask >> i) & 1 == 1
}

// How many rows or columns a mask's set has.
pub fn members(mask: u32) -> usize
    ensures count { result ≡ count_ones mask }
    ensures few { result ≤ 32 }
{
    mask.count_ones() as usize
}

impl Sets {
    // Whether a row and a column lie each in its set.
    pub fn hold(self, row: usize, column: usize) -> bool
        ensures { result ≡ in_set self.rows row && in_set self.columns column }
    {
        in_set(self.rows, row) && in_set(self.columns, column)
    }

    // How many rows and columns they have together.
    pub fn members(self) -> usize
        ensures { result ≡ count_ones self.rows + count_ones self.columns }
    {
        members(self.rows) + members(self.columns)
    }
}

impl<C> Step<C> {
    // The number of its rows and columns, less those of a table's side.
    pub fn excess(&self, size: Size) -> usize
        ensures { result ≡ excess size.n self.now }
    {
        self.sets.members().saturating_sub(size.rows())
    }
}

// A cost composed so many times.
pub fn compose_times<K: CostKind>(cost: K, count: usize) -> K
    ensures { result ≡ times K.operations count cost }
{
    (0..count).fold(K::empty(), |all, _| all.compose(cost))
}

impl<K: CostKind> Step<K> {
    // What the step takes off every roster: its amount, as often as its excess says.
    pub fn taken(&self, size: Size) -> K
        ensures { result ≡ taken K.operations size.n self.now }
    {
        compose_times(self.amount, self.excess(size))
    }

    // The same step on cells that may be forbidden.
    pub fn widened(&self) -> Step<Widened<K>>
        ensures { result ≡ wide self.now }
    {
        Step {
            sets: self.sets,
            amount: Widened::Allowed(self.amount),
        }
    }
}

// What the steps take off every roster, one after the other.
pub fn value<K: CostKind>(steps: &[Step<K>], size: Size) -> K
    ensures { result ≡ value K.operations size.n steps.now }
{
    steps
        .iter()
        .map(|step| step.taken(size))
        .fold(K::empty(), K::compose)
}

// Whether the cell is absorbed by the value `z`. No cell lowers a value, so one comparison decides it.
pub fn absorbs<C: CostKind>(z: C, cell: C) -> bool
    ensures { IsTrue result ↔ (Absorbed C.operations z cell) }
{
    z.compose(cell).at_most(z)
}
