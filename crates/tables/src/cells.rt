// What is read from and done to a table's cells, which lie row by row in a slice of costs.
// Cells and size stay apart: these functions go over any slice of costs, and `Table` holds the two together.
ghost use Rattle.std.specs.Prelude.{◌↔◌, ◌≡◌, IsTrue, MatchOption};
ghost use Rattle.tables.specs.LeastCells.{NoneInside, LeastInside, with_cell};
ghost use Rattle.tables.specs.Steps.{in_set, changed, stepped, AtMostInside, AllAbsorbed, FirstNotAbsorbed};
ghost use Rattle.tables.specs.Tables.{grid, roster_cost};

use crate::steps::{absorbs, in_set};
use crate::values::{Least, Sets, Size, Step};
use costs::kind::CostKind;

// The cell in a row and a column, by its place; empty where the slice is too short.
pub fn cell_at<C: CostKind>(cells: &[C], size: Size, row: usize, column: usize) -> C
    ensures { result ≡ grid C.operations size.n cells.now row column }
{
    let at = row.saturating_mul(size.rows()).saturating_add(column);
    cells.get(at).copied().unwrap_or(C::empty())
}

// What a roster's cells come to.
pub fn roster_cost<C: CostKind>(cells: &[C], size: Size, roster: &[u8]) -> C
    ensures { result ≡ roster_cost C.operations (grid C.operations size.n cells.now) roster.now }
{
    roster
        .iter()
        .enumerate()
        .map(|(row, column)| cell_at(cells, size, row, usize::from(*column)))
        .fold(C::empty(), C::compose)
}

// What a step makes of the cell in a row and a column.
fn changed_cell<C: CostKind>(step: Step<C>, row: usize, column: usize, cell: C) -> C
    ensures { result ≡ changed C.operations step.amount (in_set step.sets.rows row) (in_set step.sets.columns column) cell }
{
    let Step { sets, amount } = step;
    match (in_set(sets.rows, row), in_set(sets.columns, column)) {
        (true, true) => amount.rest(cell),
        (false, false) => amount.compose(cell),
        _ => cell,
    }
}

// Makes a step. Cells in surplus stay.
pub fn apply_step<C: CostKind>(cells: &mut [C], size: Size, step: Step<C>)
    ensures { cells.new ≡ stepped C.operations size.n step cells.old }
{
    let n = size.rows();
    let end = (n * n).min(cells.len());
    // By place: what is written through chunks of rows is not known after the loop.
    for (place, cell) in cells[..end].iter_mut().enumerate() {
        *cell = changed_cell(step, place / n, place % n, *cell);
    }
}

// The least cell so far, with one cell more, where that lies in both sets. Of equal cells the earlier stays.
fn with_cell<C: CostKind>(sets: Sets, least: Option<Least<C>>, cell: Least<C>) -> Option<Least<C>>
    ensures { result ≡ with_cell C.operations sets least cell }
{
    if !sets.hold(cell.row, cell.column) {
        return least;
    }
    match least {
        Some(best) if best.amount.at_most(cell.amount) => Some(best),
        _ => Some(cell),
    }
}

// The least cell in a set of rows and a set of columns, with its row and column; none where no cell lies in both.
// Columns are gone through one by one, so that of equal cells the lowest column comes first, and in it the lowest row.
#[tactic(auto, using(crate::proofs::LeastCells::sofar_column, crate::proofs::LeastCells::sofar_all))]
pub fn least_cell<C: CostKind>(cells: &[C], size: Size, sets: Sets) -> Option<Least<C>>
    ensures { MatchOption result (NoneInside size.n sets) (λ least. LeastInside C.operations size.n (grid C.operations size.n cells.now) sets least) }
{
    let n = size.rows();
    let mut least = None;
    for column in 0..n {
        for row in 0..n {
            let amount = cell_at(cells, size, row, column);
            let cell = Least {
                amount,
                row,
                column,
            };
            least = with_cell(sets, least, cell);
        }
    }
    least
}

// Whether an amount is at most every cell in a set of rows and a set of columns.
pub fn at_most_inside<C: CostKind>(amount: C, cells: &[C], size: Size, sets: Sets) -> bool
    ensures { IsTrue result ↔ (AtMostInside C.operations size.n (grid C.operations size.n cells.now) sets amount) }
{
    least_cell(cells, size, sets).is_none_or(|least| amount.at_most(least.amount))
}

// The first row of a roster whose cell is not absorbed by the value `z`.
pub fn first_not_absorbed<C: CostKind>(
    z: C,
    cells: &[C],
    size: Size,
    roster: &[u8],
) -> Option<usize>
    ensures { MatchOption result (AllAbsorbed C.operations (grid C.operations size.n cells.now) z roster.now) (λ row. FirstNotAbsorbed C.operations (grid C.operations size.n cells.now) z roster.now row) }
{
    roster.iter().enumerate().position(|(row, column)| {
        let cell = cell_at(cells, size, row, usize::from(*column));
        !absorbs(z, cell)
    })
}
