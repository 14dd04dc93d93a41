// `weigh`: what a roster by hand costs in a table by hand.
ghost use Rattle.std.specs.Prelude.{◌≡◌, ℕ, MatchOption};
ghost use Rattle.costs.specs.Plain.{CostOf};
ghost use Rattle.desk.specs.Weighing.{table_words, SizeText, TableWeighed, WordsWeighed, KindWeighed};

use crate::faults::WeighFault;
use crate::price::Price;
use costs::kind::PlainKind;
use costs::values::Widened;
use std::alloc::Global;
use tables::rosters::is_roster;
use tables::table::Table;
use tables::values::Size;
use thiserror::Error;
use words::items::Item;
use words::kinds::Kind;
use words::lists::list_or;
use words::numbers::number;

// Why a roster has no cost in a table.
#[derive(Clone, Copy, Debug, PartialEq, Eq, Error)]
pub enum Unweighed {
    #[error("expected a cell for each row and column, row by row")]
    CellCount,
    #[error("expected a column below the number of rows for each row, and none twice")]
    NoRoster,
}

// A number of rows.
fn read_size(word: &str) -> Option<Size>
    ensures { MatchOption result ((n : ℕ) → SizeText word.now n → ⊥) (λ size. SizeText word.now size.n) }
{
    Size::of(usize::try_from(number(word)?).ok()?)
}

fn weigh_table<K: PlainKind>(
    size: Size,
    cells: &mut [Widened<K>],
    roster: &[u8],
) -> Result<Widened<K>, Unweighed>
    ensures kept { cells.new ≡ cells.old }
    ensures answer { TableWeighed K.operations (CostOf K.means) size.n cells.old roster.now result }
{
    let n = size.rows();
    if cells.len() != n * n {
        return Err(Unweighed::CellCount);
    }
    if !is_roster(roster, n) {
        return Err(Unweighed::NoRoster);
    }
    let table = Table { cells, size };
    Ok(table.cost(roster))
}

// The words for a table and a roster.
#[derive(Clone, Copy, Debug, PartialEq, Eq)]
pub struct TableWords<'a> {
    pub size: &'a str,
    pub cells: &'a str,
    pub roster: &'a str,
}

// The cost in one kind, or the first word that cannot be read, or what is wrong with the table and the roster.
fn weigh_words<K: PlainKind + Item>(
    heap: Global,
    words: TableWords,
) -> Result<Widened<K>, WeighFault>
    ensures { WordsWeighed K.operations K.text (CostOf K.means) (table_words words.entry) result }
{
    let size = read_size(words.size).ok_or(WeighFault::NoSize)?;
    let mut cells = list_or(
        heap,
        words.cells,
        WeighFault::NoCells,
        WeighFault::NoMemoryLeft,
    )?;
    let columns = list_or(
        heap,
        words.roster,
        WeighFault::NoColumns,
        WeighFault::NoMemoryLeft,
    )?;
    weigh_table(size, &mut cells, &columns).map_err(WeighFault::NotWeighed)
}

// The cost in the named kind.
pub fn weigh(heap: Global, kind: Kind, words: TableWords) -> Result<Price, WeighFault>
    ensures { KindWeighed kind (table_words words.entry) result }
{
    // Each arm picks a type of cost, which no closure or table of functions could.
    match kind {
        Kind::Total => weigh_words(heap, words).map(Price::InTotal),
        Kind::Worst => weigh_words(heap, words).map(Price::InWorst),
        Kind::Class => weigh_words(heap, words).map(Price::InClass),
    }
}
