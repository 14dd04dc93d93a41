// What a roster is.
ghost use Rattle.std.specs.Prelude.{◌↔◌, IsTrue};
ghost use Rattle.tables.specs.Rosters.{Roster};

// Whether `columns` gives each of `n` rows a column of its own.
pub fn is_roster(columns: &[u8], n: usize) -> bool
    ensures { IsTrue result ↔ (Roster n columns.now) }
{
    columns.len() == n
        && columns.iter().enumerate().all(|(row, column)| {
            usize::from(*column) < n && !columns[..row].contains(column)
        })
}
