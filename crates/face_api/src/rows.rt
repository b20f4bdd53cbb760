//! Rows that ascend: by their characters, the plain one before the upright one.

ghost use Rattle.std.specs.Prelude.{◌≡◌, ◌<◌, ◌≤◌, ◌==◌, nat_lt, length, option_map, OnOk, OnErr, IsErrOf, IfSome};
ghost use Rattle.face_api.specs.Rows.{DividesAt};
ghost use Rattle.face_api.specs.Table.{AreRows, Ascend, HasRoom, IsCrowded, rank, rank_of, row_for, rows_with};
ghost use Rattle.face_api.specs.declared.error.FaceError.TheVariants.{Fixed, Full};

use crate::{FaceError, Row};

/// The most rows that a table has.
pub(crate) const MOST_ROWS: usize = 4096;

// The advance of the character's row, if it has one.
pub(crate) fn value_of(rows: &[Row], c: char, upright: bool) -> Option<u32>
    requires { AreRows rows.now }
    ensures most { IfSome result (λ value. value ≤ 10000) }
    ensures value { result ≡ option_map (λ row. row.value) (row_for rows.now c upright) }
{
    let row = row_at(rows, rows_before(rows, c, upright), c, upright)?;
    Some(row.value)
}

// The row at the place, if it is the character's.
fn row_at(rows: &[Row], place: usize, c: char, upright: bool) -> Option<Row>
    requires ascending { Ascend rows.now }
    requires place { DividesAt rows.now (rank c upright) place }
    ensures { result ≡ row_for rows.now c upright }
{
    let row = *rows.get(place)?;
    if is_for(row, c, upright) {
        Some(row)
    } else {
        None
    }
}

// Whether the row is the character's.
fn is_for(row: Row, c: char, upright: bool) -> bool
    ensures { result ≡ (rank_of row == rank c upright) }
{
    row.character == c && row.upright == upright
}

// Whether the row stands before that of the character.
fn is_before(row: Row, c: char, upright: bool) -> bool
    ensures { result ≡ nat_lt (rank_of row) (rank c upright) }
{
    row.character < c || row.character == c && !row.upright && upright
}

// How many rows stand before that of the character, by a search by halves.
fn rows_before(rows: &[Row], c: char, upright: bool) -> usize
    requires { Ascend rows.now }
    ensures { DividesAt rows.now (rank c upright) result }
{
    rows.partition_point(
        |row: &Row| -> bool
            ensures { result ≡ nat_lt (rank_of row.now) (rank c upright) }
        { is_before(*row, c, upright) },
    )
}

// Puts the row, or replaces the one of its character.
pub(crate) fn put(rows: &mut Vec<Row>, row: Row) -> Result<(), FaceError>
    requires rows { AreRows rows.old.items }
    requires value { row.value ≤ 10000 }
    ensures rows { AreRows rows.new.items }
    ensures row { OnOk result (rows.new.items ≡ rows_with rows.old.items row) }
    ensures room { OnOk result (HasRoom rows.old.items row.character row.upright) }
    ensures full { IsErrOf result Full → IsCrowded rows.old.items row.character row.upright }
    ensures only { IsErrOf result Fixed → ⊥ }
    ensures unchanged { OnErr result (rows.new.items ≡ rows.old.items) }
{
    let place = rows_before(rows, row.character, row.upright);
    let found = row_at(rows, place, row.character, row.upright).is_some();
    if found {
        rows[place] = row;
        return Ok(());
    }
    if rows.len() >= MOST_ROWS {
        return Err(FaceError::Full);
    }
    rows.insert(place, row)?;
    Ok(())
}
