//! What every face answers.

ghost use Rattle.std.specs.Prelude.{◌≡◌, ◌≤◌, true, OnOk, OnErr, IsErrOf};
ghost use Rattle.face_api.specs.Table.{Table, IsTable, IsFull, TakesRow, advance_of, set_row};
ghost use Rattle.face_api.specs.declared.error.FaceError.TheVariants.{Fixed, Full};

use crate::{FaceError, Metrics};

/// A face: how far characters advance. It means a table: ascent and descent, the advances of characters
/// without a row, at most 4,096 rows of which no two are of one character and orientation, and whether it is
/// fixed.
pub trait Face: Drop {
    /// The table, with its rows in the order of their characters, the plain one before the upright one.
    ghost table: { Self → Table };

    /// Ascent and descent. Takes no memory.
    fn metrics(&self) -> Metrics
        ensures metrics { result ≡ (table self.now).metrics }
        ensures sound { IsTable (table self.now) };

    /// The advance of a character, in thousandths of the font size: that of its row, else the default.
    /// Takes no memory.
    fn advance(&self, c: char, upright: bool) -> u32
        ensures advance { result ≡ advance_of (table self.now) c upright }
        ensures most { result ≤ 10000 }
        ensures sound { IsTable (table self.now) };

    /// Puts the row of a character, or replaces it. `Fixed` comes exactly where the table is fixed, `Full`
    /// exactly where it isn't, holds 4,096 rows and has none for this character and orientation. A refusal
    /// changes nothing.
    fn set(&mut self, c: char, upright: bool, value: u32) -> Result<(), FaceError>
        requires { value ≤ 10000 }
        ensures row { OnOk result (table self.new ≡ set_row (table self.old) c upright value) }
        ensures room { OnOk result (TakesRow (table self.old) c upright) }
        ensures fixed { IsErrOf result Fixed → (table self.old).fixed ≡ true }
        ensures full { IsErrOf result Full → IsFull (table self.old) c upright }
        ensures unchanged { OnErr result (table self.new ≡ table self.old) };
}
