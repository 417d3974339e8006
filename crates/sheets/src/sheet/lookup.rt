// The lookups of a sheet: the first row decides.
ghost use Rattle.std.specs.Prelude.{map};
ghost use Rattle.schemas.specs.Sound.{rows_sound};
ghost use Rattle.sheets.specs.Decoded.{rows_of};
ghost use Rattle.sheets.specs.Standing.{Holds};
ghost use Rattle.sheets.specs.SheetColumns.{named, sheet_columns};

use super::ColumnSheet;
use super::row::Rows;
use schemas::schema::{Column, Schema};

impl<'a> ColumnSheet<'a> {
    // Bytes that are no sound sheet have no rows.
    fn rows(&self) -> Rows<'a>
        ensures { Holds result.left.now (rows_of self.now.bytes.now) }
    {
        Rows {
            left: self.rows.unwrap_or(&[]),
        }
    }
}

impl<'a> Schema for ColumnSheet<'a> {
    ghost columns = { λ s. sheet_columns s.bytes.now };

    ghost sound = { λ s. rows_sound (map named (rows_of s.bytes.now)) };

    fn field_by_id(&self, id: i32) -> Option<Column> {
        self.rows().find(|row| row.id == id).map(|row| row.column)
    }

    fn id_by_name(&self, name: &[u8]) -> Option<i32> {
        self.rows().find(|row| row.name == name).map(|row| row.id)
    }
}
