// The lookups of a table: the first record decides.
ghost use Rattle.std.specs.Prelude.{◌≡◌};
ghost use Rattle.schemas.specs.Rows.{shown, is_called};
ghost use Rattle.schemas.specs.Sound.{rows_sound};
ghost use Rattle.schemas.specs.TableRows.{row_of, table_rows};

use super::{ColumnRecord, ColumnTable};
use crate::schema::{Column, Schema};

impl ColumnRecord {
    // A record whose name's place passes the area's end has no name.
    fn is_called(&self, area: &[u8], name: &[u8]) -> bool
        ensures { result ≡ is_called (row_of area.now self.now).name name.now }
    {
        // most names are of another length, so that their bytes need not be looked up
        self.name.length == name.len() && self.name.of(area).is_some_and(|own| own == name)
    }
}

impl<'a> Schema for ColumnTable<'a> {
    ghost columns = { λ t. shown (table_rows t) };

    ghost sound = { λ t. rows_sound (table_rows t) };

    fn field_by_id(&self, id: i32) -> Option<Column> {
        // kept: tried as `find`, which takes half as long again where there are many records
        for row in self.records {
            if row.id == id {
                return Some(Column {
                    field_type: row.field_type,
                    is_marked: row.is_marked,
                });
            }
        }
        None
    }

    fn id_by_name(&self, name: &[u8]) -> Option<i32> {
        self.records
            .iter()
            .find(|row| row.is_called(self.names, name))
            .map(|row| row.id)
    }
}
