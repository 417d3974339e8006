// Tables in which nothing repeats.
ghost use Rattle.std.specs.Prelude.{Decides};
ghost use Rattle.schemas.specs.Regular.{New, Regular};
ghost use Rattle.schemas.specs.TableRows.{row_of, table_rows};

use super::{ColumnRecord, ColumnTable};
use crate::schema::Schema;

impl<'a> ColumnTable<'a> {
    // Whether no id and no name repeats, and every record has a name.
    pub fn regular(&self) -> bool
        ensures { Decides result (Regular (table_rows self.now)) }
    {
        let mut left = self.records;
        // kept: no plainer, because each record is asked of those after it
        while let [row, later @ ..] = left {
            let rest = ColumnTable {
                records: later,
                names: self.names,
            };
            if !rest.is_new(row) {
                return false;
            }
            left = later;
        }
        true
    }

    // Whether the record has a name, and the table has neither its id nor its name.
    fn is_new(&self, row: &ColumnRecord) -> bool
        ensures { Decides result (New (row_of self.now.names.now row.now) (table_rows self.now)) }
    {
        // kept: no plainer with is_some_and: a closure of two tests in place of two short arms
        match row.name.of(self.names) {
            Some(name) => self.field_by_id(row.id).is_none() && self.id_by_name(name).is_none(),
            None => false,
        }
    }
}
