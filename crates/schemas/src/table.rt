// Tables of columns: records, whose names stand in an area of bytes.
use names::name::NamePlace;
use transforms::datatypes::Type;

mod laws;
mod lookup;
mod regular;

pub use laws::{first_row_decides, regular_rows_are_found};

#[derive(Clone, Copy)]
pub struct ColumnRecord {
    pub id: i32,
    pub field_type: Type,
    pub is_marked: bool,
    pub name: NamePlace,
}

#[derive(Clone, Copy)]
pub struct ColumnTable<'a> {
    pub records: &'a [ColumnRecord],
    pub names: &'a [u8],
}
