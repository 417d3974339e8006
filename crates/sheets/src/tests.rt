// A sheet of one row, and the same with a byte changed.
use crate::sheet::ColumnSheet;
use schemas::schema::{Column, Schema};
use std::test::Fail;
use transforms::datatypes::{PrimitiveType, Type};

// Column 7, an int with the name "a".
const ONE: [u8; 19] = [0, 0, 0, 7, 1, 0, 0, 0, 0, 0, 0, 0, 0, 1, b'a', 0, 1, 0, 15];

// Whether the sheet shows the id as an int that is marked or not.
fn shows_int(bytes: &[u8], id: i32, is_marked: bool) -> bool {
    let int = Column {
        field_type: Type::Primitive(PrimitiveType::Int),
        is_marked,
    };
    match ColumnSheet::new(bytes).field_by_id(id) {
        Some(column) => column == int,
        None => false,
    }
}

#[test]
fn a_row_is_found(rt: HostRuntime) -> Result<(), Fail> {
    let sheet = ColumnSheet::new(&ONE);
    assert!(rt; sheet.is_sound());
    assert!(rt; shows_int(&ONE, 7, false));
    assert!(rt; sheet.field_by_id(1).is_none());
    assert_eq!(rt; sheet.field_by_name(b"a").ok_or("no name")?.id, 7);
    Ok(())
}

#[test]
fn a_byte_decides(rt: HostRuntime) {
    let mut marked = ONE;
    marked[4] = 129;
    assert!(rt; shows_int(&marked, 7, true));
    let mut unsound = ONE;
    unsound[12] = 1;
    assert!(rt; !ColumnSheet::new(&unsound).is_sound());
    assert!(rt; !shows_int(&unsound, 7, false));
}
