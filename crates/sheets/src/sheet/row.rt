// The rows of bytes, one after another.
ghost use Rattle.std.specs.Prelude.{length};
ghost use Rattle.std.specs.Iterator.{at_most};
ghost use Rattle.sheets.specs.Standing.{ReadsRow, StepsOver};

use super::code::read_column;
use octets::read::{i32_at, u64_at};
use schemas::schema::Column;

#[derive(Clone, Copy)]
pub(super) struct Row<'a> {
    pub(super) id: i32,
    pub(super) column: Column,
    pub(super) name: &'a [u8],
}

// The rows from the front of the bytes on, up to where no row begins.
#[derive(Drop)]
pub(super) struct Rows<'a> {
    pub(super) left: &'a [u8],
}

impl<'a> Iterator for Rows<'a> {
    type Item = Row<'a>;

    ghost next_gives = { λ s r t. StepsOver s.left.now r t.left.now };

    ghost remaining = { λ s. at_most (length s.left.now) };

    fn next(&mut self) -> Option<Row<'a>> {
        let (row, rest) = first_row(self.left)?;
        self.left = rest;
        Some(row)
    }
}

// The bytes of a row before its name.
const HEAD: usize = 14;

// The row at the front of the bytes, and the bytes after it.
fn first_row<'a>(bytes: &'a [u8]) -> Option<(Row<'a>, &'a [u8])>
    ensures { ReadsRow bytes.now result }
{
    if bytes.len() < HEAD {
        return None;
    }
    let id = i32_at(bytes, 0)?;
    let parameters = u64_at(bytes, 5)?;
    let column = read_column(bytes[4], parameters)?;
    let end = HEAD + bytes[13] as usize;
    if end > bytes.len() {
        return None;
    }
    let name = &bytes[HEAD..end];
    Some((Row { id, column, name }, &bytes[end..]))
}
