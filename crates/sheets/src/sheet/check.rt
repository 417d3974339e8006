// Whether bytes are a sheet.
ghost use Rattle.std.specs.Prelude.{◌≡◌, Decides};
ghost use Rattle.std.specs.Option.{option_copied};
ghost use Rattle.sheets.specs.Decoded.{body_of};
ghost use Rattle.sheets.specs.Standing.{Filled};
ghost use Rattle.sheets.specs.SheetColumns.{Shows};
ghost use Rattle.sheets.specs.Sheets.{IsSheet, UniqueRows};

use super::ColumnSheet;
use super::row::Rows;
use octets::read::u16_at;

// The bytes after the rows.
const TRAILER: usize = 4;

impl<'a> ColumnSheet<'a> {
    pub fn new(bytes: &'a [u8]) -> ColumnSheet<'a>
        ensures of { result.bytes.now ≡ bytes.now }
        ensures shows { Shows bytes.now }
        ensures unique { UniqueRows bytes.now }
    {
        ColumnSheet {
            bytes,
            rows: rows_of_sheet(bytes),
        }
    }

    pub fn is_sound(&self) -> bool
        ensures { Decides result (IsSheet self.now.bytes.now) }
    {
        self.rows.is_some()
    }
}

// The bytes of a sheet's rows, where the bytes are a sheet.
fn rows_of_sheet<'a>(bytes: &'a [u8]) -> Option<&'a [u8]>
    ensures { option_copied result ≡ body_of bytes.now }
{
    let end = bytes.len().checked_sub(TRAILER)?;
    let count = u16_at(bytes, end)?;
    let distance = u16_at(bytes, end + 2)?;
    let body = &bytes[..end];
    (distance as usize == end && are_rows(body, count)).then_some(body)
}

// Whether the bytes are so many rows.
fn are_rows(bytes: &[u8], count: u16) -> bool
    ensures { Decides result (Filled bytes.now count) }
{
    // kept: no plainer as `all`: of a closure that steps the rows a proof would learn nothing
    let mut rows = Rows { left: bytes };
    for _ in 0..count {
        if rows.next().is_none() {
            return false;
        }
    }
    rows.left.is_empty()
}
