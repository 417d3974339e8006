// Column sheets: rows, then their count and the distance back to the first, two bytes each. A row: id (4 bytes), code of
// the type (1), parameters of the type (8), length of the name (1), name. Numbers are big-endian, ids in two's complement.
ghost use Rattle.std.specs.Prelude.{◌≡◌};
ghost use Rattle.std.specs.Option.{option_copied};
ghost use Rattle.sheets.specs.Decoded.{body_of};

mod check;
mod code;
mod lookup;
mod row;

// Bytes that are no sound sheet show no columns.
#[derive(Clone, Copy)]
pub struct ColumnSheet<'a> {
    bytes: &'a [u8],
    // the bytes of the rows, where the bytes are a sound sheet
    rows: Option<&'a [u8]>,
    ghost checked: { option_copied rows ≡ body_of bytes.now },
}
