// Names, why bytes are refused as one, and the place of a name in an area of bytes.
ghost use Rattle.std.specs.Prelude.{◌≤◌, take};
ghost use Rattle.names.specs.GoodName.{GoodName};

mod check;
mod kept;
mod place;

pub use check::check_name;

// The most bytes that a name may have.
pub const MAX_LEN: usize = 128;

#[derive(Clone, Copy, PartialEq, Eq)]
pub enum NameFault {
    Empty,
    Long,
    // the longest front that is UTF-8 has this many bytes
    NotUtf8 { front: usize },
}

// A good name, held in place: its bytes are the first `len`.
// kept: fixed memory: a name is held in place and copied, and wants no heap; the kit's ArrayVec is not Copy
#[derive(Clone, Copy)]
pub struct Name {
    bytes: [u8; MAX_LEN],
    len: u8,
    ghost short: { len ≤ 128 },
    ghost good: { ∥ GoodName (take len bytes) ∥₁ },
}

// Where a name's bytes lie in an area.
// kept: no plainer as a slice: that the place passes the area's end is a refusal of its own, which a slice could not tell
#[derive(Clone, Copy, PartialEq, Eq)]
pub struct NamePlace {
    pub start: usize,
    pub length: usize,
}
