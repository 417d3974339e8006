// The parts of a record, each put at a place of the output.
ghost use Rattle.std.specs.Prelude.{◌≡◌, ◌+◌, ◌≤◌, [], ◌∷◌, ◌++◌, length, take, drop, FitsSigned};
ghost use Rattle.std.specs.Int.{w32};
ghost use Rattle.octets.specs.BigEndian.{be_id};
ghost use Rattle.names.specs.NameBytes.{name_bytes};
ghost use Rattle.partitions.specs.Views.{paper_field};
ghost use Rattle.transforms.specs.Printed.{printed, Narrow};
ghost use Rattle.records.specs.Format.{flagged, entry_bytes, entry_of, IdFits, FieldFits};
ghost use Rattle.records.specs.Written.{laid};

use octets::put::put_at;
use partitions::field::UnboundPartitionField;
use texts::print::print;
use transforms::transform::Transform;

// The most bytes of a transform's text.
const MAX_TEXT: usize = 20;

// Writes the entry to the front of the output, and answers its length.
pub(crate) fn put_entry(field: &UnboundPartitionField, out: &mut [u8]) -> usize
    requires { length (entry_bytes (entry_of (paper_field field.now))) ≤ length out.old }
    ensures len { result ≡ length (entry_bytes (entry_of (paper_field field.now))) }
    ensures after { out.new ≡ entry_bytes (entry_of (paper_field field.now)) ++ drop (length (entry_bytes (entry_of (paper_field field.now)))) out.old }
{
    let mut room = [0; MAX_TEXT];
    let text_len = print_in(field.transform, &mut room);
    let name_start = put(&head(field), out, 0);
    let name_end = put(field.name.as_bytes(), out, name_start);
    let text_start = put(&[text_len as u8], out, name_end);
    put(&room[0..text_len], out, text_start)
}

// The length of the entry.
pub(crate) fn entry_len(field: &UnboundPartitionField) -> usize
    ensures len { result ≡ length (entry_bytes (entry_of (paper_field field.now))) }
    ensures short { result ≤ 159 }
    ensures fits { FieldFits (paper_field field.now) }
{
    let mut room = [0; MAX_TEXT];
    let text_len = print_in(field.transform, &mut room);
    head(field).len() + field.name.as_bytes().len() + 1 + text_len
}

// Puts the bytes at the place, and answers the place after them.
pub(crate) fn put(bytes: &[u8], out: &mut [u8], at: usize) -> usize
    requires { at + length bytes.now ≤ length out.old }
    ensures end { result ≡ at + length bytes.now }
    ensures after { out.new ≡ laid at bytes.now out.old }
{
    put_at(bytes, out, at).unwrap()
}

// A flag, and the id, which is zero where there is none.
pub(crate) fn flag_bytes(id: Option<i32>) -> [u8; 5]
    ensures bytes { result ≡ flagged id }
    ensures fits { IdFits id }
{
    // kept: no plainer: `map_or` would say the same two cases in the other order
    match id {
        None => [0, 0, 0, 0, 0],
        Some(id) => {
            let bytes = id.to_be_bytes();
            [1, bytes[0], bytes[1], bytes[2], bytes[3]]
        }
    }
}

// What stands before the bytes of the name. Ids of 32 bits fit their bytes.
fn head(field: &UnboundPartitionField) -> [u8; 10]
    ensures bytes { result ≡ be_id field.now.source_id ++ (flagged field.now.field_id ++ (length (name_bytes field.now.name) ∷ [])) }
    ensures source { FitsSigned w32 field.now.source_id }
    ensures id { IdFits field.now.field_id }
{
    let source = field.source_id.to_be_bytes();
    let id = flag_bytes(field.field_id);
    let name_len = field.name.as_bytes().len() as u8;
    // kept: no plainer, because arrays have no concatenation that gives an array
    [
        source[0], source[1], source[2], source[3], id[0], id[1], id[2], id[3], id[4], name_len,
    ]
}

// Prints the transform to the front of the room, which is long enough for every text, and answers the text's length.
// kept: fixed memory, so the text's length is told beside its room
fn print_in(transform: Transform, room: &mut [u8]) -> usize
    requires { 20 ≤ length room.old }
    ensures text { take result room.new ≡ printed transform }
    ensures len { result ≡ length (printed transform) }
    ensures short { result ≤ 20 }
    ensures width { Narrow transform }
{
    // never 0: no text is longer than the room
    print(transform, room).unwrap_or(0)
}
