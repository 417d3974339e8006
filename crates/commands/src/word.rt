// Words that stand for bytes and numbers.
ghost use Rattle.std.specs.Prelude.{◌≡◌};
ghost use Rattle.commands.specs.Faults.{NothingRefused};
ghost use Rattle.commands.specs.Hex.{hex_digit};

use crate::fault::ScriptFault;
use std::alloc::Global;

// A bare word, or `x:` and hexadecimal digits.
pub fn bytes(heap: Global, word: &str) -> Result<Vec<u8>, ScriptFault>
    ensures { NothingRefused result }
{
    match word.strip_prefix("x:") {
        Some(digits) => pairs(heap, digits.as_bytes()),
        None => Ok(word.as_bytes().to_vec(heap)?),
    }
}

// Hexadecimal digits, or `-` for no bytes.
pub fn hex(heap: Global, word: &str) -> Result<Vec<u8>, ScriptFault>
    ensures { NothingRefused result }
{
    match word {
        "-" => Ok(Vec::new(heap)),
        digits => pairs(heap, digits.as_bytes()),
    }
}

// An id, or `-` for none.
pub fn maybe_id(word: &str) -> Result<Option<i32>, ScriptFault>
    ensures { NothingRefused result }
{
    match word {
        "-" => Ok(None),
        id => Ok(Some(id.parse()?)),
    }
}

// The bytes that pairs of hexadecimal digits write.
fn pairs(heap: Global, digits: &[u8]) -> Result<Vec<u8>, ScriptFault>
    ensures { NothingRefused result }
{
    let mut out = Vec::new(heap);
    for pair in digits.chunks(2) {
        out.push(byte(pair).ok_or(ScriptFault::BadCommand)?)?;
    }
    Ok(out)
}

// The byte that two hexadecimal digits write.
fn byte(pair: &[u8]) -> Option<u8> {
    match pair {
        [high, low] => Some(hex_digit(*high)? * 16 + hex_digit(*low)?),
        _ => None,
    }
}

fn hex_digit(b: u8) -> Option<u8>
    ensures { result ≡ hex_digit b }
{
    char::from(b).to_digit(16).map(|digit| digit as u8)
}
