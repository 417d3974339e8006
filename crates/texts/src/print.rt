// Transforms as text.
ghost use Rattle.std.specs.Prelude.{◌++◌, codes, decimal};
ghost use Rattle.transforms.specs.Printed.{printed};
ghost use Rattle.texts.specs.Writing.{Wrote};
ghost use Rattle.texts.specs.Promises.{ReadBack, AsDocumented};

use itoa::Buffer;
use transforms::transform::Transform;

// The text is longer than the output.
#[derive(Clone, Copy, PartialEq, Eq)]
pub struct OutputShort;

// Writes the transform's text to the front of `out`, and answers its length.
// kept: no plainer, because `write!` promises nothing where it fails, and to fail here must mean that the output is short.
pub fn print(transform: Transform, out: &mut [u8]) -> Result<usize, OutputShort>
    ensures wrote { Wrote (printed transform) out.old out.new result }
    ensures read_back { ReadBack transform }
    ensures as_documented { AsDocumented transform }
{
    match transform {
        Transform::Identity => put_word(out, b"identity"),
        Transform::Bucket(n) => put_width(out, b"bucket[", n),
        Transform::Truncate(n) => put_width(out, b"truncate[", n),
        Transform::Year => put_word(out, b"year"),
        Transform::Month => put_word(out, b"month"),
        Transform::Day => put_word(out, b"day"),
        Transform::Hour => put_word(out, b"hour"),
        Transform::Void => put_word(out, b"void"),
        Transform::Unknown => put_word(out, b"unknown"),
    }
}

fn put_word(out: &mut [u8], word: &[u8]) -> Result<usize, OutputShort>
    ensures { Wrote word.now out.old out.new result }
{
    let n = word.len();
    if out.len() < n {
        return Err(OutputShort);
    }
    out[..n].copy_from_slice(word);
    Ok(n)
}

// The word, which ends with a bracket, the width and a closing bracket.
fn put_width(out: &mut [u8], word: &[u8], n: u32) -> Result<usize, OutputShort>
    ensures { Wrote (word.now ++ (decimal n ++ codes "]")) out.old out.new result }
{
    let mut buffer = Buffer::new();
    let digits = buffer.format(n).as_bytes();
    let start = word.len();
    let end = start + digits.len();
    if out.len() <= end {
        return Err(OutputShort);
    }
    out[..start].copy_from_slice(word);
    out[start..end].copy_from_slice(digits);
    out[end] = b']';
    Ok(end + 1)
}
