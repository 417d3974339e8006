// Texts as transforms.
ghost use Rattle.std.specs.Prelude.{◌≡◌, Result};
ghost use Rattle.transforms.specs.declared.transform.Transform.{Transform};
ghost use Rattle.texts.specs.declared.fault.TextFault.{TextFault};
ghost use Rattle.texts.specs.Width.{OpenGone, CloseGone};
ghost use Rattle.texts.specs.Steps.{FixedReading, DigitsReading, WidthReading};
ghost use Rattle.texts.specs.Reading.{LooseReading, StrictReading};
ghost use Rattle.texts.specs.Promises.{AcceptsExactlyThePrinted, ReadLooselyToo, SameTextExactlyWhenSameTransform};

use super::fault::TextFault;
use super::print::print;
use transforms::transform::Transform;

// Reads a word, and after bucket and truncate a width in any number of brackets.
pub fn loose(text: &[u8]) -> Result<Transform, TextFault>
    ensures reading { LooseReading text.now result }
    ensures only { (s : Result Transform TextFault) → LooseReading text.now s → s ≡ result }
{
    if let Some(rest) = text.strip_prefix(b"bucket") {
        return width(rest).map(Transform::Bucket);
    }
    if let Some(rest) = text.strip_prefix(b"truncate") {
        return width(rest).map(Transform::Truncate);
    }
    fixed(text).ok_or(TextFault::WordUnknown)
}

// Reads just the texts that `print` writes.
pub fn strict(text: &[u8]) -> Result<Transform, TextFault>
    ensures reading { StrictReading text.now result }
    ensures accepts { AcceptsExactlyThePrinted text.now result }
    ensures loosely { ReadLooselyToo text.now result }
    ensures same { SameTextExactlyWhenSameTransform }
{
    let transform = loose(text).map_err(|_| TextFault::NotPrinted)?;
    // kept: fixed memory, as long as the longest text
    let mut room = [0u8; 20];
    let n = print(transform, &mut room).map_err(|_| TextFault::NotPrinted)?;
    if &room[..n] == text {
        Ok(transform)
    } else {
        Err(TextFault::NotPrinted)
    }
}

fn fixed(text: &[u8]) -> Option<Transform>
    ensures { FixedReading text.now result }
{
    match text {
        b"identity" => Some(Transform::Identity),
        b"year" => Some(Transform::Year),
        b"month" => Some(Transform::Month),
        b"day" => Some(Transform::Day),
        b"hour" => Some(Transform::Hour),
        b"void" => Some(Transform::Void),
        b"unknown" => Some(Transform::Unknown),
        _ => None,
    }
}

// The width that a text in brackets has.
fn width(text: &[u8]) -> Result<u32, TextFault>
    ensures { WidthReading text.now result }
{
    let bare = before_close(past_open(text));
    match bare {
        [] => Err(TextFault::WidthMissing),
        [b'+'] => Err(TextFault::WidthNonDigit),
        [b'+', rest @ ..] => digits(rest),
        _ => digits(bare),
    }
}

// kept: no plainer as one with `before_close`: one takes brackets from the front and one from the back
fn past_open(text: &[u8]) -> &[u8]
    ensures { OpenGone text.now result.now }
{
    let mut rest = text;
    while let Some(after) = rest.strip_prefix(b"[") {
        rest = after;
    }
    rest
}

fn before_close(text: &[u8]) -> &[u8]
    ensures { CloseGone text.now result.now }
{
    let mut rest = text;
    while let Some(before) = rest.strip_suffix(b"]") {
        rest = before;
    }
    rest
}

// The number that digits spell, of 32 bits.
// kept: no plainer, because `parse` takes a str and doesn't promise which of two wrong places came first.
fn digits(text: &[u8]) -> Result<u32, TextFault>
    ensures { DigitsReading text.now result }
{
    let mut n: u32 = 0;
    for b in text {
        let digit = char::from(*b).to_digit(10).ok_or(TextFault::WidthNonDigit)?;
        n = n
            .checked_mul(10)
            .and_then(|n| n.checked_add(digit))
            .ok_or(TextFault::WidthOverflow)?;
    }
    Ok(n)
}

#[cfg(test)]
mod tests {
    use super::*;
    use faults::Fault;

    fn number(answer: Result<Transform, TextFault>) -> u8 {
        match answer {
            Ok(_) => 0,
            Err(fault) => fault.number(),
        }
    }

    #[test]
    fn the_first_wrong_place_decides(rt: HostRuntime) {
        assert!(rt; number(loose(b"bucket[4294967296a]")) == 7);
        assert!(rt; number(loose(b"bucket[4294967295a]")) == 6);
        assert!(rt; number(loose(b"bucket[+]")) == 6);
        assert!(rt; number(loose(b"truncate[]")) == 5);
        assert!(rt; number(loose(b"days")) == 4);
    }

    #[test]
    fn a_width_is_spelt_in_many_ways_and_printed_in_one(rt: HostRuntime) {
        let texts: [&[u8]; 3] = [b"bucket16", b"bucket[[16]]", b"bucket[+016]"];
        for text in texts {
            assert!(rt; loose(text) == Ok(Transform::Bucket(16)));
            assert!(rt; number(strict(text)) == 13);
        }
        assert!(rt; strict(b"bucket[16]") == Ok(Transform::Bucket(16)));
    }
}
