// A few names, checked, kept and found.
use crate::name::{Name, NamePlace, check_name};
use faults::Fault;
use std::test::Fail;

// The number and the value of the refusal, if there is one.
fn refusal(bytes: &[u8]) -> Option<(u8, Option<usize>)> {
    match check_name(bytes) {
        Ok(()) => None,
        Err(fault) => Some((fault.number(), fault.value())),
    }
}

#[test]
fn names_are_refused_in_order(rt: HostRuntime) {
    assert_eq!(rt; refusal(b"passes"), None);
    assert_eq!(rt; refusal(b""), Some((1, None)));
    assert_eq!(rt; refusal(&[b'a'; 128]), None);
    assert_eq!(rt; refusal(&[0xFF; 129]), Some((2, None)));
    assert_eq!(rt; refusal(b"d\xE4"), Some((3, Some(1))));
    assert_eq!(rt; refusal(b"\xED\xA0\x80"), Some((3, Some(0))));
}

// Whether the two are one name, where both are names.
fn same(a: &[u8], b: &[u8]) -> Option<bool> {
    let a = Name::new(a).ok()?;
    let b = Name::new(b).ok()?;
    Some(a == b)
}

#[test]
fn kept_names_are_compared_by_their_bytes(rt: HostRuntime) -> Result<(), Fail> {
    let place = NamePlace {
        start: 3,
        length: 2,
    };
    let placed = place.of(b"my_id").ok_or("past the end")?;
    assert_eq!(rt; same(placed, b"id"), Some(true));
    assert_eq!(rt; same(placed, b"ids"), Some(false));
    assert_eq!(rt; same(placed, b""), None);
    Ok(())
}
