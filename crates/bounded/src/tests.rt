// A list of two numbers, filled and emptied.
use crate::Bounded;
use std::test::Fail;

#[test]
fn takes_as_many_as_it_may_hold(rt: HostRuntime) -> Result<(), Fail> {
    let mut numbers: Bounded<u8, 2> = Bounded::new(rt.alloc())?;
    assert!(rt; numbers.push(7).is_ok());
    assert!(rt; numbers.push(8).is_ok());
    assert!(rt; numbers.push(9).is_err());
    assert!(rt; numbers.as_slice() == [7, 8].as_slice());
    numbers.truncate(1);
    let mut others: Bounded<u8, 2> = Bounded::new(rt.alloc())?;
    others.copy_from(&numbers);
    assert!(rt; others.as_slice() == [7].as_slice());
    numbers.clear();
    assert!(rt; numbers.is_empty());
    assert!(rt; others.len() == 1);
    Ok(())
}
