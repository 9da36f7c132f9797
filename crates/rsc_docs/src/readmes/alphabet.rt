use rsc_alphabet::{Unit, classes_of_ranges};
use std::ops::Bound;
use std::test::Fail;

#[test]
fn example(rt: HostRuntime) -> Result<(), Fail> {
    // 00 to 60 is class 0, a to z class 1, 7B to FF class 2; the end of the input comes after them.
    let classes = classes_of_ranges(&[(b'a', b'z')]);
    assert!(rt; classes.get(b'm') == 1 && classes.get(b'z' + 1) == 2);
    assert!(rt; classes.alphabet_len() == 4 && classes.stride2() == 2);

    // One byte of each class stands for all of them.
    let mut bytes = classes.representatives(Bound::Unbounded, Bound::Unbounded);
    for unit in [
        Unit::u8(0x00),
        Unit::u8(0x61),
        Unit::u8(0x7B),
        classes.eoi(),
    ] {
        assert!(rt; bytes.next() == Some(unit));
    }
    assert!(rt; bytes.next() == None);
    Ok(())
}
