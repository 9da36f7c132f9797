use rsc_alphabet::{ByteClassSet, ByteClasses, ByteSet, Unit, classes_of_ranges};
use std::ops::Bound;
use std::test::Fail;

#[test]
fn head(rt: HostRuntime) -> Result<(), Fail> {
    // `rsc_alphabet`
    let mut set = ByteClassSet::empty();
    set.set_range(b'a', b'z');
    // Three classes, and the end of the input.
    assert!(rt; set.byte_classes().alphabet_len() == 4);
    Ok(())
}

#[test]
fn byte_set(rt: HostRuntime) -> Result<(), Fail> {
    // `ByteSet`
    let mut set = ByteSet::empty();
    set.add(b'a');
    set.add(b'b');
    set.add(b'x');
    assert!(rt; set.contains(b'b') && set.contains_range(b'a', b'b') && !set.contains(b'c'));

    // `ByteSet::iter_ranges`
    let mut set = ByteSet::empty();
    set.add(b'a');
    set.add(b'b');
    set.add(b'x');
    let mut runs = set.iter_ranges();
    assert!(rt; runs.next() == Some((b'a', b'b')));
    assert!(rt; runs.next() == Some((b'x', b'x')));
    assert!(rt; runs.next() == None);
    Ok(())
}

#[test]
fn byte_class_set(rt: HostRuntime) -> Result<(), Fail> {
    // `ByteClassSet`
    let mut partition = ByteClassSet::empty();
    partition.set_range(b'a', b'z');
    let classes = partition.byte_classes();
    assert!(rt; classes.get(b'A') == 0 && classes.get(b'a') == 1 && classes.get(b'z') == 1);
    assert!(rt; classes.get(b'{') == 2);

    // `classes_of_ranges`
    let classes = classes_of_ranges(&[(b'a', b'z'), (b'q', b'q')]);
    assert!(rt; classes.get(b'a') == classes.get(b'p') && classes.get(b'p') != classes.get(b'q'));
    // Both are in the first range alone, but `q` is between them.
    assert!(rt; classes.get(b'p') != classes.get(b'r'));

    // `ByteClassSet::add_set`
    let mut letters = ByteSet::empty();
    letters.add(b'a');
    letters.add(b'b');
    let mut partition = ByteClassSet::empty();
    partition.add_set(&letters);
    let classes = partition.byte_classes();
    assert!(rt; classes.get(b'a') == classes.get(b'b') && classes.get(b'b') != classes.get(b'c'));

    // `ByteClassSet::union`
    let mut lower = ByteClassSet::empty();
    lower.set_range(b'a', b'z');
    let mut digits = ByteClassSet::empty();
    digits.set_range(b'0', b'9');
    lower.union(&digits);
    let classes = lower.byte_classes();
    assert!(rt; classes.get(b'0') != classes.get(b'A') && classes.get(b'A') != classes.get(b'a'));
    Ok(())
}

#[test]
fn byte_classes(rt: HostRuntime) -> Result<(), Fail> {
    // `ByteClasses::alphabet_len`
    let classes = classes_of_ranges(&[(b'a', b'z')]);
    assert!(rt; classes.get(255) == 2 && classes.alphabet_len() == 4);

    // `ByteClasses::eoi`
    let classes = classes_of_ranges(&[(b'a', b'z')]);
    assert!(rt; classes.get_by_unit(classes.eoi()) == 3);

    // `ByteClasses::stride2`
    let classes = classes_of_ranges(&[(b'a', b'z')]);
    assert!(rt; classes.alphabet_len() == 4 && classes.stride2() == 2);
    assert!(rt; ByteClasses::singletons().stride2() == 9);

    // `ByteClasses::elements`
    let classes = classes_of_ranges(&[(b'a', b'b')]);
    let mut letters = classes.elements(Unit::u8(1));
    assert!(rt; letters.next() == Some(Unit::u8(b'a')));
    assert!(rt; letters.next() == Some(Unit::u8(b'b')));
    assert!(rt; letters.next() == None);

    // `ByteClasses::representatives`
    let classes = classes_of_ranges(&[(b'a', b'z')]);
    let mut units = classes.representatives(Bound::Included(b'b'), Bound::Unbounded);
    assert!(rt; units.next() == Some(Unit::u8(b'b')));
    assert!(rt; units.next() == Some(Unit::u8(b'z' + 1)));
    assert!(rt; units.next() == Some(classes.eoi()));
    assert!(rt; units.next() == None);
    Ok(())
}

#[test]
fn unit(rt: HostRuntime) -> Result<(), Fail> {
    // `Unit`
    assert!(rt; Unit::u8(b'a').as_u8() == Some(b'a') && Unit::eoi(3).as_u8() == None);
    assert!(rt; Unit::eoi(3).as_usize() == 3 && Unit::u8(255) < Unit::eoi(0));
    Ok(())
}
