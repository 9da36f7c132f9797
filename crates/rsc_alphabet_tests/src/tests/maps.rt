//! Class maps that no set of ranges gives: classes that fall, that are left out, or that come again.
use super::{
    all_representatives, elements, has_symbols, is_debug, last_alone, odd_and_even,
    singletons_that_fall,
};
use rsc_alphabet::{ByteClassSet, Unit};
use std::test::Fail;

// Whether units are those of the numbers from 0 up, and the last of them the end that counts 256.
fn are_in_order(units: &[Unit]) -> bool {
    for (number, unit) in units.iter().enumerate() {
        if unit.as_usize() != number {
            return false;
        }
    }
    units.len() == 257 && units.last().copied() == Some(Unit::eoi(256))
}

#[test]
fn the_greatest_class_at_the_last_byte_alone(rt: HostRuntime) -> Result<(), Fail> {
    let alloc = rt.alloc();
    let classes = last_alone();
    assert!(rt; classes.is_singleton() && classes.alphabet_len() == 257 && classes.stride2() == 9);
    let symbols = classes.iter().collect::<Vec<Unit>>(alloc)?;
    let sevens = elements(alloc, &classes, Unit::u8(7))?;
    assert!(rt; are_in_order(&symbols) && sevens.is_empty());
    let found = all_representatives(alloc, &classes)?;
    assert!(rt; found.as_slice() == [Unit::u8(0), Unit::u8(255), Unit::eoi(256)].as_slice());
    assert!(rt; is_debug(alloc, &classes, "ByteClasses({singletons})"));
    Ok(())
}

// Whether units are the 128 odd bytes in order.
fn are_odd_bytes(units: &[Unit]) -> bool {
    for (index, unit) in units.iter().enumerate() {
        let is_odd = unit
            .as_u8()
            .is_some_and(|byte| usize::from(byte / 2) == index && byte % 2 == 1);
        if !is_odd {
            return false;
        }
    }
    units.len() == 128
}

// Whether units are all bytes in order, and then the end that counts 2.
fn are_bytes_and_end(units: &[Unit]) -> bool {
    for byte in 0..=255u8 {
        if units.get(usize::from(byte)).copied() != Some(Unit::u8(byte)) {
            return false;
        }
    }
    units.len() == 257 && units.last().copied() == Some(Unit::eoi(2))
}

#[test]
fn odd_and_even_bytes(rt: HostRuntime) -> Result<(), Fail> {
    let classes = odd_and_even();
    assert!(rt; classes.alphabet_len() == 3 && classes.stride2() == 2 && !classes.is_singleton());
    let odd = elements(rt.alloc(), &classes, Unit::u8(1))?;
    let found = all_representatives(rt.alloc(), &classes)?;
    assert!(rt; are_odd_bytes(&odd) && are_bytes_and_end(&found));
    Ok(())
}

#[test]
fn the_first_class_again_at_the_last_byte(rt: HostRuntime) -> Result<(), Fail> {
    let classes = singletons_that_fall();
    assert!(rt; classes.alphabet_len() == 2 && !classes.is_singleton());
    let has_symbols = has_symbols(rt.alloc(), &classes, &[Unit::u8(0), Unit::eoi(1)])?;
    let found = elements(rt.alloc(), &classes, Unit::u8(0))?;
    assert!(rt; has_symbols && found.as_slice() == [Unit::u8(0), Unit::u8(255)].as_slice());
    Ok(())
}

#[test]
fn a_union_has_the_boundaries_of_both(rt: HostRuntime) {
    let mut letters = ByteClassSet::empty();
    letters.set_range(b'a', b'z');
    let mut all = ByteClassSet::empty();
    all.set_range(0, 255);
    all.union(&letters);
    let classes = all.byte_classes();
    let [before, first, last] = [classes.get(b'`'), classes.get(b'a'), classes.get(b'z')];
    let (after, end) = (classes.get(b'{'), classes.get(255));
    assert!(rt; before != first && last != after && after == end);
    assert!(rt; classes.alphabet_len() == 4);
}
