//! Shown texts, and the traits of each type.
use super::is_debug;
use rsc_alphabet::{
    ByteClassElements, ByteClassIter, ByteClassRepresentatives, ByteClassSet, ByteClasses, ByteSet,
    ByteSetIter, ByteSetRangeIter, Unit,
};
use rsc_primitives_tests::forms::is_shown;
use std::alloc::{AllocError, Global};
use std::fmt;
use std::fmt::Write;
use std::test::Fail;

// The text that shows the unit of a byte.
fn text_of(alloc: Global, byte: u8) -> Result<String, AllocError> {
    match byte {
        b' ' => String::from_str(alloc, "' '"),
        b'\t' => String::from_str(alloc, "\\t"),
        b'\n' => String::from_str(alloc, "\\n"),
        b'\r' => String::from_str(alloc, "\\r"),
        b'"' => String::from_str(alloc, "\\\""),
        b'\'' => String::from_str(alloc, "\\'"),
        b'\\' => String::from_str(alloc, "\\\\"),
        0x21..=0x7E => format!(in alloc; "{}", char::from(byte)),
        _ => format!(in alloc; "\\x{byte:02X}"),
    }
}

#[test]
fn each_unit_is_shown(rt: HostRuntime) -> Result<(), Fail> {
    for byte in 0..=255u8 {
        let want = text_of(rt.alloc(), byte)?;
        assert!(rt; is_debug(rt.alloc(), &Unit::u8(byte), &want), "{byte}");
    }
    for count in 0..=256usize {
        assert!(rt; is_debug(rt.alloc(), &Unit::eoi(count), "EOI"), "{count}");
    }
    Ok(())
}

#[test]
fn each_range_of_each_class_is_shown(rt: HostRuntime) {
    let mut classes = ByteClasses::empty();
    for byte in [b'Z', b'a', b'b', b'c', 0xFF] {
        classes.set(byte, 1);
    }
    let want = "ByteClasses(0 => [\\x00-Y[-`d-\\xFE], 1 => [Za-c\\xFF], 2 => [EOI])";
    assert!(rt; is_debug(rt.alloc(), &classes, want));
    // A class that no byte has is shown without a range.
    classes.set(0xFF, 3);
    let want =
        "ByteClasses(0 => [\\x00-Y[-`d-\\xFE], 1 => [Za-c], 2 => [], 3 => [\\xFF], 4 => [EOI])";
    assert!(rt; is_debug(rt.alloc(), &classes, want));
}

// Twelve classes, of which the first has five ranges and another two neighbours.
#[test]
fn each_class_is_shown(rt: HostRuntime) {
    let mut classes = ByteClasses::empty();
    for k in 1..=9u8 {
        classes.set(b'0'.saturating_add(k), k);
    }
    for byte in [b'A', b'C', b'E', b'F'] {
        classes.set(byte, 10);
    }
    classes.set(0xFF, 11);
    let want =
        "ByteClasses(0 => [\\x00-0:-@BDG-\\xFE], 1 => [1], 2 => [2], 3 => [3], 4 => [4], 5 => [5], 6 => [6], 7 => [7], 8 => [8], 9 => [9], 10 => [ACE-F], 11 => [\\xFF], 12 => [EOI])";
    assert!(rt; is_debug(rt.alloc(), &classes, want));
}

// The text of a map in which each class is one byte, but for the last class: that takes the bytes from `first` on.
fn text_of_singletons_to(alloc: Global, first: u8) -> Result<String, AllocError> {
    let mut text = String::from_str(alloc, "ByteClasses(")?;
    for byte in 0..first {
        write!(text, "{byte} => [{}], ", text_of(alloc, byte)?)?;
    }
    let end = u32::from(first) + 1;
    write!(
        text,
        "{first} => [{}-\\xFF], {end} => [EOI])",
        text_of(alloc, first)?
    )?;
    Ok(text)
}

// From one class to 255, of which the last one has two bytes.
#[test]
fn any_number_of_classes_is_shown(rt: HostRuntime) -> Result<(), Fail> {
    for first in 0..255u8 {
        let mut classes = ByteClasses::singletons();
        for byte in first..=255 {
            classes.set(byte, first);
        }
        let want = text_of_singletons_to(rt.alloc(), first)?;
        assert!(rt; is_debug(rt.alloc(), &classes, &want), "{first}");
    }
    Ok(())
}

// Every other byte is in class 1.
#[test]
fn classes_of_128_ranges_are_shown(rt: HostRuntime) -> Result<(), Fail> {
    let mut classes = ByteClasses::empty();
    let (mut even, mut odd) = (String::new(rt.alloc()), String::new(rt.alloc()));
    for byte in 0..=255u8 {
        let text = text_of(rt.alloc(), byte)?;
        classes.set(byte, byte % 2);
        if byte % 2 == 0 {
            even.push_str(&text)?;
        } else {
            odd.push_str(&text)?;
        }
    }
    let want = format!(in rt.alloc(); "ByteClasses(0 => [{even}], 1 => [{odd}], 2 => [EOI])")?;
    assert!(rt; is_debug(rt.alloc(), &classes, &want));
    Ok(())
}

// As the original gives them.
#[test]
fn fixed_texts_are_shown_in_each_form(rt: HostRuntime) {
    let alloc = rt.alloc();
    for (unit, want) in [
        (Unit::u8(b' '), "' '"),
        (Unit::u8(b'a'), "a"),
        (Unit::u8(0xFF), "\\xFF"),
        (Unit::eoi(0), "EOI"),
        (Unit::eoi(256), "EOI"),
    ] {
        assert!(rt; is_shown(alloc, &unit, want), "{want}");
    }
    let mut classes = ByteClasses::empty();
    let want = "ByteClasses(0 => [\\x00-\\xFF], 1 => [EOI])";
    let is_empty = is_shown(alloc, &classes, want);
    classes.set(b'Z', 1);
    let want = "ByteClasses(0 => [\\x00-Y[-\\xFF], 1 => [EOI])";
    let is_set = is_shown(alloc, &classes, want);
    let singletons = ByteClasses::singletons();
    let are_singletons = is_shown(alloc, &singletons, "ByteClasses({singletons})");
    assert!(rt; is_empty && is_set && are_singletons);
}

fn is_copied<T: Clone + Copy + Eq + fmt::Debug>() {}

fn is_ordered<T: Clone + Copy + Ord + fmt::Debug>() {}

fn is_cloned<T: Clone + Default + fmt::Debug>() {}

fn has_default<T: Clone + Copy + Default + fmt::Debug>() {}

fn is_walked<T: Iterator + fmt::Debug>() {}

#[test]
fn traits_of_each_type(_rt: HostRuntime) {
    is_ordered::<Unit>();
    is_copied::<ByteSet>();
    has_default::<ByteSet>();
    has_default::<ByteClasses>();
    is_cloned::<ByteClassSet>();
    is_walked::<ByteClassIter<'_>>();
    is_walked::<ByteClassElements<'_>>();
    is_walked::<ByteClassRepresentatives<'_>>();
    is_walked::<ByteSetIter<'_>>();
    is_walked::<ByteSetRangeIter<'_>>();
}

#[test]
fn units_are_ordered(rt: HostRuntime) {
    let are_less = [Unit::u8(1) < Unit::u8(2), Unit::u8(255) < Unit::eoi(0)];
    let is_greater = Unit::u8(2).cmp(&Unit::u8(1)).is_gt();
    let is_less = Unit::eoi(1).cmp(&Unit::eoi(2)).is_lt();
    assert!(rt; are_less == [true, true] && is_greater && is_less);
}
