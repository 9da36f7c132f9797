//! Sizes of texts, shown values at the least and the greatest numbers, and the traits of each type.
use super::{is_debug, is_text};
use rsc_primitives::escape::{DebugByte, DebugHaystack, byte_text, haystack_text};
use rsc_primitives::{
    NonMaxUsize, PatternID, PatternIDError, PatternIDIter, SmallIndex, SmallIndexError,
    SmallIndexIter, StateID, StateIDError, StateIDIter,
};
use std::alloc::Global;
use std::error::Error;
use std::fmt;
use std::fmt::Write;
use std::hash::Hash;
use std::test::Fail;

// Whether the text of that many bytes `a` is those in quotes.
fn is_answered(alloc: Global, count: usize) -> Result<bool, Fail> {
    let mut haystack = Vec::new(alloc);
    for _ in 0..count {
        haystack.push(b'a')?;
    }
    let text = haystack_text(alloc, haystack.as_slice())?;
    let Some(inner) = text
        .as_str()
        .strip_prefix('"')
        .and_then(|rest| rest.strip_suffix('"'))
    else {
        return Ok(false);
    };
    Ok(inner.as_bytes() == haystack.as_slice())
}

#[test]
fn texts_of_haystacks_of_each_size(rt: HostRuntime) -> Result<(), Fail> {
    for count in [0, 1, 2, 63, 64, 65, 1_000, 100_000] {
        assert!(rt; is_answered(rt.alloc(), count)?, "{count}");
    }
    Ok(())
}

#[test]
fn texts_of_each_byte(rt: HostRuntime) -> Result<(), Fail> {
    for byte in 0..=255u8 {
        let text = byte_text(rt.alloc(), byte)?;
        assert_eq!(rt;
            text.as_str(),
            format!(in rt.alloc(); "{:?}", DebugByte(byte))?.as_str()
        );
    }
    assert_eq!(rt; byte_text(rt.alloc(), 0x80)?.as_str(), "\\x80");
    Ok(())
}

// Characters of each length, on both sides of what a character takes in bytes, and some that are escaped.
#[test]
fn texts_past_ascii(rt: HostRuntime) -> Result<(), Fail> {
    for (haystack, want) in [
        ("\u{80}", "\"\\u{80}\""),
        ("¡é߿", "\"¡é߿\""),
        ("ࠀ€\u{FFFD}", "\"ࠀ€\u{FFFD}\""),
        ("𐀀𝛃🌀😀", "\"𐀀𝛃🌀😀\""),
        ("a😀b€c", "\"a😀b€c\""),
        ("\u{10FFFF}", "\"\\u{10ffff}\""),
        ("\u{2028}\u{FEFF}", "\"\\u{2028}\\u{feff}\""),
        ("e\u{301}", "\"e\\u{301}\""),
    ] {
        assert_eq!(rt;
            haystack_text(rt.alloc(), haystack.as_bytes())?.as_str(),
            want
        );
        assert!(rt; is_debug(rt.alloc(), &DebugHaystack(haystack.as_bytes()), want));
    }
    Ok(())
}

#[test]
fn texts_of_runs_before_a_character(rt: HostRuntime) -> Result<(), Fail> {
    for count in 0..200usize {
        let mut haystack = "a".repeat(rt.alloc(), count)?;
        haystack.push_str("é€b")?;
        let text = haystack_text(rt.alloc(), haystack.as_bytes())?;
        assert_eq!(rt;
            text.as_str(),
            format!(in rt.alloc(); "\"{haystack}\"")?.as_str()
        );
    }
    Ok(())
}

#[test]
fn shown_haystacks_are_whole(rt: HostRuntime) -> Result<(), Fail> {
    let haystack = [b'x'; 300];
    let text = format!(in rt.alloc(); "{:?}", DebugHaystack(&haystack))?;
    assert_eq!(rt; text.as_str().len(), 302);
    Ok(())
}

#[test]
fn numbers_are_shown_in_full(rt: HostRuntime) -> Result<(), Fail> {
    let alloc = rt.alloc();
    for (number, index, pattern, state) in [
        (0, "SmallIndex(0)", "PatternID(0)", "StateID(0)"),
        (
            1_234_567,
            "SmallIndex(1234567)",
            "PatternID(1234567)",
            "StateID(1234567)",
        ),
        (
            2_147_483_646,
            "SmallIndex(2147483646)",
            "PatternID(2147483646)",
            "StateID(2147483646)",
        ),
    ] {
        assert!(rt; is_debug(alloc, &SmallIndex::new(number)?, index));
        assert!(rt; is_debug(alloc, &PatternID::new(number)?, pattern));
        assert!(rt; is_debug(alloc, &StateID::new(number)?, state));
    }
    let offset = NonMaxUsize::new(18446744073709551614).ok_or("refused")?;
    assert!(rt; is_debug(alloc, &offset, "18446744073709551614"));
    Ok(())
}

// In lines as the original has it; an offset has the width that is asked for.
#[test]
fn numbers_are_shown_in_lines_and_widths(rt: HostRuntime) -> Result<(), Fail> {
    let alloc = rt.alloc();
    let (index, pattern, state) = (SmallIndex::must(5), PatternID::must(6), StateID::must(7));
    assert!(rt; is_text(format!(in alloc; "{index:#?}"), "SmallIndex(\n    5,\n)"));
    assert!(rt; is_text(format!(in alloc; "{pattern:#?}"), "PatternID(\n    6,\n)"));
    assert!(rt; is_text(format!(in alloc; "{state:#?}"), "StateID(\n    7,\n)"));
    let offset = NonMaxUsize::new(8).ok_or("refused")?;
    assert!(rt; is_text(format!(in alloc; "{offset:>3?}"), "  8"));
    Ok(())
}

#[test]
fn refusals_are_shown(rt: HostRuntime) -> Result<(), Fail> {
    let alloc = rt.alloc();
    let index = SmallIndex::new(2147483647).err().ok_or("accepted")?;
    assert!(rt; is_debug(alloc, &index, "SmallIndexError { attempted: 2147483647 }"));
    let pattern = PatternID::new(4294967296).err().ok_or("accepted")?;
    assert!(rt; is_debug(alloc, &pattern, "PatternIDError { attempted: 4294967296 }"));
    let state = StateID::new(usize::MAX).err().ok_or("accepted")?;
    assert!(rt;
        is_debug(
            alloc,
            &state,
            "StateIDError { attempted: 18446744073709551615 }"
        )
    );
    Ok(())
}

#[test]
fn iterators_are_shown(rt: HostRuntime) -> Result<(), Fail> {
    let alloc = rt.alloc();
    assert!(rt; !format!(in alloc; "{:?}", SmallIndex::iter(3))?.is_empty());
    assert!(rt; !format!(in alloc; "{:?}", PatternID::iter(3))?.is_empty());
    assert!(rt; !format!(in alloc; "{:?}", StateID::iter(3))?.is_empty());
    Ok(())
}

// Counts the bytes that are written.
#[derive(Drop)]
struct Counter {
    count: u64,
}

impl fmt::Write for Counter {
    fn write_str(&mut self, text: &str) -> fmt::Result {
        self.count = self.count.saturating_add(text.len() as u64);
        Ok(())
    }
}

// How many bytes the refusal of a number displays; `None` where it isn't displayed.
fn displayed(number: u64) -> Option<u64> {
    let mut counter = Counter { count: 0 };
    if let Err(error) = SmallIndex::try_from(number) {
        write!(counter, "{error}").ok()?;
    }
    if let Err(error) = PatternID::try_from(number) {
        write!(counter, "{error}").ok()?;
    }
    if let Err(error) = StateID::try_from(number) {
        write!(counter, "{error}").ok()?;
    }
    Some(counter.count)
}

#[test]
fn refusals_are_displayed_at_each_length(rt: HostRuntime) -> Result<(), Fail> {
    for (number, want) in [
        (2_147_483_646, 0),
        (2_147_483_647, 236),
        (99_999_999_999, 239),
        (18446744073709551615, 266),
    ] {
        assert_eq!(rt; displayed(number), Some(want), "{number}");
    }
    let error = PatternID::new(2147483647).err().ok_or("accepted")?;
    let want = "failed to create PatternID from 2147483647, which exceeds PatternID(2147483646)";
    assert!(rt; is_text(format!(in rt.alloc(); "{error:#}"), want));
    assert!(rt; is_text(format!(in rt.alloc(); "{error:>100}"), want));
    Ok(())
}

fn is_index<T>()
where
    T: Copy + Default + Ord + Hash + fmt::Debug + From<u8>,
    T: TryFrom<u16> + TryFrom<u32> + TryFrom<u64> + TryFrom<usize>,
{}

fn is_refusal<T: Clone + Eq + fmt::Debug + fmt::Display + Error>() {}

fn is_walked<T: Clone + fmt::Debug + Iterator>() {}

fn is_offset<T: Copy + Ord + Hash + fmt::Debug>() {}

fn is_shown_and_copied<T: Copy + fmt::Debug>() {}

fn is_shown<T: fmt::Debug>() {}

#[test]
fn traits_of_each_type(_rt: HostRuntime) {
    is_index::<SmallIndex>();
    is_index::<PatternID>();
    is_index::<StateID>();
    is_refusal::<SmallIndexError>();
    is_refusal::<PatternIDError>();
    is_refusal::<StateIDError>();
    is_walked::<SmallIndexIter>();
    is_walked::<PatternIDIter>();
    is_walked::<StateIDIter>();
    is_offset::<NonMaxUsize>();
    is_shown_and_copied::<DebugByte>();
    is_shown::<DebugHaystack<'_>>();
}
