//! Bytes and haystacks as text; each request for memory refused in turn.
use super::is_debug;
use linked_list_allocator::LocalHeap;
use rsc_primitives::escape::{DebugByte, DebugHaystack, byte_text, haystack_text};
use std::test::Fail;

#[test]
fn shows_a_byte(rt: HostRuntime) -> Result<(), Fail> {
    for (byte, want) in [
        (0x00, "\\x00"),
        (0x09, "\\t"),
        (0x0A, "\\n"),
        (0x0D, "\\r"),
        (0x1A, "\\x1A"),
        (0x20, "' '"),
        (0x21, "!"),
        (0x22, "\\\""),
        (0x27, "\\'"),
        (0x5C, "\\\\"),
        (0x61, "a"),
        (0x7E, "~"),
        (0x7F, "\\x7F"),
        (0xAB, "\\xAB"),
        (0xFF, "\\xFF"),
    ] {
        assert_eq!(rt; byte_text(rt.alloc(), byte)?.as_str(), want, "{byte}");
        assert!(rt; is_debug(rt.alloc(), &DebugByte(byte), want), "{byte}");
    }
    Ok(())
}

#[test]
fn shows_a_haystack(rt: HostRuntime) -> Result<(), Fail> {
    for (haystack, want) in [
        (b"".as_slice(), "\"\""),
        (
            b"a\x1A\x7F\xFF\x22".as_slice(),
            "\"a\\u{1a}\\x7f\\xff\\\"\"",
        ),
        (
            b"\x00\x01\x08\t\n\x0B\x0C\r\x0E\x19".as_slice(),
            "\"\\0\\x01\\x08\\t\\n\\x0b\\x0c\\r\\x0e\\x19\"",
        ),
        (
            b"\x1A\x1B\x1C\x1D\x1E\x1F ".as_slice(),
            "\"\\u{1a}\\u{1b}\\u{1c}\\u{1d}\\u{1e}\\u{1f} \"",
        ),
        (b"'\\~\x80".as_slice(), "\"\\'\\\\~\\x80\""),
        (
            b"\x00\x01\x09\x0A\x0D\x19\x1A\x1F\x20\x22\x27\x5C\x7E\x7F\x80".as_slice(),
            "\"\\0\\x01\\t\\n\\r\\x19\\u{1a}\\u{1f} \\\"\\'\\\\~\\x7f\\x80\"",
        ),
        (b"\xF0\x9D\x9B\x83".as_slice(), "\"𝛃\""),
        (
            b"a\xC3\xA9\xC3z\xE2\x82".as_slice(),
            "\"aé\\xc3z\\xe2\\x82\"",
        ),
        (b"\xC2\xAD\xE2\x80\x8B".as_slice(), "\"\\u{ad}\\u{200b}\""),
    ] {
        assert_eq!(rt;
            haystack_text(rt.alloc(), haystack)?.as_str(),
            want,
            "{haystack:?}"
        );
        assert!(rt;
            is_debug(rt.alloc(), &DebugHaystack(haystack), want),
            "{haystack:?}"
        );
    }
    Ok(())
}

// What a budget gives: `None` is out of memory, and otherwise whether the text is the wanted one.
fn text_within(heap: &LocalHeap, haystack: &[u8], want: &str) -> Option<bool> {
    match haystack_text(heap, haystack) {
        Ok(text) => Some(text.as_str() == want),
        Err(_) => None,
    }
}

#[test]
fn refuses_a_text_that_does_not_fit(rt: HostRuntime) -> Result<(), Fail> {
    let haystack = b"a line that needs more than one growth of the text\n\xFF".as_slice();
    let want = "\"a line that needs more than one growth of the text\\n\\xff\"";
    let mut refused = 0u32;
    let mut is_answered = false;
    for step in 0..64usize {
        let heap = LocalHeap::new(rt.alloc(), step * 8)?;
        match text_within(&heap, haystack, want) {
            Some(as_wanted) => {
                assert!(rt; as_wanted);
                is_answered = true;
            }
            None => {
                assert!(rt; !is_answered);
                refused = refused.saturating_add(1);
            }
        }
        assert!(rt; heap.used() == 0);
    }
    assert!(rt; is_answered && 1 < refused);
    Ok(())
}

#[test]
fn refuses_the_text_of_a_byte_while_the_memory_is_taken(rt: HostRuntime) -> Result<(), Fail> {
    let heap = LocalHeap::new(rt.alloc(), 16)?;
    let taken = Vec::<u8, &LocalHeap>::with_capacity(&heap, 16)?;
    assert!(rt; byte_text(&heap, 0xAB).is_err());
    drop(taken);
    assert_eq!(rt; byte_text(&heap, 0xAB)?.as_str(), "\\xAB");
    Ok(())
}
