//! `decode` and `decode_last` against the slow reader, on bytes of every kind.
use crate::slow_reader::{BROKEN_LISTS, first_character, last_character};
use rsc_primitives::utf8::{decode, decode_last};

/// Bytes on both sides of each limit in the encoding's table (RFC 3629, section 4), and two in the middle.
const AT_LIMITS: [u8; 28] = [
    0x00, 0x61, 0x7F, 0x80, 0x82, 0x8F, 0x90, 0x9F, 0xA0, 0xBF, 0xC0, 0xC1, 0xC2, 0xDF, 0xE0, 0xE1,
    0xEC, 0xED, 0xEE, 0xEF, 0xF0, 0xF1, 0xF3, 0xF4, 0xF5, 0xF8, 0xFE, 0xFF,
];

// Whether both calls answer as the slow reader does.
fn agrees(bytes: &[u8]) -> bool {
    decode(bytes) == first_character(bytes) && decode_last(bytes) == last_character(bytes)
}

// The same at every position: the bytes from there on, and those up to there.
fn agrees_everywhere(bytes: &[u8]) -> bool {
    for at in 0..=bytes.len() {
        if !agrees(&bytes[at..]) || !agrees(&bytes[..at]) {
            return false;
        }
    }
    true
}

#[test]
fn every_list_of_at_most_two_bytes(rt: HostRuntime) {
    assert!(rt; agrees(b""));
    for a in 0..=255u8 {
        assert!(rt; agrees(&[a]));
        for b in 0..=255u8 {
            assert!(rt; agrees(&[a, b]));
        }
    }
}

#[test]
fn every_list_of_three_or_four_bytes_at_the_limits(rt: HostRuntime) {
    for a in AT_LIMITS {
        for b in AT_LIMITS {
            for c in AT_LIMITS {
                assert!(rt; agrees(&[a, b, c]));
                for d in AT_LIMITS {
                    assert!(rt; agrees(&[a, b, c, d]));
                }
            }
        }
    }
}

#[test]
fn lists_that_break_off_or_run_on(rt: HostRuntime) {
    for bytes in BROKEN_LISTS {
        assert!(rt; agrees_everywhere(bytes));
    }
}
