//! Characters at either end of bytes, character boundaries, word bytes.
use rsc_primitives::utf8::{decode, decode_last, is_boundary, is_word_byte};

#[test]
fn reads_the_character_at_either_end(rt: HostRuntime) {
    for (bytes, first, last) in [
        (b"".as_slice(), None, None),
        (b"a".as_slice(), Some(Ok('a')), Some(Ok('a'))),
        (b"\x80".as_slice(), Some(Err(0x80)), Some(Err(0x80))),
        (b"a\x80".as_slice(), Some(Ok('a')), Some(Err(0x80))),
        (b"\xC3\xA9\x80".as_slice(), Some(Ok('é')), Some(Err(0x80))),
        (
            b"\xE2\x82\xAC\x80".as_slice(),
            Some(Ok('\u{20AC}')),
            Some(Err(0x80)),
        ),
        (
            b"\xF4\x90\x80\x80".as_slice(),
            Some(Err(0xF4)),
            Some(Err(0x80)),
        ),
        (
            b"\xF4\x8F\xBF\xBF".as_slice(),
            Some(Ok('\u{10FFFF}')),
            Some(Ok('\u{10FFFF}')),
        ),
        (b"\xC0\x80".as_slice(), Some(Err(0xC0)), Some(Err(0x80))),
        (b"\xED\xA0\x80".as_slice(), Some(Err(0xED)), Some(Err(0x80))),
        (b"\xE2\x82".as_slice(), Some(Err(0xE2)), Some(Err(0x82))),
        (b"\xE0\x9F\xBF".as_slice(), Some(Err(0xE0)), Some(Err(0xBF))),
        (
            b"\xF0\x8F\xBF\xBF".as_slice(),
            Some(Err(0xF0)),
            Some(Err(0xBF)),
        ),
        (
            b"a\xF0\x9D\x9B\x83".as_slice(),
            Some(Ok('a')),
            Some(Ok('\u{1D6C3}')),
        ),
        (
            b"\xF0\x9D\x9B\x83b".as_slice(),
            Some(Ok('\u{1D6C3}')),
            Some(Ok('b')),
        ),
        (
            b"\x80\x80\x80\x80\x80".as_slice(),
            Some(Err(0x80)),
            Some(Err(0x80)),
        ),
    ] {
        assert_eq!(rt; decode(bytes), first, "the front of {bytes:?}");
        assert_eq!(rt; decode_last(bytes), last, "the back of {bytes:?}");
    }
}

#[test]
fn reads_every_one_and_two_bytes(rt: HostRuntime) {
    let mut ones = (0, 0);
    let mut twos = (0, 0);
    for a in 0..=255u8 {
        ones = counted(&[a], ones);
        for b in 0..=255u8 {
            twos = counted(&[a, b], twos);
        }
    }
    assert_eq!(rt; ones, (128, 128));
    assert_eq!(rt; twos, (34688, 34688));
}

// How often a character begins the bytes, and how often one ends them.
fn counted(bytes: &[u8], so_far: (u32, u32)) -> (u32, u32) {
    let first = match decode(bytes) {
        Some(Ok(_)) => 1,
        Some(Err(_)) => 0,
        None => 0,
    };
    let last = match decode_last(bytes) {
        Some(Ok(_)) => 1,
        Some(Err(_)) => 0,
        None => 0,
    };
    (
        so_far.0.saturating_add(first),
        so_far.1.saturating_add(last),
    )
}

#[test]
fn finds_character_boundaries_in_any_bytes(rt: HostRuntime) {
    for (bytes, at, want) in [
        (b"\xFF\x80".as_slice(), 0, true),
        (b"\xFF\x80".as_slice(), 1, false),
        (b"\xFF\x80".as_slice(), 2, true),
        (b"\xFF\x80".as_slice(), 3, false),
        (b"\x7F\xBF\xC0".as_slice(), 0, true),
        (b"\x7F\xBF\xC0".as_slice(), 1, false),
        (b"\x7F\xBF\xC0".as_slice(), 2, true),
        (b"".as_slice(), 0, true),
    ] {
        assert_eq!(rt; is_boundary(bytes, at), want, "{bytes:?} at {at}");
    }
}

#[test]
fn knows_the_word_bytes(rt: HostRuntime) {
    let mut count = 0u32;
    for byte in 0..=255u8 {
        if is_word_byte(byte) {
            count = count.saturating_add(1);
        }
    }
    assert_eq!(rt; count, 63);
    for byte in *b"09AZ_az" {
        assert!(rt; is_word_byte(byte), "{byte}");
    }
    for byte in *b"/:@[^`{\x7F\x80\xB0\xDF\xE1\xFF" {
        assert!(rt; !is_word_byte(byte), "{byte}");
    }
}
