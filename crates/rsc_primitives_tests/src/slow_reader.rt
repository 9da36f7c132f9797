//! A slow reader of UTF-8, which tries the definition itself: bytes are a character where they are its encoding, wholly.

/// Lists that break off, run on, or go over a limit of the encoding.
pub const BROKEN_LISTS: [&[u8]; 10] = [
    b"\xED\xA0\x80",
    b"\xF4\x90\x80\x80",
    b"\xF0\x9D\x9B",
    b"\x80\x80\x80\x80\x80",
    b"\xFFabc\xFF",
    b"\xF0\x9D\x9B\x83\xF0\x90\x86\x80",
    b"\xE2\x82\xAC\x80\x80",
    b"a\x80b",
    b" \x80",
    b"\xF0\x9D\x9B\x83\x80",
];

/// The character that begins the bytes: the first 1 to 4 of them are its encoding. `Err` of the first byte if no character begins there.
pub fn first_character(bytes: &[u8]) -> Option<Result<char, u8>> {
    let first = *bytes.first()?;
    for length in 1..=4usize {
        if let Some(c) = bytes.get(..length).and_then(|part| character_of(part)) {
            return Some(Ok(c));
        }
    }
    Some(Err(first))
}

/// The character that ends the bytes: the last 1 to 4 of them are its encoding. `Err` of the last byte if no character ends there.
pub fn last_character(bytes: &[u8]) -> Option<Result<char, u8>> {
    let last = *bytes.last()?;
    for length in 1..=4usize {
        let start = bytes.len().checked_sub(length);
        if let Some(c) = start.and_then(|start| character_of(&bytes[start..])) {
            return Some(Ok(c));
        }
    }
    Some(Err(last))
}

// The character whose encoding the bytes are.
fn character_of(part: &[u8]) -> Option<char> {
    let c = char::from_u32(number_of(part))?;
    let mut buffer = [0u8; 4];
    if c.encode_utf8(&mut buffer).as_bytes() == part {
        Some(c)
    } else {
        None
    }
}

// The number that 1 to 4 bytes would stand for: the low bits of the first, then six of each further one. Of any other count
// it's a number that no character has.
fn number_of(part: &[u8]) -> u32 {
    match *part {
        [a] => u32::from(a),
        [a, b] => low(a, 0x1F, 6) | low(b, 0x3F, 0),
        [a, b, c] => low(a, 0x0F, 12) | low(b, 0x3F, 6) | low(c, 0x3F, 0),
        [a, b, c, d] => low(a, 0x07, 18) | low(b, 0x3F, 12) | low(c, 0x3F, 6) | low(d, 0x3F, 0),
        _ => u32::MAX,
    }
}

// The bits of the byte under the mask, shifted left by that many bits.
fn low(byte: u8, mask: u8, positions: u32) -> u32 {
    u32::from(byte & mask).wrapping_shl(positions)
}
