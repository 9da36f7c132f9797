//! UTF-8 read from either end of any bytes: RFC 3629, sections 3 and 4.
ghost use Rattle.std.specs.Prelude.{◌≡◌, ◌==◌, ◌↔◌, ◌⊎◌, ℕ, ◌+◌, ◌-◌, ◌*◌, ◌%◌, ◌<◌, ◌≤◌, IsTrue, MatchOption, IfSome, IfOk, length, slice_index};
ghost use Rattle.std.specs.Char.{len_utf8};
ghost use Rattle.std.specs.Int.{IsInRange, bit_at};
ghost use Rattle.rsc_primitives.specs.Utf8.{is_word_byte, IsTail};
ghost use Rattle.rsc_primitives.specs.Decoding.{DecodesTo, DecodesLastTo, IsCharBoundary};
ghost use Rattle.rsc_primitives.specs.Utf8Layout.{IsLongNumber, EndsLongNumber, BeginsLong, EndsLong};

// The word bytes from 00 to 7F: bit b stands for the byte b.
const WORD_BYTES_TO_7F: u128 = 0x07FF_FFFE_87FF_FFFE_03FF_0000_0000_0000;

// The word bytes from 80 to FF: bit b stands for the byte 128 + b. There are none.
const WORD_BYTES_FROM_80: u128 = 0;

// The halves of the two masks: a `u64` is loaded and shifted in about half the time of a `u128`.
static WORD_BYTES: [u64; 4] = [
    (WORD_BYTES_TO_7F & 0xFFFF_FFFF_FFFF_FFFF) as u64,
    (WORD_BYTES_TO_7F >> 64) as u64,
    (WORD_BYTES_FROM_80 & 0xFFFF_FFFF_FFFF_FFFF) as u64,
    (WORD_BYTES_FROM_80 >> 64) as u64,
];

/// Whether the byte is a digit, a letter of ASCII or the low line: the word characters below 128.
#[inline(always)]
pub fn is_word_byte(byte: u8) -> bool
    ensures { result ≡ is_word_byte byte }
{
    has_bit(WORD_BYTES[usize::from(byte / 64)], byte % 64)
}

// Whether a bit of a number is 1.
#[inline(always)]
fn has_bit(number: u64, bit: u8) -> bool
    requires { bit < 64 }
    ensures { result ≡ (bit_at number bit == 1) }
{
    (number >> bit) & 1 == 1
}

/// Whether `at` is a character boundary: the length of the bytes, or the position of a byte that continues no character, at most 7F or at least C0.
///
/// Any number is allowed. Above the length it is false.
///
/// # Examples
///
/// ```
/// let text = "€1".as_bytes();
/// assert!(rt;
///     utf8::is_boundary(text, 0) && utf8::is_boundary(text, 3) && utf8::is_boundary(text, 4)
/// );
/// assert!(rt; !utf8::is_boundary(text, 1) && !utf8::is_boundary(text, 5));
/// ```
#[inline(always)]
pub fn is_boundary(bytes: &[u8], at: usize) -> bool
    ensures { IsTrue result ↔ IsCharBoundary bytes.now at }
{
    match bytes.get(at) {
        None => at == bytes.len(),
        Some(byte) => !is_tail(*byte),
    }
}

/// The character whose encoding begins the bytes, or else the first byte. `None` is for no bytes.
///
/// It looks at no more than four bytes. An encoding is one by RFC 3629, section 4: no overlong form, no surrogate, no
/// number above 10FFFF.
///
/// The error is one byte, so that a scan of any bytes can go on after it: each byte that begins no character counts as one.
///
/// # Examples
///
/// ```
/// assert!(rt; utf8::decode("€5".as_bytes()) == Some(Ok('€')));
/// assert!(rt; utf8::decode(b"\xE2\x82") == Some(Err(0xE2)));
/// assert!(rt; utf8::decode(b"") == None);
/// ```
#[inline(always)]
pub fn decode(bytes: &[u8]) -> Option<Result<char, u8>>
    ensures value { DecodesTo bytes.now result }
    ensures within { IfSome result (λ step. IfOk step (λ c. len_utf8 c ≤ length bytes.now)) }
{
    let first = *bytes.first()?;
    match first_char(bytes) {
        Some(c) => Some(Ok(c)),
        None if first < 0x80 => Some(Ok(char::from(first))),
        None => Some(Err(first)),
    }
}

/// The character whose encoding ends the bytes, or else the last byte. `None` is for no bytes.
///
/// The encoding has to reach the end: of `a` and a byte 80 the answer is that byte. It looks at no more than four bytes.
///
/// # Examples
///
/// ```
/// assert!(rt; utf8::decode_last("5€".as_bytes()) == Some(Ok('€')));
/// assert!(rt; utf8::decode_last(b"a\x80") == Some(Err(0x80)));
/// ```
#[inline(always)]
pub fn decode_last(bytes: &[u8]) -> Option<Result<char, u8>>
    ensures { DecodesLastTo bytes.now result }
{
    let last = *bytes.last()?;
    if last < 0x80 {
        return Some(Ok(char::from(last)));
    }
    match last_char(bytes) {
        Some(c) => Some(Ok(c)),
        None => Some(Err(last)),
    }
}

#[inline(always)]
fn is_tail(byte: u8) -> bool
    ensures { IsTrue result ↔ IsTail byte }
{
    (0x80..=0xBF).contains(&byte)
}

// Whether a byte may begin an encoding of more than one byte.
#[inline(always)]
fn is_long_lead(byte: u8) -> bool
    ensures { IsTrue result ↔ IsInRange 0xC2 0xF4 byte }
{
    (0xC2..=0xF4).contains(&byte)
}

// What a byte within a character adds to its number, or more than 3F of any other byte.
#[inline(always)]
fn tail_bits(byte: u8) -> u8
    ensures tail { IsTail byte → result ≡ byte - 0x80 }
    ensures other { result ≤ 0x3F → IsTail byte }
{
    byte ^ 0x80
}

// The character past ASCII that begins the bytes. Most bytes that begin none are told by the first alone.
#[inline(always)]
fn first_char(bytes: &[u8]) -> Option<char>
    requires { 1 ≤ length bytes.now }
    ensures { MatchOption result ((n : ℕ) → BeginsLong bytes.now n → ⊥) (BeginsLong bytes.now) }
{
    let first = bytes[0];
    if first < 0xC2 || 0xF4 < first {
        return None;
    }
    let [a, b, c, d, ..] = bytes else {
        return first_char_of_few(bytes);
    };
    char_of(*a, *b, *c, *d)
}

// The same of at most three bytes. A byte that isn't there is 0, which is within no character.
#[cold]
#[inline(never)]
fn first_char_of_few(bytes: &[u8]) -> Option<char>
    requires { length bytes.now ≤ 3 }
    ensures { MatchOption result ((n : ℕ) → BeginsLong bytes.now n → ⊥) (BeginsLong bytes.now) }
{
    match bytes {
        [a, b] => char_of(*a, *b, 0, 0),
        [a, b, c] => char_of(*a, *b, *c, 0),
        _ => None,
    }
}

// The character past ASCII whose encoding begins these four bytes.
#[inline(always)]
fn char_of(a: u8, b: u8, c: u8, d: u8) -> Option<char>
    ensures { MatchOption result ((n : ℕ) → IsLongNumber a b c d n → ⊥) (IsLongNumber a b c d) }
{
    let x = tail_bits(b);
    if !(is_long_lead(a) & (x <= 0x3F)) {
        return None;
    }
    let x = u32::from(x);
    if a < 0xE0 {
        return two_byte_char(a, x);
    }
    let y = u32::from(tail_bits(c));
    if a < 0xF0 {
        return if y > 0x3F {
            None
        } else {
            three_byte_char(a, x, y)
        };
    }
    let z = u32::from(tail_bits(d));
    if y > 0x3F || z > 0x3F {
        return None;
    }
    four_byte_char(a, x, y, z)
}

// The characters of two, three and four bytes: of a lead, and of what each byte after it adds to the number. There is none for an
// overlong form, a surrogate or a number above 10FFFF.
#[inline(always)]
fn two_byte_char(a: u8, x: u32) -> Option<char>
    requires { x < 64 }
    ensures { MatchOption result (a % 32 < 2) (λ n. (2 ≤ a % 32) × (n ≡ a % 32 * 64 + x)) }
{
    let number = u32::from(a % 32) * 64 + x;
    if number < 0x80 {
        None
    } else {
        char::from_u32(number)
    }
}

#[inline(always)]
fn three_byte_char(a: u8, x: u32, y: u32) -> Option<char>
    requires { (x < 64) × (y < 64) }
    ensures { MatchOption result (a % 16 * 4096 + x * 64 + y < 0x800 ⊎ IsInRange 0xD800 0xDFFF (a % 16 * 4096 + x * 64 + y))
        (λ n. (n ≡ a % 16 * 4096 + x * 64 + y) × (0x800 ≤ n) × ¬ (IsInRange 0xD800 0xDFFF n)) }
{
    let number = u32::from(a % 16) * 4096 + x * 64 + y;
    if number < 0x800 {
        None
    } else {
        char::from_u32(number)
    }
}

#[inline(always)]
fn four_byte_char(a: u8, x: u32, y: u32, z: u32) -> Option<char>
    requires { (x < 64) × (y < 64) × (z < 64) }
    ensures { MatchOption result (¬ (IsInRange 0x10000 0x10FFFF (a % 16 * 262144 + x * 4096 + y * 64 + z)))
        (λ n. (n ≡ a % 16 * 262144 + x * 4096 + y * 64 + z) × IsInRange 0x10000 0x10FFFF n) }
{
    let number = u32::from(a % 16) * 262144 + x * 4096 + y * 64 + z;
    if number < 0x10000 {
        None
    } else {
        char::from_u32(number)
    }
}

// The character past ASCII that ends the bytes.
#[inline(always)]
fn last_char(bytes: &[u8]) -> Option<char>
    requires some { 1 ≤ length bytes.now }
    requires past_ascii { 0x80 ≤ slice_index bytes.now (length bytes.now - 1) }
    ensures { MatchOption result ((n : ℕ) → EndsLong bytes.now n → ⊥) (EndsLong bytes.now) }
{
    let [.., a, b, c, d] = bytes else {
        return last_char_of_few(bytes);
    };
    char_ending(*a, *b, *c, *d)
}

// The same of at most three bytes. A byte that isn't there is 0, which is no lead.
#[cold]
#[inline(never)]
fn last_char_of_few(bytes: &[u8]) -> Option<char>
    requires some { 1 ≤ length bytes.now }
    requires few { length bytes.now ≤ 3 }
    requires past_ascii { 0x80 ≤ slice_index bytes.now (length bytes.now - 1) }
    ensures { MatchOption result ((n : ℕ) → EndsLong bytes.now n → ⊥) (EndsLong bytes.now) }
{
    match bytes {
        [c, d] => char_ending(0, 0, *c, *d),
        [b, c, d] => char_ending(0, *b, *c, *d),
        _ => None,
    }
}

// The character past ASCII whose encoding ends these four bytes. Each length is one comparison of the bytes' highest bits: where
// bytes are no text, comparisons of single bytes can't be predicted.
#[inline(always)]
fn char_ending(a: u8, b: u8, c: u8, d: u8) -> Option<char>
    ensures { MatchOption result ((n : ℕ) → EndsLongNumber a b c d n → ⊥) (EndsLongNumber a b c d) }
{
    let d_bits = u32::from(d % 64);
    if u32::from(c / 32) * 4 + u32::from(d / 64) == 0b110_10 {
        return two_byte_char(c, d_bits);
    }
    let tails = u32::from(c / 64) * 4 + u32::from(d / 64);
    let c_bits = u32::from(c % 64);
    if u32::from(b / 16) * 16 + tails == 0b1110_10_10 {
        return three_byte_char(b, c_bits, d_bits);
    }
    if u32::from(a / 8) * 64 + u32::from(b / 64) * 16 + tails != 0b11110_10_10_10 {
        return None;
    }
    four_byte_char(a, u32::from(b % 64), c_bits, d_bits)
}
