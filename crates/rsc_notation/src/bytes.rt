//! Bytes and ranges of bytes as hexadecimal digits, and numbers as decimal ones.
ghost use Rattle.std.specs.Prelude.{◌≡◌, ℕ, ◌<◌, ◌≤◌, ◌↔◌, ◌^◌, ◌∷◌, [], ◌++◌, length, IsSome, IfSome, IfOk, IsErr, MatchOption, Ok};
ghost use Rattle.std.specs.List.{AllPass};
ghost use Rattle.std.specs.Str.Parse.{IsNumeral, digits_value};
ghost use Rattle.hex.specs.Hex.{decode_of, is_hex_digit};
ghost use Rattle.rsc_notation.specs.RangeTexts.{IsRangeText};

use hex::{FromHex, FromHexError};
use std::alloc::{AllocError, Allocator};

/// The byte that two hexadecimal digits of either case write.
pub fn parse_byte(digits: &[u8]) -> Option<u8>
    ensures value { IfSome result (λ byte. decode_of digits.now ≡ Ok (byte ∷ [])) }
    ensures found { IsSome result ↔ ((length digits.now ≡ 2) × AllPass is_hex_digit digits.now) }
{
    match <[u8; 1] as FromHex>::from_hex(digits) {
        Ok(bytes) => Some(bytes[0]),
        Err(_) => None,
    }
}

/// The range that is written `XX-XX`, or `None` if nothing is written so or the first byte is above the second.
pub fn parse_range(text: &[u8]) -> Option<(u8, u8)>
    ensures ordered { IfSome result (λ r. r.0 ≤ r.1) }
    ensures value { IfSome result (λ r. IsRangeText text.now r.0 r.1) }
    ensures found { (first last : ℕ) → IsRangeText text.now first last → first ≤ last → IsSome result }
{
    let [first, second, dash, third, fourth] = text else {
        return None;
    };
    if *dash != b'-' {
        return None;
    }
    let start = parse_byte(&[*first, *second])?;
    let end = parse_byte(&[*third, *fourth])?;
    if start <= end {
        Some((start, end))
    } else {
        None
    }
}

/// The bytes that pairs of hexadecimal digits write, or `None` where one of the pairs is no such pair.
///
/// # Errors
///
/// `AllocError` only if memory runs out.
pub fn parse_bytes<A: Allocator + Copy + Drop>(
    alloc: A,
    digits: &[u8],
) -> Result<Option<Vec<u8, A>>, AllocError>
    ensures { IfOk result (λ o. MatchOption o (IsErr (decode_of digits.now)) (λ bytes. decode_of digits.now ≡ Ok bytes.items)) }
{
    match hex::decode(alloc, digits) {
        Ok(bytes) => Ok(Some(bytes)),
        Err(FromHexError::OutOfMemory) => Err(AllocError),
        Err(_) => Ok(None),
    }
}

/// The number that decimal digits write; `None` where there are none, or it takes more than 64 bits.
pub fn parse_number(digits: &[u8]) -> Option<usize>
    ensures value { IfSome result (λ n. n ≡ digits_value 10 digits.now) }
    ensures found { IsSome result ↔ (IsNumeral 10 digits.now × (digits_value 10 digits.now < 2 ^ 64)) }
{
    if digits.is_empty() {
        return None;
    }
    let mut number = 0usize;
    for digit in digits {
        if !digit.is_ascii_digit() {
            return None;
        }
        number = number
            .checked_mul(10)?
            .checked_add(usize::from(*digit - b'0'))?;
    }
    Some(number)
}
