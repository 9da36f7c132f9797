//! Bytes shown as text for people to read, whatever they are.
ghost use Rattle.std.specs.Prelude.{◌≡◌, ℕ, ◌+◌, ◌≤◌, ◌<◌, ◌++◌, IfOk, MatchOption, Some, length, flat_map, take, string_bytes};
ghost use Rattle.std.specs.Char.{len_utf8};
ghost use Rattle.std.specs.Fmt.{WritesOnOk};
ghost use Rattle.rsc_primitives.specs.Escapes.{byte_text, step_text, haystack_text, EncodesOnlyAscii};
ghost use Rattle.rsc_primitives.specs.Utf8.{BeginsAt};

use crate::tables::{BYTE_LENGTHS, BYTE_WIDTH, STEP_LENGTHS, STEP_TEXTS, STEP_WIDTH, byte_texts};
use crate::utf8::decode;
use std::alloc::{AllocError, Allocator};
use std::fmt;

// How much text is put together before it is written.
const PIECE_SIZE: usize = 64;

/// A byte that shows itself as a character if it prints and is no quote or `\`, else as an escape. A space is shown in quotes.
#[derive(Clone, Copy)]
pub struct DebugByte(pub u8);

impl fmt::Debug for DebugByte {
    ghost debug_output = { λ byte. Some (byte_text byte.0) };

    fn fmt<W: fmt::Write>(&self, f: &mut fmt::Formatter<W>) -> fmt::Result {
        f.write_str(text_of_byte(self.0))
    }
}

/// Bytes that show themselves as quoted text: the characters that they encode, escaped as in a string, and an escape for each other byte.
#[derive(Drop)]
pub struct DebugHaystack<'a>(pub &'a [u8]);

impl<'a> fmt::Debug for DebugHaystack<'a> {
    fn fmt<W: fmt::Write>(&self, f: &mut fmt::Formatter<W>) -> fmt::Result {
        write_haystack(self.0, f)
    }
}

/// The text that [`DebugByte`] shows. The original lacks it.
///
/// # Errors
///
/// `AllocError` only if memory runs out.
///
/// # Examples
///
/// ```
/// assert!(rt; escape::byte_text(rt.alloc(), b'a')?.as_str() == "a");
/// assert!(rt; escape::byte_text(rt.alloc(), b' ')?.as_str() == "' '");
/// assert!(rt; escape::byte_text(rt.alloc(), 0xFF)?.as_str() == "\\xFF");
/// ```
pub fn byte_text<A: Allocator + Drop>(alloc: A, byte: u8) -> Result<String<A>, AllocError>
    ensures { IfOk result (λ text. string_bytes text ≡ byte_text byte) }
{
    String::from_str(alloc, text_of_byte(byte))
}

/// The text that [`DebugHaystack`] shows. The original lacks it.
///
/// The contract speaks of bytes that encode no character past ASCII; such a character is shown as by std's `escape_debug`.
///
/// # Errors
///
/// `AllocError` only if memory runs out.
///
/// # Examples
///
/// ```
/// assert!(rt; escape::haystack_text(rt.alloc(), b"a\xFF\n")?.as_str() == "\"a\\xff\\n\"");
/// ```
pub fn haystack_text<A: Allocator + Drop>(
    alloc: A,
    haystack: &[u8],
) -> Result<String<A>, AllocError>
    ensures { EncodesOnlyAscii haystack.now → IfOk result (λ text. string_bytes text ≡ haystack_text haystack.now) }
{
    let mut f = fmt::Formatter::new(String::new(alloc));
    match write_haystack(haystack, &mut f) {
        Ok(()) => Ok(f.into_inner()),
        Err(_) => Err(AllocError),
    }
}

#[inline(always)]
fn text_of_byte(byte: u8) -> &'static str
    ensures { result.now ≡ byte_text byte }
{
    let at = BYTE_WIDTH * usize::from(byte);
    &byte_texts()[at..at + usize::from(BYTE_LENGTHS[usize::from(byte)])]
}

fn write_haystack<W: fmt::Write>(haystack: &[u8], f: &mut fmt::Formatter<W>) -> fmt::Result
    ensures { EncodesOnlyAscii haystack.now → WritesOnOk W.write_str_gives f.old result (haystack_text haystack.now) f.new }
{
    f.write_str("\"")?;
    write_steps(haystack, f)?;
    f.write_str("\"")
}

fn write_steps<W: fmt::Write>(haystack: &[u8], f: &mut fmt::Formatter<W>) -> fmt::Result
    ensures { EncodesOnlyAscii haystack.now → WritesOnOk W.write_str_gives f.old result (flat_map step_text haystack.now) f.new }
{
    let mut piece = [0u8; PIECE_SIZE];
    let mut len = 0usize;
    let mut rest = haystack;
    'steps: while let Some((byte, after)) = rest.split_first() {
        if len > PIECE_SIZE - STEP_WIDTH {
            write_piece(&piece[..len], f)?;
            len = 0;
        }
        match past_ascii(rest) {
            None => {
                len += put_byte(&mut piece, len, *byte);
                rest = after;
            }
            Some(c) => {
                write_piece(&piece[..len], f)?;
                len = 0;
                write_past_ascii(c, f)?;
                rest = &rest[c.len_utf8()..];
            }
        }
    }
    write_piece(&piece[..len], f)
}

// Writes whole characters, so no error comes of the test for UTF-8.
fn write_piece<W: fmt::Write>(piece: &[u8], f: &mut fmt::Formatter<W>) -> fmt::Result
    ensures { WritesOnOk W.write_str_gives f.old result piece.now f.new }
{
    match str::from_utf8(piece) {
        Ok(text) => f.write_str(text),
        Err(_) => Err(fmt::Error),
    }
}

// Puts the text of a byte that is ASCII or part of no encoding after the first `len` bytes of a piece, and answers its length.
#[inline(always)]
fn put_byte(piece: &mut [u8; PIECE_SIZE], len: usize, byte: u8) -> usize
    requires { len + STEP_WIDTH ≤ PIECE_SIZE }
    ensures most { result ≤ STEP_WIDTH }
    ensures text { take (len + result) piece.new ≡ take len piece.old ++ step_text byte }
{
    let at = STEP_WIDTH * usize::from(byte);
    piece[len..len + STEP_WIDTH].copy_from_slice(&STEP_TEXTS[at..at + STEP_WIDTH]);
    usize::from(STEP_LENGTHS[usize::from(byte)])
}

// The character past ASCII that begins the bytes, if one does.
#[inline(always)]
fn past_ascii(bytes: &[u8]) -> Option<char>
    ensures { MatchOption result ((c : ℕ) → BeginsAt bytes.now 0 c → c < 128) (λ c. BeginsAt bytes.now 0 c × (128 ≤ c) × (len_utf8 c ≤ length bytes.now)) }
{
    match decode(bytes) {
        Some(Ok(c)) if !c.is_ascii() => Some(c),
        Some(Ok(_)) => None,
        Some(Err(_)) => None,
        None => None,
    }
}

fn write_past_ascii<W: fmt::Write>(c: char, f: &mut fmt::Formatter<W>) -> fmt::Result {
    for escaped in c.escape_debug() {
        f.write_char(escaped)?;
    }
    Ok(())
}
