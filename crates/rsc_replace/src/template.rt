//! Templates: texts in which `$0`, `$1`, `$name` and `${name}` stand for groups, and `$$` for a dollar sign.
ghost use Rattle.std.specs.Prelude.{◌≡◌, ◌<◌, ◌≤◌, ◌++◌, ◌+◌, ◌==◌, ℕ, List, IsTrue, IfOk, IfSome, OnOk, OnErr, drop, length, option_map, slice_index};
ghost use Rattle.std.specs.List.{prefix_len};
ghost use Rattle.rsc_primitives.specs.Utf8.{is_word_byte};
ghost use Rattle.rsc_replace.specs.Templates.{bare_name, braced_name, bytes_of, count_before, filled, reference, span_called};

use rsc_captures::Captures;
use rsc_primitives::utf8::is_word_byte;
use rsc_search::Span;
use std::alloc::{AllocError, Global};

/// Appends what a template stands for, given the captures of a match in a text.
///
/// `$name` takes the longest run of word bytes (digits, letters, `_`) as the name, `${name}` all bytes before the first `}`. A name that is a number, such as
/// `1` in `$1`, stands for the group with that number, and any other for the group with that name in the pattern that matched; `$0` is the whole match. A
/// group that took no part stands for nothing, and so does one that isn't there. `$$` stands for a dollar sign. A `$` that begins no reference stands for
/// itself: at the end, before another byte, or before a `{` without a `}`, or with bytes between them that aren't UTF-8.
///
/// # Errors
///
/// Out of memory. Then a first part of it may have been appended.
///
/// # Examples
///
/// ```
/// // (?P<key>[a-z]+)=([0-9]+)?
/// let builder = Builder::new(rt.alloc());
/// let letters = builder.plus(builder.range(b'a', b'z'))?;
/// let key = builder.group(Some("key"), letters)?;
/// let digits = builder.plus(builder.range(b'0', b'9'))?;
/// let value = builder.optional(builder.group(None, digits)?)?;
/// let pair = builder.concat(vec![in rt.alloc(); key, builder.literal(b"=")?, value]?)?;
/// let program = builder.build(AsciiWord, true, pair)?;
/// let mut captures = program.captures(rt.alloc())?;
/// let text = b"- ab=12 -";
/// let found = find(rt.alloc(), &program, &Input::new(text), &mut captures)?;
/// assert!(rt; found.is_some());
/// let mut out = Vec::new(rt.alloc());
/// expand(&mut out, text, &captures, b"$2 ${key}s $$1 $9;$")?;
/// assert!(rt; out.as_slice() == b"12 abs $1 ;$".as_slice());
/// ```
pub fn expand(
    out: &mut Vec<u8>,
    text: &[u8],
    captures: &Captures,
    template: &[u8],
) -> Result<(), AllocError>
    ensures filled { OnOk result (out.new.items ≡ out.old.items ++ filled text.now captures.now template.now) }
    ensures begun { OnErr result ((done : List ℕ) × (rest : List ℕ) × (out.new.items ≡ out.old.items ++ done)
        × (filled text.now captures.now template.now ≡ done ++ rest)) }
{
    let mut at = 0;
    while at < template.len() {
        at += append_piece(out, text, captures, after(template, at))?;
    }
    Ok(())
}

// Appends what the first bytes of a template stand for, and returns how many bytes these are.
fn append_piece(
    out: &mut Vec<u8>,
    text: &[u8],
    captures: &Captures,
    template: &[u8],
) -> Result<usize, AllocError>
    requires { 0 < length template.now }
    ensures some { IfOk result (λ count. 0 < count) }
    ensures within { IfOk result (λ count. count ≤ length template.now) }
    ensures piece { IfOk result (λ count. (piece : List ℕ) × (out.new.items ≡ out.old.items ++ piece)
        × (filled text.now captures.now template.now ≡ piece ++ filled text.now captures.now (drop count template.now))) }
    ensures kept { OnErr result (out.new.items ≡ out.old.items) }
{
    let count = count_before(b'$', template);
    if 0 < count {
        out.extend_from_slice(&template[..count])?;
        return Ok(count);
    }
    let rest = after(template, 1);
    if begins_with(rest, b'$') {
        out.push(b'$')?;
        return Ok(2);
    }
    match reference(rest) {
        None => {
            out.push(b'$')?;
            Ok(1)
        }
        Some((name, count)) => {
            append_span(out, text, span_called(captures, name))?;
            Ok(1 + count)
        }
    }
}

// The name of the group that follows a `$`, and how many bytes the reference has.
fn reference(rest: &[u8]) -> Option<(&str, usize)>
    ensures value { option_map (λ found. (found.0.now, found.1)) result ≡ reference rest.now }
    ensures within { IfSome result (λ found. found.1 ≤ length rest.now) }
{
    if begins_with(rest, b'{') {
        return braced_name(after(rest, 1));
    }
    bare_name(rest)
}

// After `${`: the name before the first `}`, and how many bytes it has with both braces.
fn braced_name(rest: &[u8]) -> Option<(&str, usize)>
    ensures value { option_map (λ found. (found.0.now, found.1)) result ≡ braced_name rest.now }
    ensures within { IfSome result (λ found. found.1 ≤ 1 + length rest.now) }
{
    let count = count_before(b'}', rest);
    if count == rest.len() {
        return None;
    }
    match str::from_utf8(&rest[..count]) {
        Ok(name) => Some((name, count + 2)),
        Err(_) => None,
    }
}

// The longest run of word bytes, and how many these are.
fn bare_name(rest: &[u8]) -> Option<(&str, usize)>
    ensures value { option_map (λ found. (found.0.now, found.1)) result ≡ bare_name rest.now }
    ensures within { IfSome result (λ found. found.1 ≤ length rest.now) }
{
    let count = word_count(rest);
    if count == 0 {
        return None;
    }
    match str::from_utf8(&rest[..count]) {
        Ok(name) => Some((name, count)),
        Err(_) => None,
    }
}

// The span of the group that a name stands for.
fn span_called(captures: &Captures, name: &str) -> Option<Span>
    ensures { result ≡ span_called captures.now name.now }
{
    match name.parse::<usize>() {
        Ok(number) => captures.get_group(number),
        Err(_) => captures.get_group_by_name(name),
    }
}

// Appends the bytes of a group, if it took part.
fn append_span(out: &mut Vec<u8>, text: &[u8], span: Option<Span>) -> Result<(), AllocError>
    ensures appended { OnOk result (out.new.items ≡ out.old.items ++ bytes_of text.now span) }
    ensures kept { OnErr result (out.new.items ≡ out.old.items) }
{
    if let Some(span) = span {
        if let Some(bytes) = span.get(text) {
            out.extend_from_slice(bytes)?;
        }
    }
    Ok(())
}

// Whether the first byte is this one, which isn't 0.
fn begins_with(bytes: &[u8], first: u8) -> bool
    requires { 0 < first }
    ensures value { result ≡ (slice_index bytes.now 0 == first) }
    ensures some { IsTrue result → 0 < length bytes.now }
{
    !bytes.is_empty() && bytes[0] == first
}

// How many bytes stand before the first one of a value.
fn count_before(byte: u8, bytes: &[u8]) -> usize
    ensures { result ≡ count_before byte bytes.now }
{
    for at in 0..bytes.len() {
        if bytes[at] == byte {
            return at;
        }
    }
    bytes.len()
}

// How many word bytes stand in front.
fn word_count(bytes: &[u8]) -> usize
    ensures { result ≡ prefix_len is_word_byte bytes.now }
{
    for at in 0..bytes.len() {
        if !is_word_byte(bytes[at]) {
            return at;
        }
    }
    bytes.len()
}

// What follows the first bytes.
fn after(bytes: &[u8], count: usize) -> &[u8]
    requires { count ≤ length bytes.now }
    ensures { result.now ≡ drop count bytes.now }
{
    &bytes[count..]
}
