//! The commands of `NonMaxUsize`, UTF-8, escaped texts and the three types of small indices.

use crate::answer::Answer;
use crate::line::Line;
use crate::{commands, tokens};
use rsc_primitives::escape::{DebugByte, DebugHaystack};
use rsc_primitives::{NonMaxUsize, PatternID, SmallIndex, StateID, utf8};
use std::fmt;

pub(crate) fn answer(name: &[u8], line: &mut Line<'_>, answer: &mut Answer) -> bool {
    answer_bytes(name, line, answer) || answer_indices(name, line, answer)
}

fn answer_bytes(name: &[u8], line: &mut Line<'_>, answer: &mut Answer) -> bool {
    commands! { name;
        b"nonmax" => non_max(line, answer),
        b"nonmax_cmp" => non_max_cmp(line, answer),
        b"decode" => push_decoded(answer, utf8::decode(line.bytes(b' ').as_slice())),
        b"decode_last" => push_decoded(answer, utf8::decode_last(line.bytes(b' ').as_slice())),
        b"is_boundary" => { let text = line.bytes(b' '); answer.truth(utf8::is_boundary(text.as_slice(), line.number(b' '))) },
        b"char_boundaries" => char_boundaries(line, answer),
        b"is_word_byte" => answer.truth(utf8::is_word_byte(line.byte(b' '))),
        b"byte_text" => answer.debug(&DebugByte(line.byte(b' '))),
        b"haystack_text" => answer.debug(&DebugHaystack(line.bytes(b' ').as_slice())),
    }
}

fn answer_indices(name: &[u8], line: &mut Line<'_>, answer: &mut Answer) -> bool {
    commands! { name;
        b"idx_consts" => constants(line, answer),
        b"idx_new" => new(line, answer),
        b"idx_from" => from_width(line, answer),
        b"idx_from_le" => from_le(line, answer),
        b"idx_get" => get(line, answer),
        b"idx_iter" => iter(line, answer),
        b"idx_cmp" => cmp(line, answer),
        b"idx_err_eq" => refusal_eq(line, answer),
    }
}

fn non_max(line: &mut Line<'_>, answer: &mut Answer) {
    match NonMaxUsize::new(line.number(b' ')) {
        Some(value) => tokens! { answer; shown(value.get()), debug(&value) },
        None => answer.token("_"),
    }
}

fn non_max_cmp(line: &mut Line<'_>, answer: &mut Answer) {
    match (
        NonMaxUsize::new(line.number(b' ')),
        NonMaxUsize::new(line.number(b' ')),
    ) {
        (Some(a), Some(b)) => answer.order(&a, &b),
        _ => line.refuse(),
    }
}

fn push_decoded(answer: &mut Answer, decoded: Option<Result<char, u8>>) {
    match decoded {
        None => answer.token("_"),
        Some(Ok(c)) => tokens! { answer; token("ok"), shown(c as u32) },
        Some(Err(byte)) => tokens! { answer; token("err"), byte(byte) },
    }
}

fn char_boundaries(line: &mut Line<'_>, answer: &mut Answer) {
    let haystack = line.bytes(b' ');
    let outer = answer.open("");
    for at in 0..=haystack.len().saturating_add(1) {
        answer.truth(utf8::is_boundary(haystack.as_slice(), at));
    }
    answer.close(outer);
}

#[derive(Clone, Copy)]
enum Kind {
    Small,
    Pattern,
    State,
}

fn read_kind(line: &mut Line<'_>) -> Kind {
    if line.eat(b" small") {
        Kind::Small
    } else if line.eat(b" pattern") {
        Kind::Pattern
    } else {
        line.expect(b" state");
        Kind::State
    }
}

// What is asked of the type of a kind.
macro_rules! by_kind {
    ($kind:expr, $asked:ident $(, $argument:tt)*) => {
        match $kind {
            Kind::Small => ask!($asked SmallIndex $(, $argument)*),
            Kind::Pattern => ask!($asked PatternID $(, $argument)*),
            Kind::State => ask!($asked StateID $(, $argument)*),
        }
    };
}

// What is asked of a type.
macro_rules! ask {
    // Adds `ok` and the number, or `err`, the refused number and the refusal's text.
    (tried $index:ident, $by:ident, $answer:expr, $number:expr) => {
        match $index::$by($number) {
            Ok(index) => accepted($answer, index.as_usize()),
            Err(error) => refused($answer, error.attempted(), error),
        }
    };
    (constants $index:ident, $answer:ident) => {
        tokens! { $answer; shown($index::MAX.as_usize()), shown($index::LIMIT), shown($index::ZERO.as_usize()),
            shown($index::SIZE), shown($index::default().as_usize()) }
    };
    (get $index:ident, $answer:ident, $number:ident) => {{
        let index = $index::must($number);
        tokens! { $answer; shown(index.as_usize()), shown(index.as_u64()), shown(index.as_u32()), shown(index.as_i32()),
            shown(index.one_more()), bytes(&index.to_le_bytes()), debug(&index) }
    }};
    (steps $index:ident, $answer:expr, $len:expr, $count:expr) => {{
        let mut indices = $index::iter($len);
        for _ in 0..$count {
            $answer.optional(indices.next().map(|index| index.as_usize()));
        }
    }};
    (cmp $index:ident, $answer:expr, $a:expr, $b:expr) => {
        $answer.order(&$index::must($a), &$index::must($b))
    };
    (refusal_eq $index:ident, $line:expr, $answer:expr, $a:expr, $b:expr) => {
        match ($index::new($a), $index::new($b)) {
            (Err(a), Err(b)) => $answer.truth(a == b),
            _ => $line.refuse(),
        }
    };
}

fn accepted(answer: &mut Answer, number: usize) {
    tokens! { answer; token("ok"), shown(number) }
}

fn refused<E: fmt::Display + Drop>(answer: &mut Answer, attempted: u64, error: E) {
    tokens! { answer; token("err"), shown(attempted), shown(error) }
}

fn constants(line: &mut Line<'_>, answer: &mut Answer) {
    by_kind!(read_kind(line), constants, answer)
}

fn new(line: &mut Line<'_>, answer: &mut Answer) {
    let (kind, number) = (read_kind(line), line.number(b' '));
    by_kind!(kind, tried, new, answer, number)
}

fn from_width(line: &mut Line<'_>, answer: &mut Answer) {
    let kind = read_kind(line);
    if line.eat(b" u8") {
        from_u8(answer, kind, line.up_to(b' ', 255) as u8);
    } else if line.eat(b" u16") {
        from_u16(answer, kind, line.up_to(b' ', 65535) as u16);
    } else if line.eat(b" u32") {
        from_u32(answer, kind, line.number_u32(b' '));
    } else if line.eat(b" u64") {
        from_u64(answer, kind, line.number(b' ') as u64);
    } else {
        line.expect(b" usize");
        from_usize(answer, kind, line.number(b' '));
    }
}

fn from_u8(answer: &mut Answer, kind: Kind, number: u8) {
    match kind {
        Kind::Small => accepted(answer, SmallIndex::from(number).as_usize()),
        Kind::Pattern => accepted(answer, PatternID::from(number).as_usize()),
        Kind::State => accepted(answer, StateID::from(number).as_usize()),
    }
}

fn from_u16(answer: &mut Answer, kind: Kind, number: u16) {
    by_kind!(kind, tried, try_from, answer, number)
}

fn from_u32(answer: &mut Answer, kind: Kind, number: u32) {
    by_kind!(kind, tried, try_from, answer, number)
}

fn from_u64(answer: &mut Answer, kind: Kind, number: u64) {
    by_kind!(kind, tried, try_from, answer, number)
}

fn from_usize(answer: &mut Answer, kind: Kind, number: usize) {
    by_kind!(kind, tried, try_from, answer, number)
}

fn from_le(line: &mut Line<'_>, answer: &mut Answer) {
    let kind = read_kind(line);
    match line.bytes(b' ').as_slice() {
        [a, b, c, d] => {
            let four = [*a, *b, *c, *d];
            by_kind!(kind, tried, from_le_bytes, answer, four)
        }
        _ => line.refuse(),
    }
}

fn get(line: &mut Line<'_>, answer: &mut Answer) {
    let kind = read_kind(line);
    let number = line.up_to(b' ', 2147483646);
    by_kind!(kind, get, answer, number)
}

fn iter(line: &mut Line<'_>, answer: &mut Answer) {
    let kind = read_kind(line);
    let len = line.up_to(b' ', 2147483647);
    let count = line.number(b' ');
    let outer = answer.open(",");
    by_kind!(kind, steps, answer, len, count);
    answer.close(outer);
}

fn cmp(line: &mut Line<'_>, answer: &mut Answer) {
    let kind = read_kind(line);
    let (a, b) = (line.up_to(b' ', 2147483646), line.up_to(b' ', 2147483646));
    by_kind!(kind, cmp, answer, a, b)
}

fn refusal_eq(line: &mut Line<'_>, answer: &mut Answer) {
    let (kind, a, b) = (read_kind(line), line.number(b' '), line.number(b' '));
    by_kind!(kind, refusal_eq, line, answer, a, b)
}
