//! How a command is read: byte by byte, without `?`. What can't be read is remembered, and asked once at the end.
ghost use Rattle.std.specs.Prelude.{◌<◌, ◌≤◌};

use rsc_notation::bytes::parse_number;
use rsc_primitives::PatternID;
use std::alloc::{AllocError, Global};

/// The mark of a token that comes after what was read before, with no byte between.
pub const NONE: u8 = 0;

/// What is left of a command.
///
/// Each token is read with the byte before it, its mark: a space, another separator or a letter that says what it means. If a token
/// can't be read, zero or nothing is read instead, and [`Line::is_read`] tells in the end.
#[derive(Drop)]
pub struct Line<'a> {
    alloc: Global,
    rest: &'a [u8],
    is_bad: bool,
    lacks_memory: bool,
}

impl<'a> Line<'a> {
    /// The whole of a command.
    pub fn new(alloc: Global, text: &'a [u8]) -> Line<'a> {
        Line {
            alloc,
            rest: text,
            is_bad: false,
            lacks_memory: false,
        }
    }

    /// Where what is read lies.
    pub fn alloc(&self) -> Global {
        self.alloc
    }

    /// Makes it a bad command: a token can't be read, or what a call needs of its caller isn't kept.
    pub fn refuse(&mut self) {
        self.is_bad = true;
    }

    /// Tells that memory ran out.
    pub fn lack_memory(&mut self) {
        self.lacks_memory = true;
    }

    /// What was made, unless memory ran out.
    pub fn kept<T: Drop, E: Drop>(&mut self, made: Result<T, E>) -> Option<T> {
        if made.is_err() {
            self.lack_memory();
        }
        made.ok()
    }

    /// Replaces a value by what was made, unless memory ran out.
    pub fn replace<T: Drop, E: Drop>(&mut self, made: Result<T, E>, value: &mut T) {
        if let Some(made) = self.kept(made) {
            *value = made;
        }
    }

    /// What is there; else the command is bad, and something else is the value.
    pub fn found<T: Drop>(&mut self, found: Option<T>, otherwise: T) -> T {
        if found.is_none() {
            self.refuse();
        }
        found.unwrap_or(otherwise)
    }

    /// Adds an item to a list.
    pub fn push<T: Drop>(&mut self, list: &mut Vec<T>, item: T) {
        if list.push(item).is_err() {
            self.lack_memory();
        }
    }

    /// Whether the whole command could be read; an error if memory ran out.
    pub fn is_read(&self) -> Result<bool, AllocError> {
        if self.lacks_memory {
            return Err(AllocError);
        }
        Ok(!self.is_bad && self.rest.is_empty())
    }

    /// The next byte, which stays; 0 at the end.
    pub fn peek(&self) -> u8 {
        match self.rest {
            [first, ..] => *first,
            [] => 0,
        }
    }

    /// Reads the next byte; 0 at the end.
    pub fn letter(&mut self) -> u8 {
        let letter = self.peek();
        let _ = self.eat(&[letter]);
        letter
    }

    /// What is left, to be read twice.
    pub fn again(&self) -> Line<'a> {
        Line::new(self.alloc, self.rest)
    }

    /// Leaves the rest unread.
    pub fn skip(&mut self) {
        self.rest = &[];
    }

    /// Whether this text comes next, which is read then.
    pub fn eat(&mut self, text: &[u8]) -> bool {
        match self.rest.strip_prefix(text) {
            Some(after) => {
                self.rest = after;
                true
            }
            None => false,
        }
    }

    /// Reads this text.
    pub fn expect(&mut self, text: &[u8]) {
        if !self.eat(text) {
            self.refuse();
        }
    }

    /// Reads a mark.
    pub fn mark(&mut self, mark: u8) {
        if mark != NONE {
            self.expect(&[mark]);
        }
    }

    /// The digits, lower-case letters and `_` that come next, if any.
    pub fn token(&mut self) -> &'a [u8] {
        let (token, rest) = split_token(self.rest);
        self.rest = rest;
        token
    }

    /// How many items the list has that comes after a mark; none, and both are read, if it is `empty`.
    pub fn items(&mut self, separator: u8, empty: u8) -> usize {
        let mark = self.peek();
        if self.eat(&[mark, empty]) {
            return 0;
        }
        let mut count = 1usize;
        for byte in self.rest.iter().skip(1) {
            if *byte == separator {
                count = count.saturating_add(1);
            } else if *byte == b' ' || *byte == b';' {
                break;
            }
        }
        count
    }

    /// How many tokens are left, each after a space.
    pub fn tokens(&self) -> usize {
        self.rest.split(|byte| *byte == b' ').skip(1).count()
    }

    /// The decimal number after a mark.
    pub fn number(&mut self, mark: u8) -> usize {
        self.mark(mark);
        let number = parse_number(self.token());
        self.found(number, 0)
    }

    /// The number after a mark, if it is at most another.
    pub fn up_to(&mut self, mark: u8, most: usize) -> usize
        ensures { result ≤ most }
    {
        let number = self.number(mark);
        if number <= most {
            number
        } else {
            self.refuse();
            0
        }
    }

    /// A number of 32 bits after a mark.
    pub fn number_u32(&mut self, mark: u8) -> u32 {
        self.up_to(mark, 4294967295) as u32
    }

    /// The number of a pattern after a mark.
    pub fn pattern(&mut self, mark: u8) -> PatternID {
        PatternID::must(self.up_to(mark, 2147483646))
    }

    /// `T` or `F` after a mark.
    pub fn truth(&mut self, mark: u8) -> bool {
        self.mark(mark);
        let holds = self.eat(b"T");
        if !holds {
            self.expect(b"F");
        }
        holds
    }

    /// The byte of two hexadecimal digits after a mark.
    pub fn byte(&mut self, mark: u8) -> u8 {
        self.mark(mark);
        let high = self.digit();
        16 * high + self.digit()
    }

    // The value of the next hexadecimal digit.
    fn digit(&mut self) -> u8
        ensures { result < 16 }
    {
        let digit = self.peek();
        if !self.has_digit() {
            self.refuse();
        }
        let _ = self.eat(&[digit]);
        match digit {
            b'0'..=b'9' => digit - b'0',
            b'a'..=b'f' => digit - b'a' + 10,
            _ => 0,
        }
    }

    /// Whether a hexadecimal digit comes next.
    pub fn has_digit(&self) -> bool {
        matches!(self.peek(), b'0'..=b'9' | b'a'..=b'f')
    }

    /// Reads a mark and `-`, which stands for no bytes, or finds hexadecimal digits after the mark.
    pub fn begin_bytes(&mut self, mark: u8) {
        self.mark(mark);
        if !self.eat(b"-") && !self.has_digit() {
            self.refuse();
        }
    }

    /// The bytes after a mark: `-` for none, or hexadecimal digits.
    pub fn bytes(&mut self, mark: u8) -> Vec<u8> {
        self.begin_bytes(mark);
        self.digits()
    }

    /// The bytes of the hexadecimal digits that come next, if any.
    pub fn digits(&mut self) -> Vec<u8> {
        let mut bytes = Vec::new(self.alloc);
        for _ in 0..self.rest.len() {
            if !self.has_digit() {
                break;
            }
            let byte = self.byte(NONE);
            self.push(&mut bytes, byte);
        }
        bytes
    }

    /// The text that bytes encode.
    pub fn text_of(&mut self, bytes: Vec<u8>) -> String {
        let text = String::from_utf8(bytes).ok();
        self.found(text, String::new(self.alloc))
    }

    /// Bytes after a mark that are text.
    pub fn text(&mut self, mark: u8) -> String {
        let bytes = self.bytes(mark);
        self.text_of(bytes)
    }
}

// The digits, lower-case letters and `_` that a text begins with, and what is after them.
fn split_token(text: &[u8]) -> (&[u8], &[u8]) {
    for at in 0..text.len() {
        if !matches!(text[at], b'0'..=b'9' | b'a'..=b'z' | b'_') {
            return text.split_at(at);
        }
    }
    (text, &[])
}

/// Answers the command of a name; the value is whether there is one.
#[macro_export]
macro_rules! commands {
    ($name:expr;) => { false };
    ($name:expr; $text:literal => $answered:expr, $($rest:tt)*) => {
        if $name == $text.as_slice() {
            $answered;
            true
        } else {
            $crate::commands! { $name; $($rest)* }
        }
    };
}

/// The items of a list, each read after its mark as the expression reads it.
#[macro_export]
macro_rules! list {
    ($line:expr, $separator:expr, $empty:expr, $mark:pat => $item:expr) => {{
        let mut list = Vec::new($line.alloc());
        for _ in 0..$line.items($separator, $empty) {
            let $mark = $line.peek();
            let item = $item;
            $line.push(&mut list, item);
        }
        list
    }};
}
