//! How an answer is written. That memory ran out is remembered, and asked once at the end.

use std::alloc::{AllocError, Global};
use std::cmp::Ordering;
use std::fmt;
use std::fmt::Write;

/// A text that is put together of tokens, with a separator between each two.
#[derive(Drop)]
pub struct Answer {
    text: String,
    separator: &'static str,
    is_begun: bool,
    lacks_memory: bool,
}

impl Answer {
    /// No token yet, with spaces between.
    pub fn new(alloc: Global) -> Answer {
        Answer {
            text: String::new(alloc),
            separator: " ",
            is_begun: false,
            lacks_memory: false,
        }
    }

    /// Begins a list with its own separator as the next token; returns the separator around it, for [`Answer::close`].
    pub fn open(&mut self, separator: &'static str) -> &'static str {
        self.token("");
        self.is_begun = false;
        std::mem::replace(&mut self.separator, separator)
    }

    /// Ends a list, which is `.` if it has no token.
    pub fn close(&mut self, outer: &'static str) {
        if !self.is_begun {
            self.token(".");
        }
        self.separator = outer;
    }

    /// Adds a text.
    pub fn token(&mut self, token: &str) {
        let separator = self.separate();
        if self.text.push_str(separator).is_err() || self.text.push_str(token).is_err() {
            self.lacks_memory = true;
        }
    }

    /// Adds what is displayed.
    pub fn shown<T: fmt::Display + Drop>(&mut self, value: T) {
        let separator = self.separate();
        if write!(self.text, "{separator}{value}").is_err() {
            self.lacks_memory = true;
        }
    }

    /// Adds a `Debug` text.
    pub fn debug<T: fmt::Debug>(&mut self, value: &T) {
        let separator = self.separate();
        if write!(self.text, "{separator}{value:?}").is_err() {
            self.lacks_memory = true;
        }
    }

    // The separator before the next token.
    fn separate(&mut self) -> &'static str {
        let is_begun = std::mem::replace(&mut self.is_begun, true);
        if is_begun { self.separator } else { "" }
    }

    /// Adds a number, or `_`.
    pub fn optional(&mut self, number: Option<usize>) {
        match number {
            Some(number) => self.shown(number),
            None => self.token("_"),
        }
    }

    /// Adds `T` or `F`.
    pub fn truth(&mut self, holds: bool) {
        self.token(if holds { "T" } else { "F" });
    }

    /// Adds a byte as two hexadecimal digits.
    pub fn byte(&mut self, byte: u8) {
        let separator = self.separate();
        if write!(self.text, "{separator}{byte:02x}").is_err() {
            self.lacks_memory = true;
        }
    }

    /// Adds bytes as hexadecimal digits after a token, without gaps.
    pub fn digits(&mut self, before: &str, bytes: &[u8]) {
        let outer = self.open("");
        self.token(before);
        for byte in bytes {
            self.byte(*byte);
        }
        self.close(outer);
    }

    /// Adds bytes as hexadecimal digits; `-` for none.
    pub fn bytes(&mut self, bytes: &[u8]) {
        self.digits(if bytes.is_empty() { "-" } else { "" }, bytes);
    }

    /// Adds a text as `=` and the digits of its bytes, or `_`.
    pub fn name(&mut self, name: Option<&str>) {
        self.digits(
            if name.is_some() { "=" } else { "_" },
            name.unwrap_or("").as_bytes(),
        );
    }

    /// Adds a size hint: one number if both bounds are it, else both with `~` between.
    pub fn hint(&mut self, hint: (usize, Option<usize>)) {
        let outer = self.open("~");
        self.shown(hint.0);
        if hint.1 != Some(hint.0) {
            self.optional(hint.1);
        }
        self.close(outer);
    }

    /// Adds the order of two values, which has to agree with their equality.
    pub fn order<T: Ord>(&mut self, a: &T, b: &T) {
        let order = a.cmp(b);
        let agrees = (a == b) == (order == Ordering::Equal) && a.partial_cmp(b) == Some(order);
        self.token(match order {
            _ if !agrees => "order and equality disagree",
            Ordering::Less => "lt",
            Ordering::Equal => "eq",
            Ordering::Greater => "gt",
        });
    }

    /// The text, `.` without a token; an error if memory ran out.
    pub fn finish(mut self) -> Result<String, AllocError> {
        self.close("");
        if self.lacks_memory {
            return Err(AllocError);
        }
        Ok(self.text)
    }
}

/// Adds tokens, each by the method that is named; after a separator: a list of them.
#[macro_export]
macro_rules! tokens {
    ($answer:expr; $($method:ident($value:expr)),*) => {{ $($answer.$method($value);)* }};
    ($answer:expr, $separator:expr; $($method:ident($value:expr)),*) => {{
        let outer = $answer.open($separator);
        $($answer.$method($value);)*
        $answer.close(outer);
    }};
}

/// Adds the list of the items of an iterator, each as the expression adds it: what `next` returns up to `None`, and, after
/// `again`, what it returns in three more calls.
#[macro_export]
macro_rules! items {
    ($answer:expr, $separator:expr, $iterator:expr, $item:pat => $added:expr) => {{
        let mut iterator = $iterator;
        let outer = $answer.open($separator);
        for _ in 0..u64::MAX {
            match iterator.next() {
                Some($item) => $added,
                None => break,
            }
        }
        for _ in 0..3 {
            if let Some($item) = iterator.next() {
                $answer.token("again");
                $added;
            }
        }
        $answer.close(outer);
    }};
}

/// Adds the list of the size hints of an iterator before each `next` up to `None`.
#[macro_export]
macro_rules! hints {
    ($answer:expr, $iterator:expr) => {{
        let mut iterator = $iterator;
        let outer = $answer.open(":");
        for _ in 0..u64::MAX {
            $answer.hint(iterator.size_hint());
            if iterator.next().is_none() {
                break;
            }
        }
        $answer.close(outer);
    }};
}
