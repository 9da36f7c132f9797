//! The arguments of `looks` and `classes`.
ghost use Rattle.std.specs.Prelude.{◌≡◌};

use crate::choices::{Color, WordPredicate, color_of, word_predicate_of};
use crate::error::{ShowError, refused, refused_value};
use crate::text::Page;
use rsc_look::{Look, LookMatcher};
use rsc_notation::bytes::{parse_byte, parse_bytes, parse_range};
use rsc_notation::looks::{every_look, look_of, name_of};
use std::alloc::{AllocError, Global};
use strsim::levenshtein;

const EXPECTED_BYTE: &str = "two hexadecimal digits";

const EXPECTED_BYTES: &str = "pairs of hexadecimal digits";

const EXPECTED_RANGE: &str = "a range of bytes, as 61-7a, whose start is at most its end";

const EXPECTED_OPTION: &str =
    "an assertion, or --terminator, --words, --range, --color, --summary once, --hex or --";

const EXPECTED_PREDICATE: &str = "ascii or unicode";

const EXPECTED_COLOR: &str = "auto, always or never";

/// Where a haystack comes from.
#[derive(Drop)]
pub enum Haystack {
    /// No argument gives one.
    Missing,
    /// The bytes of an argument.
    Given(Vec<u8>),
    /// Standard input.
    Standard,
}

/// What the arguments ask for.
#[derive(Drop)]
pub struct Request {
    /// The line terminator.
    pub terminator: u8,
    /// The word predicate.
    pub word_predicate: WordPredicate,
    /// The ranges of bytes.
    pub ranges: Vec<(u8, u8)>,
    /// The assertions, in the order of the arguments.
    pub looks: Vec<Look>,
    /// When to use colour.
    pub color: Color,
    /// Whether the classes are summed up.
    pub summary: bool,
    /// The haystack.
    pub haystack: Haystack,
}

// What the next argument is.
#[derive(Clone, Copy, Drop)]
enum Next {
    Plain,
    Terminator,
    WordPredicate,
    Range,
    Color,
    Hex,
    Text,
    Nothing,
}

impl Request {
    /// The matcher that it asks for.
    pub fn matcher(&self) -> LookMatcher<WordPredicate>
        ensures { result ≡ (self.now.terminator, self.now.word_predicate) }
    {
        let mut matcher = LookMatcher::new(self.word_predicate);
        let _ = matcher.set_line_terminator(self.terminator);
        matcher
    }
}

/// What the arguments after the command ask for.
///
/// # Errors
///
/// [`ShowError::Usage`] at the first argument that is not what was expected.
pub fn parse(alloc: Global, arguments: &[String]) -> Result<Request, ShowError> {
    let mut request = Request {
        terminator: b'\n',
        word_predicate: WordPredicate::Unicode,
        ranges: Vec::new(alloc),
        looks: Vec::new(alloc),
        color: Color::Auto,
        summary: false,
        haystack: Haystack::Missing,
    };
    let mut next = Next::Plain;
    for argument in arguments {
        next = take(alloc, &mut request, next, argument.as_str())?;
    }
    let (option, expected) = match next {
        Next::Plain | Next::Nothing => return Ok(request),
        Next::Terminator => ("--terminator", EXPECTED_BYTE),
        Next::WordPredicate => ("--words", EXPECTED_PREDICATE),
        Next::Range => ("--range", EXPECTED_RANGE),
        Next::Color => ("--color", EXPECTED_COLOR),
        Next::Hex => ("--hex", EXPECTED_BYTES),
        Next::Text => ("--", "one text"),
    };
    Err(refused(alloc, option, expected))
}

// Takes an argument, and says what the next one is.
fn take(
    alloc: Global,
    request: &mut Request,
    next: Next,
    argument: &str,
) -> Result<Next, ShowError> {
    match next {
        Next::Plain => take_plain(alloc, request, argument),
        Next::Terminator => {
            let byte = parse_byte(argument.as_bytes());
            request.terminator = expect(alloc, byte, "--terminator", argument, EXPECTED_BYTE)?;
            Ok(Next::Plain)
        }
        Next::WordPredicate => {
            let named = word_predicate_of(argument);
            request.word_predicate = expect(alloc, named, "--words", argument, EXPECTED_PREDICATE)?;
            Ok(Next::Plain)
        }
        Next::Range => {
            let range = parse_range(argument.as_bytes());
            let range = expect(alloc, range, "--range", argument, EXPECTED_RANGE)?;
            request.ranges.push(range)?;
            Ok(Next::Plain)
        }
        Next::Color => {
            let color = color_of(argument);
            request.color = expect(alloc, color, "--color", argument, EXPECTED_COLOR)?;
            Ok(Next::Plain)
        }
        Next::Hex => {
            request.haystack = Haystack::Given(bytes_of(alloc, argument)?);
            Ok(Next::Nothing)
        }
        Next::Text => {
            request.haystack = Haystack::Given(Vec::from_slice(alloc, argument.as_bytes())?);
            Ok(Next::Nothing)
        }
        Next::Nothing => Err(refused(alloc, argument, "nothing after the haystack")),
    }
}

// What was found, or the refusal of an option's value.
fn expect<T: Drop>(
    alloc: Global,
    found: Option<T>,
    option: &str,
    argument: &str,
    expected: &str,
) -> Result<T, ShowError> {
    match found {
        Some(value) => Ok(value),
        None => Err(refused_value(alloc, option, argument, expected)),
    }
}

// Takes an option's name, or an assertion.
fn take_plain(alloc: Global, request: &mut Request, argument: &str) -> Result<Next, ShowError> {
    if argument == "-" {
        request.haystack = Haystack::Standard;
        return Ok(Next::Nothing);
    }
    if let Some(next) = after_option(argument) {
        return Ok(next);
    }
    if argument == "--summary" && !request.summary {
        request.summary = true;
        return Ok(Next::Plain);
    }
    if argument.starts_with("--") {
        return Err(refused(alloc, argument, EXPECTED_OPTION));
    }
    let Some(look) = look_of(argument.as_bytes()) else {
        let expected = nearest(alloc, argument)?;
        return Err(refused(alloc, argument, expected.as_str()));
    };
    request.looks.push(look)?;
    Ok(Next::Plain)
}

// What comes after an option.
fn after_option(argument: &str) -> Option<Next> {
    if argument == "--terminator" {
        Some(Next::Terminator)
    } else if argument == "--words" {
        Some(Next::WordPredicate)
    } else if argument == "--range" {
        Some(Next::Range)
    } else if argument == "--color" {
        Some(Next::Color)
    } else if argument == "--hex" {
        Some(Next::Hex)
    } else if argument == "--" {
        Some(Next::Text)
    } else {
        None
    }
}

// The bytes that pairs of hexadecimal digits write.
fn bytes_of(alloc: Global, argument: &str) -> Result<Vec<u8>, ShowError> {
    let bytes = parse_bytes(alloc, argument.as_bytes())?;
    expect(alloc, bytes, "--hex", argument, EXPECTED_BYTES)
}

// What was expected instead of a name that no assertion has: the names that begin with it; else the names that the fewest
// edits make of it, if these leave anything of it.
fn nearest(alloc: Global, name: &str) -> Result<String, AllocError> {
    let least = least_distance(alloc, name)?;
    let is_prefix = is_prefix(name);
    let mut page = Page::new(alloc);
    page.push_str("an assertion, as");
    if !is_prefix && least >= name.len() {
        page.push_str(" StartLF");
    } else {
        for look in every_look() {
            let own = name_of(*look);
            let distance = levenshtein(alloc, own, name)?;
            if own.starts_with(name) || (!is_prefix && distance == least) {
                page.push(' ');
                page.push_str(own);
            }
        }
    }
    page.finish()
}

// Whether a name that isn't empty begins the name of an assertion.
fn is_prefix(name: &str) -> bool {
    for look in every_look() {
        if name_of(*look).starts_with(name) {
            return !name.is_empty();
        }
    }
    false
}

fn least_distance(alloc: Global, name: &str) -> Result<usize, AllocError> {
    let mut least = usize::MAX;
    for look in every_look() {
        least = least.min(levenshtein(alloc, name_of(*look), name)?);
    }
    Ok(least)
}
