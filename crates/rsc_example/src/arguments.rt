//! The arguments.

use crate::error::{GrepError, usage};
use std::alloc::Global;

const USAGE: &str =
    "expected [-cnovw] [-r TEMPLATE] WORDS|-e WORDS|-p CALLS [FILE..]; --help says more";

/// What the arguments ask for.
#[derive(Drop)]
pub struct Request {
    /// The words, each on a line of its text.
    pub words: Vec<String>,
    /// The patterns, as calls.
    pub calls: Vec<String>,
    /// What stands for each match where lines are printed.
    pub template: Option<String>,
    /// The inputs: `-` is standard input.
    pub files: Vec<String>,
    /// Whether no word character stands beside a match.
    pub whole_words: bool,
    /// Whether the selected lines are counted, and not printed.
    pub counts: bool,
    /// Whether the matches are printed, each on a line, and not the lines around them.
    pub only_matches: bool,
    /// Whether a line's number stands before it.
    pub numbers: bool,
    /// Whether the lines without a match are selected.
    pub inverted: bool,
    /// Whether the program is to explain itself.
    pub help: bool,
}

// What the next argument is.
#[derive(Clone, Copy, Drop)]
enum Next {
    Any,
    Words,
    Calls,
    Template,
    File,
}

/// What the arguments after the program's name ask for.
///
/// # Errors
///
/// [`GrepError::Usage`] at the first argument that is not what was expected.
pub fn parse(alloc: Global, arguments: &[String]) -> Result<Request, GrepError> {
    let mut request = Request {
        words: Vec::new(alloc),
        calls: Vec::new(alloc),
        template: None,
        files: Vec::new(alloc),
        whole_words: false,
        counts: false,
        only_matches: false,
        numbers: false,
        inverted: false,
        help: false,
    };
    let mut next = Next::Any;
    for argument in arguments {
        next = take(alloc, &mut request, next, argument.as_str())?;
    }
    match next {
        Next::Any | Next::File => {}
        Next::Words | Next::Calls | Next::Template => return Err(usage(alloc, USAGE)),
    }
    if request.words.is_empty() && request.calls.is_empty() && !request.help {
        if request.files.is_empty() {
            return Err(usage(alloc, USAGE));
        }
        let words = request.files.remove(0);
        request.words.push(words)?;
    }
    if request.files.is_empty() {
        request.files.push(String::from_str(alloc, "-")?)?;
    }
    Ok(request)
}

// Takes an argument, and says what the next one is.
fn take(
    alloc: Global,
    request: &mut Request,
    next: Next,
    argument: &str,
) -> Result<Next, GrepError> {
    let is_option = argument.len() > 1 && argument.starts_with('-');
    match next {
        Next::Any if argument == "--" => return Ok(Next::File),
        Next::Any if argument == "--help" => request.help = true,
        Next::Any if is_option => return take_letters(alloc, request, argument),
        Next::Any => request.files.push(String::from_str(alloc, argument)?)?,
        Next::File => {
            request.files.push(String::from_str(alloc, argument)?)?;
            return Ok(Next::File);
        }
        Next::Words => request.words.push(String::from_str(alloc, argument)?)?,
        Next::Calls => request.calls.push(String::from_str(alloc, argument)?)?,
        Next::Template => request.template = Some(String::from_str(alloc, argument)?),
    }
    Ok(Next::Any)
}

// Takes the letters of an argument, of which the last may ask for a value.
fn take_letters(alloc: Global, request: &mut Request, argument: &str) -> Result<Next, GrepError> {
    let mut next = Next::Any;
    for letter in argument.as_bytes().iter().skip(1) {
        if !matches!(next, Next::Any) {
            return Err(usage(alloc, USAGE));
        }
        match *letter {
            b'c' => request.counts = true,
            b'n' => request.numbers = true,
            b'o' => request.only_matches = true,
            b'v' => request.inverted = true,
            b'w' => request.whole_words = true,
            b'e' => next = Next::Words,
            b'p' => next = Next::Calls,
            b'r' => next = Next::Template,
            _ => return Err(usage(alloc, USAGE)),
        }
    }
    Ok(next)
}
