//! The run: each line of the input is answered by a line of the output.

use crate::command::Command;
use crate::error::BenchError;
use crate::input::read_all;
use crate::tokens::tokens_of;
use crate::{groups, looks, ranges};
use std::alloc::{AllocError, Allocator};
use std::io::{Read, Write};

/// Reads the whole input, and then answers each line of it by a line of the output.
///
/// Lines end at `\n`; bytes after the last one are a line if there are any. A line that no command understands is
/// answered by `bad line`.
///
/// # Errors
///
/// [`BenchError::Read`] before anything is written; [`BenchError::Write`] and [`BenchError::OutOfMemory`] after the
/// answers of earlier lines.
pub fn run<A: Allocator + Drop, R: Read, W: Write>(
    alloc: A,
    input: &mut R,
    output: &mut W,
) -> Result<(), BenchError> {
    let bytes = read_all(&alloc, input)?;
    let text = bytes.as_slice();
    let body = match text {
        [] => return Ok(()),
        [body @ .., b'\n'] => body,
        _ => text,
    };
    for line in body.split(|byte| *byte == b'\n') {
        let answer = answer_line(&alloc, line).map_err(|_| BenchError::OutOfMemory)?;
        output
            .write_all(answer.as_bytes())
            .map_err(|_| BenchError::Write)?;
    }
    Ok(())
}

// The answer to a line, with its end of line.
fn answer_line<A: Allocator + Copy + Drop>(alloc: A, line: &[u8]) -> Result<String<A>, AllocError> {
    let tokens = tokens_of(alloc, line)?;
    let mut text = match answer_tokens(alloc, tokens.as_slice())? {
        Some(text) => text,
        None => String::from_str(alloc, "bad line")?,
    };
    text.push('\n')?;
    Ok(text)
}

// The answer to the tokens of a line, or `None` where no command understands them.
fn answer_tokens<A: Allocator + Copy + Drop>(
    alloc: A,
    tokens: &[&[u8]],
) -> Result<Option<String<A>>, AllocError> {
    let [name, arguments @ ..] = tokens else {
        return Ok(None);
    };
    match Command::from_name(name) {
        Some(Command::Ranges) => ranges::answer(alloc, arguments),
        Some(Command::Looks) => looks::answer_classes(alloc, arguments),
        Some(Command::Look) => looks::answer_at(alloc, arguments),
        Some(Command::Groups) => groups::answer(alloc, arguments),
        Some(Command::Limited) => groups::answer_limited(alloc, arguments),
        None => Ok(None),
    }
}
