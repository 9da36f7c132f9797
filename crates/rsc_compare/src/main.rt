//! Reads commands from standard input, one a line, and answers each with a line on standard output.
#![tactic(auto)]

mod answer;
mod captures;
mod classes;
mod groups;
mod inputs;
mod line;
mod look_sets;
mod looks;
mod pattern_sets;
mod primitives;
mod spans;

use answer::Answer;
use line::Line;
use std::alloc::{AllocError, Global};
use std::io;
use std::io::{BufRead, BufReader, BufWriter, ErrorKind, Read, Write};
use std::process::ExitCode;

fn main(rt: HostRuntime) -> ExitCode {
    match run(rt.alloc(), &mut rt.reader(), &mut io::writer(&rt)) {
        Ok(()) => ExitCode::SUCCESS,
        Err(error) => {
            let _ = rt.eprintln(error);
            ExitCode::FAILURE
        }
    }
}

const OUT_OF_MEMORY: &str = "rsc_compare: out of memory";

// Answers each line up to the end of the input. Lines end at `\n`; bytes after the last one are a line if there are any.
fn run<R: Read, W: Write>(
    alloc: Global,
    input: &mut R,
    output: &mut W,
) -> Result<(), &'static str> {
    let mut reader = BufReader::new(alloc, input).map_err(failed_read)?;
    let mut writer = BufWriter::new(alloc, output).map_err(failed_write)?;
    for _ in 0..u64::MAX {
        let mut line = Vec::new(alloc);
        let _ = reader.read_until(b'\n', &mut line).map_err(failed_read)?;
        if line.is_empty() {
            break;
        }
        let Ok(answer) = answer_line(alloc, line.as_slice()) else {
            return Err(OUT_OF_MEMORY);
        };
        writer.write_all(answer.as_bytes()).map_err(failed_write)?;
    }
    writer.flush().map_err(failed_write)
}

fn failed_read(error: io::Error) -> &'static str {
    match error.kind() {
        ErrorKind::OutOfMemory => OUT_OF_MEMORY,
        _ => "rsc_compare: read failed",
    }
}

fn failed_write(error: io::Error) -> &'static str {
    match error.kind() {
        ErrorKind::OutOfMemory => OUT_OF_MEMORY,
        _ => "rsc_compare: write failed",
    }
}

// The answer to a line, with its end of line.
fn answer_line(alloc: Global, line: &[u8]) -> Result<String, AllocError> {
    let mut line = Line::new(alloc, line.strip_suffix(b"\n").unwrap_or(line));
    let mut answer = Answer::new(alloc);
    let name = line.token();
    let is_known = answer_command(plain_name(name), &mut line, &mut answer);
    let mut text = if line.is_read()? && is_known {
        answer.finish()?
    } else {
        String::from_str(alloc, "bad command")?
    };
    text.push('\n')?;
    Ok(text)
}

// A name without `_port`, which asks for the answer that is stated, where the original has another one or none. Here both
// are one.
fn plain_name(name: &[u8]) -> &[u8] {
    name.strip_suffix(b"_port").unwrap_or(name)
}

// Answers a command; returns whether one has that name, as `answer` of each module does.
fn answer_command(name: &[u8], line: &mut Line<'_>, answer: &mut Answer) -> bool {
    primitives::answer(name, line, answer)
        || classes::answer(name, line, answer)
        || looks::answer(name, line, answer)
        || look_sets::answer(name, line, answer)
        || spans::answer(name, line, answer)
        || inputs::answer(name, line, answer)
        || pattern_sets::answer(name, line, answer)
        || groups::answer(name, line, answer)
        || captures::answer(name, line, answer)
}
