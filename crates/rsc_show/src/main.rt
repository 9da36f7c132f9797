//! Explains positions of a haystack, classes of bytes and lists of groups on standard output.
#![tactic(auto)]

mod alphabet;
mod arguments;
mod choices;
mod classes;
mod error;
mod groups;
mod looks;
mod positions;
mod run;
mod shares;
mod summary;
mod text;
mod witness;

use crate::error::ShowError;
use crate::run::run;
use std::alloc::Global;
use std::env::VarError;
use std::io::{ErrorKind, IsTerminal};
use std::process::ExitCode;
use std::{env, io};

fn main(rt: HostRuntime) -> ExitCode {
    let arguments = match env::args(&rt) {
        Ok(arguments) => arguments,
        Err(error) => return failure(&rt, &error_of(&error)),
    };
    let all: Vec<String> = match arguments.collect(rt.alloc()) {
        Ok(all) => all,
        Err(_) => return failure(&rt, &ShowError::OutOfMemory),
    };
    // The first is the program's name.
    let arguments = all.as_slice().get(1..).unwrap_or(&[]);
    match run(
        rt.alloc(),
        arguments,
        wants_color(&rt),
        &mut rt.reader(),
        &mut io::writer(&rt),
    ) {
        Ok(()) | Err(ShowError::Closed) => ExitCode::SUCCESS,
        Err(error) => failure(&rt, &error),
    }
}

// Says what stopped the program.
fn failure(rt: &HostRuntime, error: &ShowError) -> ExitCode {
    let _ = rt.eprintln(error.message());
    ExitCode::from(error.status())
}

// Why the arguments can't be had.
fn error_of(error: &io::Error) -> ShowError {
    match error.kind() {
        ErrorKind::InvalidData => ShowError::NotUtf8,
        _ => ShowError::OutOfMemory,
    }
}

// Whether standard output is a terminal, and `NO_COLOR` is not set to anything but the empty text.
fn wants_color(rt: &HostRuntime) -> bool {
    if !rt.stdout().is_terminal() {
        return false;
    }
    match env::var(rt, "NO_COLOR") {
        Ok(value) => value.is_empty(),
        Err(error) => error == VarError::NotPresent,
    }
}
