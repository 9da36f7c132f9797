//! A small grep: prints the lines of files, or of standard input, that have a word or a match of a pattern.
#![tactic(auto)]

mod arguments;
mod blocks;
mod error;
mod page;
mod patterns;
mod pieces;
mod run;
mod search;

use crate::error::GrepError;
use crate::run::run;
use std::env;
use std::process::ExitCode;

fn main(rt: HostRuntime) -> ExitCode {
    let outcome = match env::args(&rt) {
        Ok(arguments) => run(&rt, arguments),
        Err(error) => Err(GrepError::of_arguments(rt.alloc(), &error)),
    };
    match outcome {
        Ok(status) => ExitCode::from(status),
        // Nobody reads what is printed.
        Err(GrepError::Closed) => ExitCode::SUCCESS,
        Err(error) => {
            let _ = rt.eprintln(format_args!("rsc_example: {error}"));
            ExitCode::from(2)
        }
    }
}
