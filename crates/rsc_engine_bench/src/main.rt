//! Times `rsc_engine` beside the toolchain's `regex` on a text from standard input: counts on standard output, times on standard error.
//! With a number as its argument, it compares all texts of at most that many bytes instead.
#![tactic(auto)]

mod characters;
mod linear;
mod patterns;
mod short;
mod timed;
mod tokens;

use characters::time_characters;
use linear::time_linear;
use patterns::NAMES;
use short::compare_all;
use std::env;
use std::io::Read;
use std::process::ExitCode;
use timed::{Fail, time_pattern};
use tokens::{time_builds, time_tokens};

fn main(rt: HostRuntime) -> ExitCode {
    match time_all(&rt) {
        Ok(()) => ExitCode::SUCCESS,
        Err(error) => {
            let _ = rt.eprintln(error);
            ExitCode::FAILURE
        }
    }
}

fn time_all(rt: &HostRuntime) -> Result<(), Fail> {
    let arguments: Vec<String> = env::args(rt)?.collect(rt.alloc())?;
    if let Some(argument) = arguments.get(1) {
        return compare(rt, argument.as_str());
    }
    let mut text = Vec::new(rt.alloc());
    rt.reader().read_to_end(&mut text)?;
    for name in NAMES {
        time_pattern(rt, name, text.as_slice())?;
    }
    time_characters(rt, text.as_slice())?;
    time_tokens(rt, text.as_slice())?;
    time_builds(rt)?;
    time_linear(rt)
}

fn compare(rt: &HostRuntime, argument: &str) -> Result<(), Fail> {
    let most = argument.parse().unwrap_or(0);
    let (texts, differences) = compare_all(rt.alloc(), most)?;
    println!(rt; "{texts} texts, {differences} differences")?;
    Ok(())
}
