//! Prints the matches of patterns in texts: of patterns on lines of standard input, or of its own.
#![tactic(auto)]

mod calls;
mod pairs;
mod patterns;
mod texts;

use pairs::pairs;
use std::env;
use std::fmt::Display;
use std::process::ExitCode;

fn main(rt: HostRuntime) -> ExitCode {
    // With an argument it answers lines of calls instead.
    match env::args(&rt) {
        Ok(arguments) if arguments.len() > 1 => {
            return match calls::answer_all(&rt) {
                Ok(()) => ExitCode::SUCCESS,
                Err(error) => failure(&rt, &error),
            };
        }
        Ok(_) => {}
        Err(error) => return failure(&rt, &error),
    }
    if let Err(error) = pairs(&rt, "größe=3, λόγος=слово; 漢字=字 #été") {
        return failure(&rt, &error);
    }
    match texts::show_all(&rt) {
        Ok(()) => ExitCode::SUCCESS,
        Err(error) => failure(&rt, &error),
    }
}

// Says what stopped the program on standard error.
fn failure<E: Display>(rt: &HostRuntime, error: &E) -> ExitCode {
    let _ = rt.eprintln(error);
    ExitCode::FAILURE
}
