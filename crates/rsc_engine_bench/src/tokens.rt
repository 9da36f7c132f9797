//! Tokens timed: an anchored iteration over a program of several patterns.

use crate::timed::{Fail, count, report};
use rsc_engine::{Builder, Error, Program};
use rsc_look::{AsciiWord, Look};
use rsc_search::{Anchored, Input};
use std::alloc::Global;
use std::time::CpuClock;

/// Times the tokens of a text: keywords of two letters; small letters, capitals, digits or spaces in a row; and single bytes. It does so with no
/// keyword, with 10 and with 100.
pub fn time_tokens(rt: &HostRuntime, text: &[u8]) -> Result<(), Fail> {
    for (name, keywords) in [("tokens", 0), ("tokens10", 10), ("tokens100", 100)] {
        let from = rt.thread_cpu_time()?;
        let program = make(rt.alloc(), keywords)?;
        report(rt, name, "build", from)?;
        let from = rt.thread_cpu_time()?;
        let input = Input::new(text).anchored(Anchored::Yes);
        let tokens = count(rt, &program, input, text.len())?;
        report(rt, name, "matches engine", from)?;
        println!(rt; "{name} {tokens}")?;
    }
    Ok(())
}

fn make(alloc: Global, keywords: u8) -> Result<Program<AsciiWord>, Error> {
    let mut builder = Builder::new(alloc);
    for number in 0..keywords {
        let letters = [b'a' + number / 10 % 26, b'a' + number % 10];
        let keyword = builder.literal(&letters)?;
        let whole = builder.then(keyword, builder.assertion(Look::WordEndAscii))?;
        builder.add_pattern(whole)?;
    }
    for (first, last) in [(b'a', b'z'), (b'A', b'Z'), (b'0', b'9'), (b' ', b' ')] {
        let class = builder.range(first, last);
        let bytes = builder.plus(class)?;
        builder.add_pattern(bytes)?;
    }
    let other = builder.range(0, 0xFF);
    builder.build(AsciiWord, false, other)
}

/// Times the building of one program of 10, 100 and 1,000 literals of five bytes.
pub fn time_builds(rt: &HostRuntime) -> Result<(), Fail> {
    for count in [10, 100, 1000] {
        let from = rt.thread_cpu_time()?;
        let program = literals(rt.alloc(), count)?;
        let to = rt.thread_cpu_time()?;
        let micros = to.saturating_sub(from).as_micros();
        eprintln!(rt; "{count} literals build {micros}")?;
        println!(rt; "{count} literals {} states", program.state_len())?;
    }
    Ok(())
}

fn literals(alloc: Global, count: usize) -> Result<Program<AsciiWord>, Error> {
    let builder = Builder::new(alloc);
    let mut parts = Vec::new(alloc);
    for number in 0..count {
        let mut text = String::new(alloc);
        write!(text, "w{number:04}")?;
        parts.push(builder.literal(text.as_str().as_bytes())?)?;
    }
    let whole = builder.one_of(parts)?;
    builder.build(AsciiWord, false, whole)
}
