//! One pattern timed.

use crate::patterns::{make, text_of};
use regex::bytes::Regex;
use rsc_engine::{AsciiCompatible, Cache, Dfa, Matches, Program};
use rsc_look::{AsciiWord, WordClass};
use rsc_search::Input;
use std::time::{CpuClock, Duration};

/// Why nothing was timed.
pub type Fail = anyhow::Error;

/// Times one pattern: all matches with their groups, whether there is one, and the first of each line, which is a haystack of its own.
pub fn time_pattern(rt: &HostRuntime, name: &str, text: &[u8]) -> Result<(), Fail> {
    let program = make(rt.alloc(), name)?;
    let ours = all_of_ours(rt, name, &program, text)?;
    let is_ours = is_one_of_ours(rt, name, &program, text)?;
    let regex = Regex::new(rt.alloc(), text_of(name))?;
    let theirs = all_of_theirs(rt, name, &regex, text)?;
    let is_theirs = is_one_of_theirs(rt, name, &regex, text)?;
    let short_ours = lines_of_ours(rt, name, &program, text)?;
    let short_theirs = lines_of_theirs(rt, name, &regex, text)?;
    println!(rt; "{name} {ours} {theirs} {is_ours} {is_theirs} {short_ours} {short_theirs}")?;
    Ok(())
}

/// Times all matches of a program in a text, each found with its groups, and counts them.
pub fn all_of_ours<W: WordClass + AsciiCompatible>(
    rt: &HostRuntime,
    name: &str,
    program: &Program<W>,
    text: &[u8],
) -> Result<usize, Fail> {
    let from = rt.thread_cpu_time()?;
    let count = count(rt, program, Input::new(text), text.len())?;
    report(rt, name, "matches engine", from)?;
    Ok(count)
}

/// How many matches an input of a text of that many bytes has, each found with its groups.
pub fn count<W: WordClass + AsciiCompatible>(
    rt: &HostRuntime,
    program: &Program<W>,
    input: Input<'_>,
    length: usize,
) -> Result<usize, Fail> {
    let mut captures = program.captures(rt.alloc())?;
    let mut matches = Matches::new(rt.alloc(), program, input)?;
    let mut count = 0_usize;
    for _ in 0..=length {
        if matches.next(&mut captures)?.is_none() {
            break;
        }
        count = count.saturating_add(1);
    }
    Ok(count)
}

fn is_one_of_ours(
    rt: &HostRuntime,
    name: &str,
    program: &Program<AsciiWord>,
    text: &[u8],
) -> Result<bool, Fail> {
    let mut dfa = Dfa::new(rt.alloc(), program, 1000);
    let from = rt.thread_cpu_time()?;
    let found = dfa.is_match(&Input::new(text))?;
    report(rt, name, "is_match engine", from)?;
    Ok(found)
}

/// Times all matches of the toolchain's `regex` in the same way.
pub fn all_of_theirs(
    rt: &HostRuntime,
    name: &str,
    regex: &Regex,
    text: &[u8],
) -> Result<usize, Fail> {
    let mut matcher = regex.matcher(rt.alloc())?;
    let mut locations = regex.capture_locations(rt.alloc())?;
    let from = rt.thread_cpu_time()?;
    let mut count = 0_usize;
    let mut all = matcher.captures_iter(text);
    for _ in 0..=text.len() {
        if all.next_read(&mut locations).is_none() {
            break;
        }
        count = count.saturating_add(1);
    }
    report(rt, name, "matches regex", from)?;
    Ok(count)
}

fn is_one_of_theirs(
    rt: &HostRuntime,
    name: &str,
    regex: &Regex,
    text: &[u8],
) -> Result<bool, Fail> {
    let mut matcher = regex.matcher(rt.alloc())?;
    let from = rt.thread_cpu_time()?;
    let found = matcher.is_match(text);
    report(rt, name, "is_match regex", from)?;
    Ok(found)
}

fn lines_of_ours(
    rt: &HostRuntime,
    name: &str,
    program: &Program<AsciiWord>,
    text: &[u8],
) -> Result<usize, Fail> {
    let mut captures = program.captures(rt.alloc())?;
    let mut cache = Cache::new(rt.alloc(), program)?;
    let from = rt.thread_cpu_time()?;
    let mut count = 0_usize;
    for line in text.split(|byte| *byte == b'\n') {
        if cache.find(&Input::new(line), &mut captures)?.is_some() {
            count = count.saturating_add(1);
        }
    }
    report(rt, name, "short engine", from)?;
    Ok(count)
}

fn lines_of_theirs(
    rt: &HostRuntime,
    name: &str,
    regex: &Regex,
    text: &[u8],
) -> Result<usize, Fail> {
    let mut matcher = regex.matcher(rt.alloc())?;
    let mut locations = regex.capture_locations(rt.alloc())?;
    let from = rt.thread_cpu_time()?;
    let mut count = 0_usize;
    for line in text.split(|byte| *byte == b'\n') {
        if matcher.captures_read(&mut locations, line).is_some() {
            count = count.saturating_add(1);
        }
    }
    report(rt, name, "short regex", from)?;
    Ok(count)
}

/// Says how long something took.
pub fn report(rt: &HostRuntime, name: &str, what: &str, from: Duration) -> Result<(), Fail> {
    let to = rt.thread_cpu_time()?;
    let micros = to.saturating_sub(from).as_micros();
    eprintln!(rt; "{name} {what} {micros}")?;
    Ok(())
}
