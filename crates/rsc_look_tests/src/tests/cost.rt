//! A haystack so long that a call which reads more than what is beside a position doesn't end within the time that a test has.
use rsc_look::{AsciiWord, LookMatcher, LookSet};
use std::test::Fail;

const COUNT: usize = 100_000;

// How many assertions hold at a position, each asked by itself; none past the haystack.
fn count_at(matcher: &LookMatcher<AsciiWord>, haystack: &[u8], at: usize) -> usize {
    let mut count = 0usize;
    if at > haystack.len() {
        return count;
    }
    for look in LookSet::full().iter() {
        if matcher.matches(look, haystack, at) {
            count = count.saturating_add(1);
        }
    }
    count
}

// Whether as many assertions hold at each position of lines of this character as should: within the character `\B` and the half assertions of ASCII; at
// each end of a line also those of Unicode, and two assertions about lines.
fn are_counted(matcher: &LookMatcher<AsciiWord>, haystack: &[u8]) -> bool {
    for at in 1..haystack.len() {
        let want = if at % 3 == 1 { 3 } else { 8 };
        if count_at(matcher, haystack, at) != want {
            return false;
        }
    }
    true
}

#[test]
fn each_position_takes_the_same_time_in_any_haystack(rt: HostRuntime) -> Result<(), Fail> {
    let haystack = "é\n".repeat(rt.alloc(), COUNT)?;
    let matcher = LookMatcher::new(AsciiWord);
    assert!(rt; are_counted(&matcher, haystack.as_bytes()));
    Ok(())
}
