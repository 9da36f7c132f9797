//! A haystack so long that a call which reads more than a character doesn't end within the time that a test has.
use rsc_primitives::utf8::{decode, decode_last, is_boundary};
use std::test::Fail;

const COUNT: usize = 400_000;

// Whether each call answers as it should at each position of a text of this character alone.
fn are_read(bytes: &[u8]) -> bool {
    for at in 1..bytes.len() {
        let is_between = at % 2 == 0;
        let begins = decode(&bytes[at..]) == Some(Ok('é'));
        let ends = decode_last(&bytes[..at]) == Some(Ok('é'));
        if [begins, ends, is_boundary(bytes, at)] != [is_between; 3] {
            return false;
        }
    }
    true
}

#[test]
fn each_character_takes_the_same_time_in_any_haystack(rt: HostRuntime) -> Result<(), Fail> {
    let text = "é".repeat(rt.alloc(), COUNT)?;
    assert!(rt; are_read(text.as_bytes()));
    Ok(())
}
