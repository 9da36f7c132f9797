//! The rows of commands, and displayed errors.
mod memory;
mod sizes;
mod streams;

use rsc_commands::{BenchError, run};
use std::alloc::Global;
use std::test::Fail;

const MISSING: &str =
    "no capturing groups found for pattern 0 (either all patterns have zero groups or all patterns have at least one group)\n";

const NAMED: &str =
    "first capture group (at index 0) for pattern 0 has a name (it must be unnamed)\n";

// What is written for some lines.
fn answer_to(alloc: Global, lines: &str) -> Result<String, Fail> {
    let mut reader = lines.as_bytes();
    let mut writer = Vec::new(alloc);
    run(alloc, &mut reader, &mut writer)?;
    Ok(String::from_utf8_lossy(alloc, writer.as_slice())?)
}

// The first input that is answered otherwise.
fn first_other<'a>(alloc: Global, rows: &[(&'a str, &str)]) -> Result<Option<&'a str>, Fail> {
    for (input, want) in rows {
        let answer = answer_to(alloc, input)?;
        if answer.as_str() != *want {
            return Ok(Some(*input));
        }
    }
    Ok(None)
}

#[test]
fn answers_ranges(rt: HostRuntime) -> Result<(), Fail> {
    let rows = [
        ("ranges 61-7a", "alphabet 4: 00 61 7b\n"),
        ("ranges 00-02 04-06", "alphabet 5: 00 03 04 07\n"),
        ("ranges", "alphabet 2: 00\n"),
        ("ranges 80-ff", "alphabet 3: 00 80\n"),
        ("ranges 7f-80", "alphabet 4: 00 7f 81\n"),
        ("ranges 00-ff", "alphabet 2: 00\n"),
        ("ranges 00-7f", "alphabet 3: 00 80\n"),
        ("ranges 7A-7a", "alphabet 4: 00 7a 7b\n"),
        ("ranges 7a-61", "bad line\n"),
        ("ranges ", "bad line\n"),
        ("ranges  61-7a", "bad line\n"),
        ("ranges 61-7", "bad line\n"),
        ("ranges 61-7g", "bad line\n"),
        ("ranges 61:7a", "bad line\n"),
        ("range 61-7a", "bad line\n"),
        ("Ranges 61-7a", "bad line\n"),
        ("ranges 00-00 01-01", "alphabet 4: 00 01 02\n"),
        ("\n", "bad line\n"),
        ("", ""),
        (
            "ranges\n\n  \n\n",
            "alphabet 2: 00\nbad line\nbad line\nbad line\n",
        ),
        (
            "ranges\n\nranges 61-7a\n",
            "alphabet 2: 00\nbad line\nalphabet 4: 00 61 7b\n",
        ),
    ];
    assert_eq!(rt; first_other(rt.alloc(), &rows)?, None);
    Ok(())
}

#[test]
fn answers_classes_of_assertions(rt: HostRuntime) -> Result<(), Fail> {
    let rows = [
        (
            "looks 0a StartLF WordAscii",
            "alphabet 12: 00 0a 0b 30 3a 41 5b 5f 60 61 7b\n",
        ),
        ("looks 0a StartCRLF", "alphabet 6: 00 0a 0b 0d 0e\n"),
        (
            "looks 0a WordUnicode",
            "alphabet 10: 00 30 3a 41 5b 5f 60 61 7b\n",
        ),
        ("looks 0a", "alphabet 2: 00\n"),
        ("looks 0a Start End", "alphabet 2: 00\n"),
        ("looks 00 EndLF", "alphabet 3: 00 01\n"),
        ("looks ff StartLF", "alphabet 3: 00 ff\n"),
        ("looks 0a EndLF EndCRLF", "alphabet 6: 00 0a 0b 0d 0e\n"),
        (
            "looks 0a WordStartHalfUnicode WordEndHalfAscii",
            "alphabet 10: 00 30 3a 41 5b 5f 60 61 7b\n",
        ),
        ("looks 0a startlf", "bad line\n"),
        ("looks", "bad line\n"),
        ("looks 0", "bad line\n"),
        ("looks 0a ", "bad line\n"),
        ("looks StartLF", "bad line\n"),
        ("looks 0a StartLF,EndLF", "bad line\n"),
        ("looks 0a\r Start", "bad line\n"),
    ];
    assert_eq!(rt; first_other(rt.alloc(), &rows)?, None);
    Ok(())
}

#[test]
fn answers_assertions_at_positions(rt: HostRuntime) -> Result<(), Fail> {
    let rows = [
        ("look Start 0a - 0", "true\n"),
        ("look StartLF 0a 0a61 1", "true\n"),
        ("look StartLF 00 0a61 1", "false\n"),
        ("look StartCRLF 00 0a61 1", "true\n"),
        ("look WordUnicode 0a f09d9b83f0908680 4", "true\n"),
        ("look WordUnicodeNegate 0a f09d9b83f0908680 5", "false\n"),
        ("look WordUnicodeNegate 0a F09D9B83F0908680 5", "false\n"),
        ("look WordUnicodeNegate 0a f09d9b83f0908680 8", "true\n"),
        ("look WordUnicode 0a 6180 2", "false\n"),
        ("look WordUnicode 0a 6180 1", "true\n"),
        ("look WordUnicode 0a 6180 0000000001", "true\n"),
        ("look End 0a 61 2", "bad line\n"),
        ("look End 0a 6 0", "bad line\n"),
        ("look End 0a  0", "bad line\n"),
        ("look End 0a 61 +0", "bad line\n"),
        ("look End 0a 61 0x0", "bad line\n"),
        ("look End 0a 61 00000000001", "bad line\n"),
        ("look End 0a 61", "bad line\n"),
        ("look End 0a 61 0 0", "bad line\n"),
        ("look Start 0A - 0", "true\n"),
        ("look Start 0a - 0 0", "bad line\n"),
        ("look Start 0a  0", "bad line\n"),
        ("look Start 0a - 00000000000", "bad line\n"),
        ("look Start 0a - 4294967296", "bad line\n"),
        ("look Start 0a -- 0", "bad line\n"),
        ("look Start 0a 0x61 0", "bad line\n"),
        ("look Start 0a 616 0", "bad line\n"),
        ("look Start 0a 61 0_", "bad line\n"),
        ("look ^ 0a - 0", "bad line\n"),
    ];
    assert_eq!(rt; first_other(rt.alloc(), &rows)?, None);
    Ok(())
}

#[test]
fn answers_groups(rt: HostRuntime) -> Result<(), Fail> {
    let rows = [
        ("groups -,x;-,-,x", "slots 10: 0,4;2,6,8\n"),
        ("groups -,-", "slots 4: 0,2\n"),
        ("groups -,x;-,x", "slots 8: 0,4;2,6\n"),
        ("groups", "slots 0:\n"),
        ("groups ;-,x,x", MISSING),
        ("groups ", MISSING),
        ("groups x", NAMED),
        ("groups x;", NAMED),
        (
            "groups -,x,x;",
            "duplicate capture group name 'x' found for pattern 0\n",
        ),
        ("groups -,", "bad line\n"),
        ("groups -,a.b", "bad line\n"),
        ("groups -,$", "bad line\n"),
        ("groups -,a$", "bad line\n"),
        ("groups - -", "bad line\n"),
        ("groups -,1a", "slots 4: 0,2\n"),
        ("groups -;-;-,-", "slots 8: 0;2;4,6\n"),
        ("groups --", "bad line\n"),
        ("groups -,--", "bad line\n"),
        ("groups - ", "bad line\n"),
    ];
    assert_eq!(rt; first_other(rt.alloc(), &rows)?, None);
    Ok(())
}

#[test]
fn answers_limited_groups(rt: HostRuntime) -> Result<(), Fail> {
    let rows = [
        ("limited 0", "slots 0:\n"),
        ("limited 4 -;-", "slots 4: 0;2\n"),
        ("limited 6 -;-,-", "slots 6: 0;2,4\n"),
        ("limited 6 -,-;-", "slots 6: 0,4;2\n"),
        ("limited 2147483646 -", "slots 2: 0\n"),
        ("limited 0000000002 -", "slots 2: 0\n"),
        (
            "limited 4 -,x,x",
            "duplicate capture group name 'x' found for pattern 0\n",
        ),
        (
            "limited 4 -,-;-;",
            "no capturing groups found for pattern 2 (either all patterns have zero groups or all patterns have at least one group)\n",
        ),
        ("limited 0 ", MISSING),
        ("limited 0 x", NAMED),
        ("limited 2147483647 -", "bad line\n"),
        ("limited 9999999999 -", "bad line\n"),
        ("limited 00000000001 -", "bad line\n"),
        ("limited x -", "bad line\n"),
        ("limited -", "bad line\n"),
        ("limited", "bad line\n"),
        ("limited 4 -,", "bad line\n"),
        ("limited 4 - -", "bad line\n"),
        ("limited 4 ", MISSING),
        ("limited - 2", "bad line\n"),
    ];
    assert_eq!(rt; first_other(rt.alloc(), &rows)?, None);
    Ok(())
}

// Each list, the least number of groups that its refusal names, and the pattern.
#[test]
fn refuses_more_groups_than_the_limit(rt: HostRuntime) -> Result<(), Fail> {
    let rows = [
        ("limited 3 -;-", 1, 0),
        ("limited 5 -;-,-", 2, 1),
        ("limited 4 -,-;-", 2, 0),
        ("limited 2 -,x,x", 2, 0),
        ("limited 1 -,-;", 1, 0),
        ("limited 1 -,-;-", 1, 0),
    ];
    for (input, minimum, pattern) in rows {
        let answer = answer_to(rt.alloc(), input)?;
        let want = format!(in rt.alloc();
            "too many capture groups (at least {minimum}) were found for pattern {pattern}\n"
        )?;
        assert_eq!(rt; answer.as_str(), want.as_str(), "at {input:?}");
    }
    Ok(())
}

// Commands by other names, other ends of lines and signs between tokens, and what isn't UTF-8, each between two good lines.
#[test]
fn answers_any_bytes_by_bad_line(rt: HostRuntime) -> Result<(), Fail> {
    let lines: [&[u8]; 32] = [
        b"RANGES",
        b"Groups -",
        b"GROUPS -",
        b"group -",
        b"limit 2 -",
        b"Look Start 0a - 0",
        b"LOOK Start 0a - 0",
        b"#ranges",
        b"//",
        b" ranges",
        b"\"ranges\"",
        b"ranges\\",
        b"ranges\r",
        b"ranges\t61-7a",
        b"ranges 61-7a\r30-39",
        b"ranges\x0cranges",
        b"ranges\x0b61-7a",
        b"ranges\x85ranges",
        b"ranges\xa061-7a",
        b"ranges 61-7a\x00",
        b"ranges\x04",
        b"ranges\x1a",
        b"\x08ranges",
        b"\xef\xbb\xbfranges",
        b"look Start 0a \xc3\xa9 0",
        b"groups -,\xc3\xa9",
        b"\xff",
        b"ranges \x80",
        b"look \xc3\xa9 0a - 0",
        b"groups -,\xff",
        b"limited \xf0\x9d -",
        b"\xed\xa0\x80 61-7a",
    ];
    for line in lines {
        let mut input = Vec::from_slice(rt.alloc(), b"ranges\n".as_slice())?;
        input.extend_from_slice(line)?;
        input.extend_from_slice(b"\nranges 61-7a")?;
        let mut writer = Vec::new(rt.alloc());
        run(rt.alloc(), &mut input.as_slice(), &mut writer)?;
        let want = b"alphabet 2: 00\nbad line\nalphabet 4: 00 61 7b\n";
        assert!(rt; writer.as_slice() == want.as_slice(), "at {line:?}");
    }
    Ok(())
}

#[test]
fn a_byte_order_mark_is_no_part_of_a_command(rt: HostRuntime) -> Result<(), Fail> {
    let answer = answer_to(rt.alloc(), "\u{feff}ranges\nranges")?;
    assert_eq!(rt; answer.as_str(), "bad line\nalphabet 2: 00\n");
    Ok(())
}

#[test]
fn displays_errors(rt: HostRuntime) -> Result<(), Fail> {
    let rows = [
        (BenchError::Read, "rsc_bench: read failed"),
        (BenchError::Write, "rsc_bench: write failed"),
        (BenchError::OutOfMemory, "rsc_bench: out of memory"),
    ];
    for (error, want) in rows {
        let text = error.to_string(rt.alloc())?;
        assert_eq!(rt; text.as_str(), want);
    }
    Ok(())
}

#[test]
fn errors_are_equal_to_themselves_alone(rt: HostRuntime) -> Result<(), Fail> {
    let errors = [
        (BenchError::Read, "Read"),
        (BenchError::Write, "Write"),
        (BenchError::OutOfMemory, "OutOfMemory"),
    ];
    for (one, name) in &errors {
        for (other, its) in &errors {
            assert!(rt; (one == other) == (name == its), "{name} and {its}");
        }
        assert_eq!(rt; format!(in rt.alloc(); "{one:?}")?.as_str(), *name);
    }
    Ok(())
}
