//! Lines, lists, names, haystacks and inputs of sizes on both sides of any limit.
use super::answer_to;
use std::alloc::Global;
use std::fmt::Write;
use std::test::Fail;

// Whether these lines are answered by this text.
fn is_answer(alloc: Global, lines: &str, want: &str) -> Result<bool, Fail> {
    Ok(answer_to(alloc, lines)?.as_str() == want)
}

// The answer to a command with a first argument, `count` times another one, and a last one.
fn answer_to_many(
    alloc: Global,
    first: &str,
    many: &str,
    count: usize,
    last: &str,
) -> Result<String, Fail> {
    let line = format!(in alloc; "{first}{}{last}", many.repeat(alloc, count)?)?;
    answer_to(alloc, &line)
}

// `slots`, the number of slots, and the first slots of groups of which each has two more than the one before.
fn slots_of(alloc: Global, count: u32, between: &str) -> Result<String, Fail> {
    let mut text = format!(in alloc; "slots {}: 0", 2 * u64::from(count))?;
    for group in 1..count {
        write!(text, "{between}{}", 2 * u64::from(group))?;
    }
    text.push('\n')?;
    Ok(text)
}

#[test]
fn lists_of_groups_of_any_length_are_answered(rt: HostRuntime) -> Result<(), Fail> {
    let alloc = rt.alloc();
    for (command, between) in [("groups -", ";"), ("limited 140000 -", ",")] {
        for count in [1u32, 2, 63, 64, 65, 256, 300, 1_000, 70_000] {
            let many = format!(in alloc; "{between}-")?;
            let answer = answer_to_many(alloc, command, &many, count as usize - 1, "")?;
            let want = slots_of(alloc, count, between)?;
            assert!(rt; answer.as_str() == want.as_str(), "{command} and {count}");
        }
    }
    Ok(())
}

#[test]
fn a_second_pattern_of_many_groups_is_answered(rt: HostRuntime) -> Result<(), Fail> {
    let mut want = String::from_str(rt.alloc(), "slots 2004: 0;2")?;
    for group in 2..1_002u32 {
        write!(want, ",{}", 2 * u64::from(group))?;
    }
    want.push('\n')?;
    let answer = answer_to_many(rt.alloc(), "groups -;-", ",-", 1_000, "")?;
    assert!(rt; answer.as_str() == want.as_str());
    Ok(())
}

// The limit is one slot less than the patterns have.
#[test]
fn limits_on_many_patterns_are_kept(rt: HostRuntime) -> Result<(), Fail> {
    let want = "too many capture groups (at least 1) were found for pattern 0\n";
    for (command, count) in [("limited 3 -", 2), ("limited 3999 -", 2_000)] {
        let answer = answer_to_many(rt.alloc(), command, ";-", count - 1, "")?;
        assert!(rt; answer.as_str() == want, "{command}");
    }
    Ok(())
}

// A pattern without groups, and a group too many, after 300 others.
#[test]
fn late_faults_name_their_places(rt: HostRuntime) -> Result<(), Fail> {
    let answer = answer_to_many(rt.alloc(), "groups -", ";-", 299, ";")?;
    assert!(rt;
        answer
            .as_str()
            .starts_with("no capturing groups found for pattern 300 (")
    );
    let answer = answer_to_many(rt.alloc(), "limited 600 -", ",-", 301, "")?;
    let want = "too many capture groups (at least 301) were found for pattern 0\n";
    assert!(rt; answer.as_str() == want);
    Ok(())
}

// The first argument and the last one differ from the others, and a line comes after the ranges.
#[test]
fn lists_of_ranges_and_assertions_of_any_length_are_answered(rt: HostRuntime) -> Result<(), Fail> {
    let alloc = rt.alloc();
    for count in [17usize, 18, 255, 256, 300, 70_000] {
        let answer = answer_to_many(alloc, "ranges 21-2f", " 61-7a", count, " 30-39\nranges")?;
        let want = "alphabet 7: 00 21 30 3a 61 7b\nalphabet 2: 00\n";
        assert!(rt; answer.as_str() == want, "{count} ranges");
        let answer = answer_to_many(alloc, "looks 07", " Start", count, " StartLF")?;
        assert!(rt;
            answer.as_str() == "alphabet 4: 00 07 08\n",
            "{count} assertions"
        );
        let answer = answer_to_many(alloc, "looks 0a", " StartLF", count, " none")?;
        assert!(rt; answer.as_str() == "bad line\n", "{count} assertions");
    }
    Ok(())
}

#[test]
fn all_classes_are_answered(rt: HostRuntime) -> Result<(), Fail> {
    let mut line = String::from_str(rt.alloc(), "ranges")?;
    let mut want = String::from_str(rt.alloc(), "alphabet 257:")?;
    for byte in 0..256u32 {
        write!(line, " {byte:02x}-{byte:02x}")?;
        write!(want, " {byte:02x}")?;
    }
    want.push('\n')?;
    assert!(rt; is_answer(rt.alloc(), &line, &want)?);
    Ok(())
}

#[test]
fn names_of_any_length_are_answered(rt: HostRuntime) -> Result<(), Fail> {
    let alloc = rt.alloc();
    for length in [1usize, 31, 32, 33, 64, 65, 1_000, 70_000] {
        let name = "n".repeat(alloc, length)?;
        let line = format!(in alloc; "groups -,{name};-,{name}x,{name}")?;
        assert!(rt;
            is_answer(alloc, &line, "slots 10: 0,4;2,6,8\n")?,
            "{length}"
        );
        let line = format!(in alloc; "groups -,{name},{name}")?;
        let want = format!(in alloc;
            "duplicate capture group name '{name}' found for pattern 0\n"
        )?;
        assert!(rt; is_answer(alloc, &line, &want)?, "{length}");
    }
    Ok(())
}

// Letters alone: their two ends are word boundaries, their middle is none, and no position lies past them.
#[test]
fn haystacks_of_any_length_are_answered(rt: HostRuntime) -> Result<(), Fail> {
    let alloc = rt.alloc();
    for count in [1_024usize, 2_048, 65_535, 65_536, 700_000] {
        let hay = "4A".repeat(alloc, count)?;
        for (at, want) in [
            (0, "true\n"),
            (count / 2, "false\n"),
            (count, "true\n"),
            (count + 1, "bad line\n"),
        ] {
            let line = format!(in alloc; "look WordAscii 0a {hay} {at}")?;
            assert!(rt; is_answer(alloc, &line, want)?, "{at} of {count}");
        }
        // A zero after the last letter is no word byte, and its end is the haystack's.
        for (at, want) in [(count, "true\n"), (count + 1, "false\n")] {
            let line = format!(in alloc; "look WordAscii 0a {hay}00 {at}")?;
            assert!(rt;
                is_answer(alloc, &line, want)?,
                "{at} of {count} and a zero"
            );
        }
    }
    Ok(())
}

// Each terminator, and lines past any buffer.
#[test]
fn each_of_many_lines_is_answered(rt: HostRuntime) -> Result<(), Fail> {
    let mut lines = String::new(rt.alloc());
    let mut want = String::new(rt.alloc());
    for number in 0..40_000u32 {
        let byte = number % 256;
        writeln!(lines, "looks {byte:02x} StartLF")?;
        match byte {
            0 => writeln!(want, "alphabet 3: 00 01")?,
            255 => writeln!(want, "alphabet 3: 00 ff")?,
            _ => {
                let next = byte + 1;
                writeln!(want, "alphabet 4: 00 {byte:02x} {next:02x}")?;
            }
        }
    }
    assert!(rt; is_answer(rt.alloc(), &lines, &want)?);
    Ok(())
}

#[test]
fn long_lines_are_answered(rt: HostRuntime) -> Result<(), Fail> {
    let alloc = rt.alloc();
    // The last line needs no end.
    let long = "x".repeat(alloc, 20 * 1024 * 1024)?;
    assert!(rt; is_answer(alloc, &long, "bad line\n")?);
    let lines = format!(in alloc;
        "{}{}ranges\n",
        "x".repeat(alloc, 1024 * 1024)?,
        "\n".repeat(alloc, 70_000)?
    )?;
    let want = format!(in alloc; "{}alphabet 2: 00\n", "bad line\n".repeat(alloc, 70_000)?)?;
    assert!(rt; is_answer(alloc, &lines, &want)?);
    Ok(())
}
