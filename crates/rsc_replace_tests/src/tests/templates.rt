//! What templates stand for, where the original's rules are easily got wrong.
use crate::made::part_of;
use rsc_captures::Captures;
use rsc_engine::{Builder, Error, Program, find};
use rsc_look::AsciiWord;
use rsc_replace::expand;
use rsc_search::Input;
use std::alloc::Global;
use std::test::Fail;

// A match of `(?P<first>[a-z]+)-([a-z]+)-(b)?`, in which the last group takes no part.
const TEXT: &[u8] = b"<ab-cd->";

fn program(alloc: Global) -> Result<Program<AsciiWord>, Error> {
    let builder = Builder::new(alloc);
    let letters = part_of(alloc, &builder, "W+")?;
    let first = builder.group(Some("first"), letters)?;
    let letters = part_of(alloc, &builder, "W+")?;
    let second = builder.group(None, letters)?;
    let missing = part_of(alloc, &builder, "bG?")?;
    let whole = builder.concat(vec![in alloc;
        first,
        builder.literal(b"-")?,
        second,
        builder.literal(b"-")?,
        missing,
    ]?)?;
    builder.build(AsciiWord, true, whole)
}

// Whether a template stands for a text in the match `ab-cd-`.
fn stands_for(alloc: Global, template: &[u8], wanted: &[u8]) -> Result<bool, Error> {
    let program = program(alloc)?;
    let mut captures = program.captures(alloc)?;
    let _found = find(alloc, &program, &Input::new(TEXT), &mut captures)?;
    let mut out = Vec::new(alloc);
    out.push(b'=')?;
    expand(&mut out, TEXT, &captures, template)?;
    Ok(out.as_slice().strip_prefix(b"=".as_slice()) == Some(wanted))
}

#[test]
fn groups_stand_for_their_bytes(rt: HostRuntime) -> Result<(), Fail> {
    for (template, wanted) in [
        ("$0", "ab-cd-"),
        ("$1 $2", "ab cd"),
        ("$first.${first}.${2}!", "ab.ab.cd!"),
        ("${1}1$2", "ab1cd"),
        // A group that took no part, groups that aren't there, and names of none.
        ("[$3][$4][${99}][$none][${}][${a b}]", "[][][][][][]"),
        ("", ""),
        ("plain", "plain"),
    ] {
        assert!(rt; stands_for(rt.alloc(), template.as_bytes(), wanted.as_bytes())?);
    }
    Ok(())
}

#[test]
fn names_are_as_long_as_they_can_be(rt: HostRuntime) -> Result<(), Fail> {
    for (template, wanted) in [
        ("$1a", ""),
        ("$1_$2", "cd"),
        ("$10", ""),
        ("$first_", ""),
        ("$firsté", "abé"),
        ("${1a}", ""),
        ("$01", "ab"),
        ("${+1}", "ab"),
        ("${ 1}", ""),
        ("${-1}", ""),
        // 2^64 is no index, but a name.
        ("$18446744073709551616", ""),
        ("$18446744073709551617", ""),
    ] {
        assert!(rt; stands_for(rt.alloc(), template.as_bytes(), wanted.as_bytes())?);
    }
    Ok(())
}

#[test]
fn dollars_without_a_reference_stand_for_themselves(rt: HostRuntime) -> Result<(), Fail> {
    for (template, wanted) in [
        ("$$", "$"),
        ("$$$$", "$$"),
        ("$$1", "$1"),
        ("$$$1", "$ab"),
        ("$", "$"),
        ("a$", "a$"),
        ("$ $-$.", "$ $-$."),
        ("${", "${"),
        ("${1", "${1"),
        ("${1 $2", "${1 cd"),
        ("$}", "$}"),
        ("{$1}", "{ab}"),
        ("${$1}", ""),
        ("${1}}", "ab}"),
    ] {
        assert!(rt; stands_for(rt.alloc(), template.as_bytes(), wanted.as_bytes())?);
    }
    Ok(())
}

#[test]
fn names_that_are_no_text_begin_no_reference(rt: HostRuntime) -> Result<(), Fail> {
    assert!(rt; stands_for(rt.alloc(), b"${\xFF}$1", b"${\xFF}ab")?);
    assert!(rt; stands_for(rt.alloc(), b"\xFF$1\xFF", b"\xFFab\xFF")?);
    Ok(())
}

#[test]
fn captures_without_slots_stand_for_nothing(rt: HostRuntime) -> Result<(), Fail> {
    let program = program(rt.alloc())?;
    let captures = Captures::empty(rt.alloc(), program.nfa().group_info().clone()?)?;
    let mut out = Vec::new(rt.alloc());
    expand(&mut out, TEXT, &captures, b"[$0$first]")?;
    assert!(rt; out.as_slice() == b"[]".as_slice());
    Ok(())
}
