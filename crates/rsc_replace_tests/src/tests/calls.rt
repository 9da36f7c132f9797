//! The calls that replace: between matches, at both ends of a text, at empty matches, with several patterns, and why nothing is replaced.
use crate::made::{first_wrong, part_of};
use rsc_engine::{Builder, Error, Program};
use rsc_look::AsciiWord;
use rsc_replace::{replace_all, replace_part, replacen};
use std::alloc::Global;
use std::test::Fail;

#[test]
fn all_matches_are_replaced(rt: HostRuntime) -> Result<(), Fail> {
    let rows = [
        // The original's examples of replacements: two words in the other order, and named groups.
        "W+G ,W+K,\t$2 $1\tab cd\tcd ab",
        "W+G ,W+K,\t${key}_$1\tab cd, e f\tcd_ab, f_e",
        // No match, the whole text, both ends, and a match replaced by nothing.
        "a\t-\tbcb\tbcb",
        "W+\t<$0>\tabc\t<abc>",
        "a\t-\tabba\t-bb-",
        "a\t\tabba\tbb",
        "a\t-\t\t",
    ];
    assert!(rt; first_wrong(rt.alloc(), &rows)?.is_none());
    Ok(())
}

#[test]
fn each_match_has_its_own_groups(rt: HostRuntime) -> Result<(), Fail> {
    let rows = [
        "aGbG|\t[$1|$2]\tabca\t[a|][|b]c[a|]",
        "aGbG|+\t[$1|$2]\tab b a\t[a|b] [|b] [a|]",
    ];
    assert!(rt; first_wrong(rt.alloc(), &rows)?.is_none());
    Ok(())
}

#[test]
fn empty_matches_are_replaced(rt: HostRuntime) -> Result<(), Fail> {
    let rows = [
        "a*\t<$0>\tbaaé\t<>b<aa>é<>",
        "aS\t-\taé\t-a-é-",
        "B\t|\tab cé\t|ab| |c|é",
        "Z\t.\té\té.",
    ];
    assert!(rt; first_wrong(rt.alloc(), &rows)?.is_none());
    Ok(())
}

#[test]
fn names_are_those_of_the_pattern_that_matched(rt: HostRuntime) -> Result<(), Fail> {
    let mut builder = Builder::new(rt.alloc());
    let keyed = part_of(rt.alloc(), &builder, "aaK,")?;
    builder.add_pattern(keyed)?;
    let other = part_of(rt.alloc(), &builder, "bGcK,")?;
    let program = builder.build(AsciiWord, true, other)?;
    let out = replace_all(rt.alloc(), &program, b"aa-bc", b"[$key $1 $2]")?;
    assert!(rt; out.as_slice() == b"[a a ]-[c b c]".as_slice());
    Ok(())
}

// Whether as many matches of a program in `abab a` are replaced.
fn is_replaced(
    alloc: Global,
    program: &Program<AsciiWord>,
    limit: usize,
    wanted: &str,
) -> Result<bool, Error> {
    let out = replacen(alloc, program, b"abab a", limit, b"<$1>")?;
    Ok(out.as_slice() == wanted.as_bytes())
}

#[test]
fn a_limit_replaces_the_first_matches(rt: HostRuntime) -> Result<(), Fail> {
    let builder = Builder::new(rt.alloc());
    let part = part_of(rt.alloc(), &builder, "aG")?;
    let program = builder.build(AsciiWord, true, part)?;
    assert!(rt; is_replaced(rt.alloc(), &program, 1, "<a>bab a")?);
    assert!(rt; is_replaced(rt.alloc(), &program, 2, "<a>b<a>b a")?);
    assert!(rt; is_replaced(rt.alloc(), &program, 3, "<a>b<a>b <a>")?);
    // More than there are; and 0 means all.
    assert!(rt; is_replaced(rt.alloc(), &program, usize::MAX, "<a>b<a>b <a>")?);
    assert!(rt; is_replaced(rt.alloc(), &program, 0, "<a>b<a>b <a>")?);
    Ok(())
}

#[test]
fn a_part_without_a_program_is_refused(rt: HostRuntime) -> Result<(), Fail> {
    let builder = Builder::new(rt.alloc());
    let twice = part_of(rt.alloc(), &builder, "aKbK,")?;
    let refused = replace_part(rt.alloc(), AsciiWord, twice, b"ab", b"-");
    assert!(rt; matches!(refused, Err(Error::RepeatedName)));
    Ok(())
}
