//! Lists with and without faults, slots, names: values from outside.
ghost use Rattle.std.specs.Prelude.{◌≤◌};

use rsc_captures::{GroupInfo, laws};
use rsc_primitives::PatternID;
use std::alloc::Global;
use std::test::Fail;

/// Twelve groups, of which ten have names.
pub(super) const NAMES: [Option<&str>; 12] = [
    None,
    Some("b"),
    Some("c"),
    None,
    Some("e"),
    Some("f"),
    Some("g"),
    Some("h"),
    Some("i"),
    Some("j"),
    Some("k"),
    Some("l"),
];

fn pattern(p: usize) -> PatternID
    requires { p ≤ 2147483646 }
{
    PatternID::must(p)
}

// Two patterns of two and three groups, of which the last is named in each.
fn two_patterns(alloc: Global) -> Result<GroupInfo, Fail> {
    Ok(GroupInfo::new(alloc, &[&[None, Some("x")], &[None, None, Some("x")]])?)
}

#[test]
fn counts_patterns_groups_and_slots(rt: HostRuntime) -> Result<(), Fail> {
    let info = two_patterns(rt.alloc())?;
    let of_each = [
        info.group_len(pattern(0)),
        info.group_len(pattern(1)),
        info.group_len(pattern(2)),
    ];
    let of_all = [
        info.pattern_len(),
        info.all_group_len(),
        info.slot_len(),
        info.implicit_slot_len(),
        info.explicit_slot_len(),
    ];
    assert_eq!(rt; (of_each, of_all), ([2, 3, 0], [2, 5, 10, 4, 6]));
    laws::one_first_fault();
    Ok(())
}

#[test]
fn numbers_slots(rt: HostRuntime) -> Result<(), Fail> {
    let info = two_patterns(rt.alloc())?;
    let (first, second, unknown) = (pattern(0), pattern(1), pattern(2));
    let of_first = [
        info.slot(first, 0),
        info.slot(first, 1),
        info.slot(first, 2),
    ];
    let of_second = [
        info.slot(second, 0),
        info.slot(second, 1),
        info.slot(second, 2),
    ];
    let of_none = [
        info.slot(unknown, 0),
        info.slot(first, 18446744073709551615),
    ];
    assert!(rt;
        of_first == [Some(0), Some(4), None]
            && of_second == [Some(2), Some(6), Some(8)]
            && of_none == [None; 2]
            && info.slots(second, 2) == Some((8, 9))
    );
    Ok(())
}

#[test]
fn no_group_has_the_greatest_index(rt: HostRuntime) -> Result<(), Fail> {
    let info = GroupInfo::new(rt.alloc(), &[&[None]])?;
    assert!(rt; info.slot(pattern(0), 18446744073709551615) == None);
    assert!(rt; info.to_name(pattern(0), 18446744073709551615) == None);
    Ok(())
}

#[test]
fn names_are_local_to_their_pattern(rt: HostRuntime) -> Result<(), Fail> {
    let info = two_patterns(rt.alloc())?;
    let (first, second, unknown) = (pattern(0), pattern(1), pattern(2));
    let indices = [
        info.to_index(first, "x"),
        info.to_index(second, "x"),
        info.to_index(unknown, "x"),
        info.to_index(first, ""),
    ];
    let names = [
        info.to_name(second, 2),
        info.to_name(second, 1),
        info.to_name(second, 18446744073709551615),
    ];
    let is_none = info.pattern_names(unknown).next() == None;
    let are_found = indices == [Some(1), Some(2), None, None] && names == [Some("x"), None, None];
    assert!(rt; are_found && is_none);
    Ok(())
}

#[test]
fn iterates_over_the_names_of_a_pattern(rt: HostRuntime) -> Result<(), Fail> {
    let info = two_patterns(rt.alloc())?;
    let mut names = info.pattern_names(pattern(1));
    let is_whole = names.size_hint() == (3, Some(3)) && names.len() == 3;
    let first = [names.next(), names.next(), names.next()];
    let rest = [names.next(), names.next()];
    let are_three = first == [Some(None), Some(None), Some(Some("x"))];
    assert!(rt; is_whole && are_three && rest == [None, None] && names.len() == 0);
    Ok(())
}

#[test]
fn iterates_over_all_names(rt: HostRuntime) -> Result<(), Fail> {
    let info = two_patterns(rt.alloc())?;
    let (first, second) = (pattern(0), pattern(1));
    let mut all = info.all_names();
    for (pid, group, name) in [
        (first, 0, None),
        (first, 1, Some("x")),
        (second, 0, None),
        (second, 1, None),
        (second, 2, Some("x")),
    ] {
        assert!(rt;
            all.next() == Some((pid, group, name)),
            "group {group} of {pid:?}"
        );
    }
    assert!(rt; all.next() == None && all.next() == None);
    Ok(())
}

/// Groups with the names of a text that are parted by commas, and without one for "-".
pub(super) fn groups_of<'a>(alloc: Global, names: &'a str) -> Result<Vec<Option<&'a str>>, Fail> {
    let mut groups = Vec::new(alloc);
    for name in names.split(',') {
        groups.push(if name == "-" { None } else { Some(name) })?;
    }
    Ok(groups)
}

/// A dash and that many different names of eight bytes, parted by commas.
pub(super) fn names_of(alloc: Global, count: usize) -> Result<String, Fail> {
    let mut names = String::from_str(alloc, "-")?;
    for i in 0..count {
        names.push_str(format!(in alloc; ",n{i:07}")?.as_str())?;
    }
    Ok(names)
}

// Whether each group of pattern 0 has its name, and is found by it.
fn are_found(info: &GroupInfo, groups: &[Option<&str>]) -> bool {
    for (group, name) in groups.iter().enumerate() {
        if let Some(name) = name {
            if info.to_index(pattern(0), name) != Some(group) {
                return false;
            }
        }
        if info.to_name(pattern(0), group) != *name {
            return false;
        }
    }
    true
}

#[test]
fn finds_each_of_many_names(rt: HostRuntime) -> Result<(), Fail> {
    let names =
        "-,year,month,day,-,hour,minute,second,fraction,zone,offset_hours,offset_minutes,,größe,-,日";
    let groups = groups_of(rt.alloc(), names)?;
    let info = GroupInfo::new(rt.alloc(), &[&groups])?;
    assert!(rt; info.group_len(pattern(0)) == 16 && are_found(&info, &groups));
    for name in "years,yea,Year,offset_hour,0,fractions of a second,gr,größ,日本".split(',') {
        assert!(rt; info.to_index(pattern(0), name) == None, "{name}");
    }
    Ok(())
}

// Whether the list is refused with that text.
fn is_refused_as(alloc: Global, lists: &[&[Option<&str>]], want: &str) -> bool {
    let Err(error) = GroupInfo::new(alloc, lists) else {
        return false;
    };
    match error.to_string(alloc) {
        Ok(text) => text.as_str() == want,
        Err(_) => false,
    }
}

#[test]
fn refuses_missing_groups_and_named_first_groups(rt: HostRuntime) {
    let alloc = rt.alloc();
    let missing =
        "no capturing groups found for pattern 1 (either all patterns have zero groups or all patterns have at least one group)";
    let is_second = is_refused_as(alloc, &[&[None], &[]], missing);
    let missing =
        "no capturing groups found for pattern 0 (either all patterns have zero groups or all patterns have at least one group)";
    let is_first = is_refused_as(alloc, &[&[], &[None, Some("x"), Some("x")]], missing);
    let named = "first capture group (at index 0) for pattern 0 has a name (it must be unnamed)";
    let of_one = is_refused_as(alloc, &[&[Some("x")]], named);
    let of_two = is_refused_as(alloc, &[&[Some("x")], &[]], named);
    assert_eq!(rt; [is_second, is_first, of_one, of_two], [true; 4]);
}

#[test]
fn refuses_the_first_repeated_name(rt: HostRuntime) -> Result<(), Fail> {
    let alloc = rt.alloc();
    let duplicate = "duplicate capture group name 'x' found for pattern 0";
    let before_groups = is_refused_as(alloc, &[&[None, Some("x"), Some("x")], &[None]], duplicate);
    let before_none = is_refused_as(alloc, &[&[None, Some("x"), Some("x")], &[]], duplicate);
    let duplicate = "duplicate capture group name 'b' found for pattern 0";
    let groups = groups_of(alloc, "-,f,b,d,e,a,c,b,i,h,g,a")?;
    let is_first = is_refused_as(alloc, &[&groups], duplicate);
    assert_eq!(rt; [before_groups, before_none, is_first], [true; 3]);
    Ok(())
}

#[test]
fn refuses_a_repeated_name_of_a_later_pattern(rt: HostRuntime) {
    let alloc = rt.alloc();
    let duplicate = "duplicate capture group name 'y' found for pattern 1";
    let lists: [&[Option<&str>]; 2] = [&[None, Some("x")], &[None, Some("y"), None, Some("y")]];
    let letter = is_refused_as(alloc, &lists, duplicate);
    let duplicate = "duplicate capture group name '' found for pattern 1";
    let lists: [&[Option<&str>]; 2] = [&[None, Some("")], &[None, Some(""), Some("")]];
    assert!(rt; letter && is_refused_as(alloc, &lists, duplicate));
}

// Whether a limit makes this of the list: how many slots it has, or the displayed refusal.
fn is_limited_to(alloc: Global, limit: usize, lists: &[&[Option<&str>]], want: &str) -> bool
    requires { limit ≤ 2147483646 }
{
    let shown = match GroupInfo::new_limited(alloc, limit, lists) {
        Ok(info) => info.slot_len().to_string(alloc),
        Err(error) => error.to_string(alloc),
    };
    match shown {
        Ok(text) => text.as_str() == want,
        Err(_) => false,
    }
}

#[test]
fn keeps_to_the_limit_of_the_caller(rt: HostRuntime) {
    let alloc = rt.alloc();
    let two: [&[Option<&str>]; 2] = [&[None], &[None, None]];
    let six = is_limited_to(alloc, 6, &two, "6");
    let too_many = "too many capture groups (at least 2) were found for pattern 1";
    let five = is_limited_to(alloc, 5, &two, too_many);
    let too_many = "too many capture groups (at least 2) were found for pattern 0";
    let twice: [&[Option<&str>]; 1] = [&[None, Some("x"), Some("x")]];
    let of_twice = is_limited_to(alloc, 2, &twice, too_many);
    let duplicate = "duplicate capture group name 'x' found for pattern 0";
    let is_duplicate = is_limited_to(alloc, 4, &twice, duplicate);
    let missing =
        "no capturing groups found for pattern 2 (either all patterns have zero groups or all patterns have at least one group)";
    let lacking: [&[Option<&str>]; 3] = [&[None, None], &[None], &[]];
    let is_missing = is_limited_to(alloc, 4, &lacking, missing);
    assert_eq!(rt; [six, five, of_twice, is_duplicate, is_missing], [true; 5]);
}

#[test]
fn has_no_groups_without_patterns(rt: HostRuntime) -> Result<(), Fail> {
    let info = GroupInfo::empty(rt.alloc())?;
    assert_eq!(rt;
        info.slot_len() + info.pattern_len() + info.all_group_len(),
        0
    );
    assert!(rt; info.all_names().next() == None);
    Ok(())
}
