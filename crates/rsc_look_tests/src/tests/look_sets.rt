//! The assertions and sets of them.
use rsc_look::{Look, LookSet, UnicodeWordBoundaryError};
use std::alloc::Global;
use std::test::Fail;

// Each assertion, its number, its character and its reversed one.
const LOOKS: [(Look, u32, char, Look); 18] = [
    (Look::Start, 1, 'A', Look::End),
    (Look::End, 2, 'z', Look::Start),
    (Look::StartLF, 4, '^', Look::EndLF),
    (Look::EndLF, 8, '$', Look::StartLF),
    (Look::StartCRLF, 16, 'r', Look::EndCRLF),
    (Look::EndCRLF, 32, 'R', Look::StartCRLF),
    (Look::WordAscii, 64, 'b', Look::WordAscii),
    (Look::WordAsciiNegate, 128, 'B', Look::WordAsciiNegate),
    (Look::WordUnicode, 256, '𝛃', Look::WordUnicode),
    (Look::WordUnicodeNegate, 512, '𝚩', Look::WordUnicodeNegate),
    (Look::WordStartAscii, 1024, '<', Look::WordEndAscii),
    (Look::WordEndAscii, 2048, '>', Look::WordStartAscii),
    (Look::WordStartUnicode, 4096, '〈', Look::WordEndUnicode),
    (Look::WordEndUnicode, 8192, '〉', Look::WordStartUnicode),
    (Look::WordStartHalfAscii, 16384, '◁', Look::WordEndHalfAscii),
    (Look::WordEndHalfAscii, 32768, '▷', Look::WordStartHalfAscii),
    (
        Look::WordStartHalfUnicode,
        65536,
        '◀',
        Look::WordEndHalfUnicode,
    ),
    (
        Look::WordEndHalfUnicode,
        131072,
        '▶',
        Look::WordStartHalfUnicode,
    ),
];

#[test]
fn table_of_assertions(rt: HostRuntime) {
    for (look, repr, shown, reversed) in LOOKS {
        let numbers = (look.as_repr(), Look::from_repr(repr));
        let others = (look.as_char(), look.reversed());
        assert!(rt;
            numbers == (repr, Some(look)) && others == (shown, reversed),
            "{look:?}"
        );
    }
    for repr in [0, 3, 262143, 262144, u32::MAX] {
        assert!(rt; Look::from_repr(repr) == None, "at {repr}");
    }
}

// Whether a set has an assertion as long as it is a member, and a set that is made of it leaves it as it was.
fn is_member_while_inserted(look: Look) -> bool {
    let mut set = LookSet::default();
    let before = set.contains(look);
    set.set_insert(look);
    let within = set.contains(look);
    set.set_remove(look);
    let after = set.contains(look);
    let with = set.insert(look);
    let without = with.remove(look);
    let made = [
        set.contains(look),
        with.contains(look),
        without.contains(look),
    ];
    [before, within, after] == [false, true, false] && made == [false, true, false]
}

#[test]
fn look_set(rt: HostRuntime) {
    for (look, _, _, _) in LOOKS {
        assert!(rt; is_member_while_inserted(look), "{look:?}");
    }
}

// How many members a set's iterator gives, and how many the set tells.
fn counts_of(alloc: Global, set: LookSet) -> Result<(usize, usize), Fail> {
    let members = set.iter().collect::<Vec<Look>>(alloc)?;
    Ok((members.len(), set.len()))
}

// Whether the iterator of the full set gives each assertion in order, and then none.
fn are_all_given_in_order() -> bool {
    let mut looks = LookSet::full().iter();
    for (look, _, _, _) in LOOKS {
        if looks.next() != Some(look) {
            return false;
        }
    }
    [looks.next(), looks.next()] == [None, None]
}

#[test]
fn look_set_iter(rt: HostRuntime) -> Result<(), Fail> {
    for (set, want) in [
        (LookSet::empty(), 0),
        (LookSet::full(), 18),
        (
            LookSet::singleton(Look::StartLF).insert(Look::WordUnicode),
            2,
        ),
        (LookSet::singleton(Look::StartLF), 1),
        (LookSet::singleton(Look::WordAsciiNegate), 1),
        (LookSet::singleton(Look::WordEndHalfUnicode), 1),
    ] {
        assert!(rt; counts_of(rt.alloc(), set)? == (want, want), "{set:?}");
    }
    assert!(rt; are_all_given_in_order());
    Ok(())
}

#[test]
fn look_set_debug(rt: HostRuntime) -> Result<(), Fail> {
    for (set, want) in [
        (LookSet::empty(), "∅"),
        (LookSet::full(), "Az^$rRbB𝛃𝚩<>〈〉◁▷◀▶"),
        (
            LookSet::singleton(Look::WordUnicode).insert(Look::End),
            "z𝛃",
        ),
    ] {
        assert_eq!(rt; format!(in rt.alloc(); "{set:?}")?.as_str(), want);
    }
    Ok(())
}

// The bits of a set to which another is joined, less what it had before, and then what both have.
fn bits_when_joined(mut set: LookSet, other: LookSet) -> [u32; 3] {
    let before = set;
    set.set_union(other);
    let joined = set.bits();
    set.set_subtract(before);
    let added = set.bits();
    set.set_intersect(other);
    [joined, added, set.bits()]
}

#[test]
fn sets_of_assertions(rt: HostRuntime) {
    let lines = LookSet::singleton(Look::StartLF).insert(Look::EndLF);
    let starts = LookSet::singleton(Look::Start).insert(Look::StartLF);
    let is_full = LookSet::full().bits() == 262143 && LookSet::from_bits(262144) == None;
    assert!(rt; is_full && LookSet::from_bits(5) == Some(starts));
    let bits = [
        lines.union(starts).bits(),
        lines.intersect(starts).bits(),
        lines.subtract(starts).bits(),
        lines.remove(Look::StartLF).bits(),
    ];
    assert!(rt; bits == [13, 4, 8, 8] && bits_when_joined(lines, starts) == [13, 1, 1]);
    let is_empty = LookSet::full().subtract(LookSet::full()).is_empty();
    assert!(rt; is_empty && !LookSet::singleton(Look::Start).is_empty());
    let subsets = [
        lines.is_subset_of(lines),
        lines.remove(Look::EndLF).is_subset_of(starts),
        lines.is_subset_of(starts),
        LookSet::full().is_subset_of(lines),
        LookSet::empty().is_subset_of(LookSet::empty()),
    ];
    assert!(rt; subsets == [true, true, false, false, true]);
    let is_available = LookSet::full().available().is_ok();
    assert!(rt; is_available && UnicodeWordBoundaryError::check().is_ok());
}

// What the questions of a set answer: of the haystack, of lines that end in LF, in CRLF, in either, of anchors, then of words: of ASCII,
// of Unicode, of either.
fn answers_of(set: LookSet) -> [bool; 8] {
    [
        set.contains_anchor_haystack(),
        set.contains_anchor_lf(),
        set.contains_anchor_crlf(),
        set.contains_anchor_line(),
        set.contains_anchor(),
        set.contains_word_ascii(),
        set.contains_word_unicode(),
        set.contains_word(),
    ]
}

// The answers that a set of this assertion alone should give.
fn wanted_of(look: Look) -> [bool; 8] {
    let haystack = matches!(look, Look::Start | Look::End);
    let lf = matches!(look, Look::StartLF | Look::EndLF);
    let crlf = matches!(look, Look::StartCRLF | Look::EndCRLF);
    let ascii = matches!(
        look,
        Look::WordAscii
            | Look::WordAsciiNegate
            | Look::WordStartAscii
            | Look::WordEndAscii
            | Look::WordStartHalfAscii
            | Look::WordEndHalfAscii
    );
    let anchor = haystack || lf || crlf;
    let unicode = !anchor && !ascii;
    [
        haystack,
        lf,
        crlf,
        lf || crlf,
        anchor,
        ascii,
        unicode,
        !anchor,
    ]
}

// The sets of one member, and what is asked of them.
#[test]
fn questions_of_sets(rt: HostRuntime) {
    for (look, _, _, _) in LOOKS {
        let answers = answers_of(LookSet::singleton(look));
        assert!(rt; answers == wanted_of(look), "{look:?}");
    }
}
