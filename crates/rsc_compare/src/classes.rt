//! The commands of units, byte sets, class maps and partitions.
ghost use Rattle.std.specs.Prelude.{◌≤◌, All};

use crate::answer::Answer;
use crate::line::{Line, NONE};
use crate::looks::{look, looks, matcher};
use crate::{commands, items, tokens};
use rsc_alphabet::{ByteClassSet, ByteClasses, ByteSet, Unit, classes_of_ranges};
use std::ops::Bound;

pub(crate) fn answer(name: &[u8], line: &mut Line<'_>, answer: &mut Answer) -> bool {
    answer_classes(name, line, answer) || answer_maps(name, line, answer)
}

fn answer_classes(name: &[u8], line: &mut Line<'_>, answer: &mut Answer) -> bool {
    commands! { name;
        b"unit" => describe_unit(answer, unit(line)),
        b"unit_is_byte" => answer.truth(unit(line).is_byte(line.byte(b' '))),
        b"unit_cmp" => answer.order(&unit(line), &unit(line)),
        b"byteset" => byte_set_script(line, answer),
        b"byteset_eq" => answer.truth(byte_set(line, b' ') == byte_set(line, b' ')),
        b"classset" => push_classes(answer, &class_set(line)),
        b"ranges" => push_classes(answer, &of_ranges(line)),
        b"ranges_at" => { let classes = of_ranges(line); push_classes_at(line, answer, &classes) },
        b"classes_of" => push_classes(answer, &of_looks(line)),
        b"classes_at" => { let classes = of_looks(line); push_classes_at(line, answer, &classes) },
    }
}

fn answer_maps(name: &[u8], line: &mut Line<'_>, answer: &mut Answer) -> bool {
    commands! { name;
        b"map_get" => push_classes(answer, &map(line)),
        b"map_info" => describe_map(answer, &map(line)),
        b"map_unit" => answer.shown(map(line).get_by_unit(unit(line))),
        b"map_iter" => { let map = map(line); items!(answer, " ", map.iter(), unit => push_unit(answer, unit)) },
        b"map_reps" => push_representatives(line, answer),
        b"map_elems" => push_elements(line, answer),
        b"map_debug" => answer.debug(&map(line)),
    }
}

fn unit(line: &mut Line<'_>) -> Unit {
    if line.eat(b" b") {
        Unit::u8(line.byte(NONE))
    } else {
        line.expect(b" ");
        Unit::eoi(line.up_to(b'e', 256))
    }
}

fn push_unit(answer: &mut Answer, unit: Unit) {
    match (unit.as_u8(), unit.as_eoi()) {
        (Some(byte), None) => tokens! { answer, ""; token("b"), byte(byte) },
        (None, Some(sentinel)) => tokens! { answer, ""; token("e"), shown(sentinel) },
        _ => answer.token("neither"),
    }
}

fn describe_unit(answer: &mut Answer, unit: Unit) {
    tokens! { answer; optional(unit.as_u8().map(usize::from)), optional(unit.as_eoi().map(usize::from)),
        shown(unit.as_usize()), truth(unit.is_eoi()), truth(unit.is_word_byte()), debug(&unit) }
}

fn byte_set(line: &mut Line<'_>, mark: u8) -> ByteSet {
    let members = line.bytes(mark);
    let mut set = ByteSet::empty();
    for byte in members.as_slice() {
        set.add(*byte);
    }
    set
}

fn byte_set_script(line: &mut Line<'_>, answer: &mut Answer) {
    let mut set = ByteSet::default();
    for _ in 0..line.tokens() {
        line.expect(b" ");
        match line.peek() {
            b'a' => set.add(line.byte(b'a')),
            b'r' => set.remove(line.byte(b'r')),
            _ => ask_byte_set(line, answer, &set),
        }
    }
}

fn ask_byte_set(line: &mut Line<'_>, answer: &mut Answer, set: &ByteSet) {
    match line.letter() {
        b'c' => answer.truth(set.contains(line.byte(NONE))),
        b'R' => answer.truth(set.contains_range(line.byte(NONE), line.byte(NONE))),
        b'i' => items!(answer, ",", set.iter(), byte => answer.byte(byte)),
        b'g' => push_runs(answer, set),
        b'e' => answer.truth(set.is_empty()),
        _ => line.refuse(),
    }
}

fn push_runs(answer: &mut Answer, set: &ByteSet) {
    items!(answer, ",", set.iter_ranges(), (start, end) => tokens! { answer, "-"; byte(start), byte(end) })
}

fn push_classes(answer: &mut Answer, classes: &ByteClasses) {
    let outer = answer.open("");
    for byte in 0..=255u8 {
        answer.byte(classes.get(byte));
    }
    answer.close(outer);
}

fn push_classes_at(line: &mut Line<'_>, answer: &mut Answer, classes: &ByteClasses) {
    let mut bytes = line.bytes(b' ');
    for byte in bytes.as_mut_slice() {
        *byte = classes.get(*byte);
    }
    answer.bytes(bytes.as_slice());
}

fn class_set(line: &mut Line<'_>) -> ByteClasses {
    let matcher = matcher(line);
    let mut set = ByteClassSet::default();
    for _ in 0..line.tokens() {
        line.expect(b" ");
        match line.letter() {
            b'r' => {
                let (start, end) = range(line);
                set.set_range(start, end);
            }
            b's' => set.add_set(&byte_set(line, NONE)),
            b'l' => matcher.add_to_byteset(look(line, NONE), &mut set),
            _ => line.refuse(),
        }
    }
    set.byte_classes()
}

fn of_looks(line: &mut Line<'_>) -> ByteClasses {
    let matcher = matcher(line);
    matcher.classes_of(looks(line).as_slice())
}

fn of_ranges(line: &mut Line<'_>) -> ByteClasses {
    line.begin_bytes(b' ');
    classes_of_ranges(ranges(line).as_slice())
}

fn ranges(line: &mut Line<'_>) -> Vec<(u8, u8)>
    ensures { All (λ r. r.0 ≤ r.1) result.items }
{
    let mut ranges = Vec::new(line.alloc());
    for _ in 0..u64::MAX {
        if !line.has_digit() {
            break;
        }
        let range = range(line);
        if ranges.push(range).is_err() {
            line.lack_memory();
        }
    }
    ranges
}

// Reads two bytes, the first of which is at most the last.
fn range(line: &mut Line<'_>) -> (u8, u8)
    ensures { result.0 ≤ result.1 }
{
    let start = line.byte(NONE);
    let end = line.byte(NONE);
    if start <= end {
        (start, end)
    } else {
        line.refuse();
        (0, 0)
    }
}

fn map(line: &mut Line<'_>) -> ByteClasses {
    let mut classes = base(line);
    if line.peek() == b':' {
        line.begin_bytes(b':');
        for _ in 0..u64::MAX {
            if !line.has_digit() {
                break;
            }
            classes.set(line.byte(NONE), line.byte(NONE));
        }
    }
    classes
}

fn base(line: &mut Line<'_>) -> ByteClasses {
    if line.eat(b" empty") {
        ByteClasses::empty()
    } else if line.eat(b" singletons") {
        ByteClasses::singletons()
    } else if line.eat(b" default") {
        ByteClasses::default()
    } else {
        written_out(line)
    }
}

fn written_out(line: &mut Line<'_>) -> ByteClasses {
    line.expect(b" ");
    let mut map = ByteClasses::empty();
    for byte in 0..=255u8 {
        map.set(byte, line.byte(NONE));
    }
    map
}

fn describe_map(answer: &mut Answer, classes: &ByteClasses) {
    tokens! { answer; shown(classes.alphabet_len()), shown(classes.stride2()), truth(classes.is_singleton()) }
    push_unit(answer, classes.eoi());
}

fn push_representatives(line: &mut Line<'_>, answer: &mut Answer) {
    let (classes, start, end) = (map(line), bound(line), bound(line));
    items!(answer, " ", classes.representatives(start, end), unit => push_unit(answer, unit))
}

fn push_elements(line: &mut Line<'_>, answer: &mut Answer) {
    let (classes, class) = (map(line), unit(line));
    items!(answer, " ", classes.elements(class), unit => push_unit(answer, unit))
}

fn bound(line: &mut Line<'_>) -> Bound<u8> {
    if line.eat(b" u") {
        Bound::Unbounded
    } else if line.eat(b" i") {
        Bound::Included(line.byte(NONE))
    } else {
        line.expect(b" ");
        Bound::Excluded(line.byte(b'x'))
    }
}
