//! The commands of sets of assertions.

use crate::answer::Answer;
use crate::line::Line;
use crate::looks::look;
use crate::{commands, items, tokens};
use rsc_look::LookSet;

pub(crate) fn answer(name: &[u8], line: &mut Line<'_>, answer: &mut Answer) -> bool {
    commands! { name;
        b"lookset" => push_description(answer, look_set(line)),
        b"lookset_contains" => answer.truth(look_set(line).contains(look(line, b' '))),
        b"lookset_op" => operate(line, answer),
        b"lookset_eq" => answer.truth(look_set(line) == look_set(line)),
        b"lookset_make" => { let set = made(line); answer.shown(set.bits()); push_description(answer, set) },
        b"lookset_from_bits" => from_bits(line, answer),
        b"lookset_available" => push_availability(answer, look_set(line).available().is_ok()),
    }
}

/// Adds `ok` or `refused`.
pub fn push_availability(answer: &mut Answer, is_ok: bool) {
    answer.token(if is_ok { "ok" } else { "refused" });
}

/// Reads the sum of the numbers of a set's assertions.
pub fn look_set(line: &mut Line<'_>) -> LookSet {
    let set = LookSet::from_bits(line.number_u32(b' '));
    line.found(set, LookSet::empty())
}

fn from_bits(line: &mut Line<'_>, answer: &mut Answer) {
    match LookSet::from_bits(line.number_u32(b' ')) {
        Some(set) => answer.shown(set.bits()),
        None => answer.token("_"),
    }
}

// Reads how a set is made, by name or of one assertion.
fn made(line: &mut Line<'_>) -> LookSet {
    if line.eat(b" empty") {
        LookSet::empty()
    } else if line.eat(b" default") {
        LookSet::default()
    } else if line.eat(b" full") {
        LookSet::full()
    } else {
        LookSet::singleton(look(line, b' '))
    }
}

fn push_description(answer: &mut Answer, set: LookSet) {
    tokens! { answer; shown(set.len()), truth(set.is_empty()) }
    tokens! { answer, ""; truth(set.contains_anchor()), truth(set.contains_anchor_haystack()), truth(set.contains_anchor_line()),
        truth(set.contains_anchor_lf()), truth(set.contains_anchor_crlf()), truth(set.contains_word()),
        truth(set.contains_word_unicode()), truth(set.contains_word_ascii()) }
    items!(answer, ",", set.iter(), look => answer.shown(look.as_repr()));
    answer.debug(&set);
}

fn operate(line: &mut Line<'_>, answer: &mut Answer) {
    if line.eat(b" insert") {
        let (mut set, member) = (look_set(line), look(line, b' '));
        answer.shown(set.insert(member).bits());
        set.set_insert(member);
        answer.shown(set.bits());
    } else if line.eat(b" remove") {
        let (mut set, member) = (look_set(line), look(line, b' '));
        answer.shown(set.remove(member).bits());
        set.set_remove(member);
        answer.shown(set.bits());
    } else {
        combine(line, answer);
    }
}

fn combine(line: &mut Line<'_>, answer: &mut Answer) {
    line.expect(b" ");
    let operation = line.token();
    let (mut set, other) = (look_set(line), look_set(line));
    if operation == b"union".as_slice() {
        answer.shown(set.union(other).bits());
        set.set_union(other);
    } else if operation == b"intersect".as_slice() {
        answer.shown(set.intersect(other).bits());
        set.set_intersect(other);
    } else if operation == b"subtract".as_slice() {
        answer.shown(set.subtract(other).bits());
        set.set_subtract(other);
    } else {
        line.refuse();
    }
    answer.shown(set.bits());
}
