//! The commands of pattern sets.

use crate::answer::Answer;
use crate::line::{Line, NONE};
use crate::{commands, items, tokens};
use rsc_search::{PatternSet, PatternSetIter};

pub(crate) fn answer(name: &[u8], line: &mut Line<'_>, answer: &mut Answer) -> bool {
    commands! { name;
        b"pset" => script(line, answer),
        b"pset_err" => push_refusal(line, answer),
        b"pset_eq" => if let (Some(a), Some(b)) = (set(line), set(line)) { answer.truth(a == b) },
    }
}

fn empty_set(line: &mut Line<'_>) -> Option<PatternSet> {
    let capacity = line.up_to(b' ', 2147483647);
    line.kept(PatternSet::new(line.alloc(), capacity))
}

fn script(line: &mut Line<'_>, answer: &mut Answer) {
    if let Some(mut set) = empty_set(line) {
        for _ in 0..line.tokens() {
            line.expect(b" ");
            operate(line, answer, &mut set);
        }
    }
}

fn operate(line: &mut Line<'_>, answer: &mut Answer, set: &mut PatternSet) {
    match line.letter() {
        b'i' => insert(line, answer, set),
        b't' => try_insert(line, answer, set),
        b'c' => answer.truth(set.contains(line.pattern(NONE))),
        b'x' => set.clear(),
        b'k' => replace_by_clone(line, answer, set),
        b'q' => push_sizes(answer, set),
        b'l' => items!(answer, ",", set.iter(), pid => answer.shown(pid.as_usize())),
        b'w' => push_steps(line, answer, set.iter()),
        _ => line.refuse(),
    }
}

fn replace_by_clone(line: &mut Line<'_>, answer: &mut Answer, set: &mut PatternSet) {
    if let Some(copy) = line.kept(set.clone()) {
        answer.truth(copy == *set);
        *set = copy;
    }
}

// Adds whether a pattern, which has to be below the capacity, is new.
fn insert(line: &mut Line<'_>, answer: &mut Answer, set: &mut PatternSet) {
    let pid = line.pattern(NONE);
    if pid.as_usize() < set.capacity() {
        answer.truth(set.insert(pid));
    } else {
        line.refuse();
    }
}

fn try_insert(line: &mut Line<'_>, answer: &mut Answer, set: &mut PatternSet) {
    match set.try_insert(line.pattern(NONE)) {
        Ok(is_new) => answer.truth(is_new),
        Err(_) => answer.token("!"),
    }
}

fn push_sizes(answer: &mut Answer, set: &PatternSet) {
    tokens! { answer, ":"; shown(set.len()), truth(set.is_empty()), truth(set.is_full()), shown(set.capacity()) }
}

fn push_steps(line: &mut Line<'_>, answer: &mut Answer, mut members: PatternSetIter<'_>) {
    let outer = answer.open(",");
    for letter in line.token() {
        match *letter {
            b'f' => answer.optional(members.next().map(|pid| pid.as_usize())),
            b'b' => answer.optional(members.next_back().map(|pid| pid.as_usize())),
            b'h' => answer.hint(members.size_hint()),
            b'n' => answer.shown(members.len()),
            b'c' => line.replace(members.clone(), &mut members),
            _ => line.refuse(),
        }
    }
    answer.close(outer);
}

fn push_refusal(line: &mut Line<'_>, answer: &mut Answer) {
    if let Some(mut set) = empty_set(line) {
        match set.try_insert(line.pattern(b' ')) {
            Ok(_) => line.refuse(),
            Err(refusal) => answer.shown(refusal),
        }
    }
}

fn set(line: &mut Line<'_>) -> Option<PatternSet> {
    let mut set = empty_set(line)?;
    for _ in 0..line.items(b',', b'.') {
        let mark = line.peek();
        if set.try_insert(line.pattern(mark)).is_err() {
            line.refuse();
        }
    }
    Some(set)
}
