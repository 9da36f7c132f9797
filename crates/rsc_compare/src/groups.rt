//! The commands of group infos, and how group lists are read.
ghost use Rattle.std.specs.Prelude.{◌≤◌};
ghost use Rattle.rsc_primitives.specs.Indices.{max_index};

use crate::answer::Answer;
use crate::line::{Line, NONE};
use crate::{commands, hints, items, list, tokens};
use rsc_captures::{GroupInfo, GroupInfoError, GroupInfoErrorKind};
use rsc_notation::groups::slices_of;
use rsc_primitives::PatternID;
use std::alloc::{AllocError, Global};

pub(crate) fn answer(name: &[u8], line: &mut Line<'_>, answer: &mut Answer) -> bool {
    commands! { name;
        b"groups" => describe(line, answer, GREATEST_LIMIT),
        b"limited" => { let limit = line.up_to(b' ', GREATEST_LIMIT); describe(line, answer, limit) },
        b"gi" => script_of(line, answer),
        b"gi_empty" => if let Some(info) = line.kept(GroupInfo::empty(line.alloc())) { script(line, answer, info) },
    }
}

type Names = Vec<Option<String>>;

/// The limit on slots that no caller chose, and the greatest that one may choose.
pub const GREATEST_LIMIT: usize = PatternID::LIMIT - 1;

/// Reads group lists; returns their group info where no more slots than the limit are allowed, or its refusal.
pub fn group_info(line: &mut Line<'_>, limit: usize) -> Result<GroupInfo, GroupInfoError>
    requires { limit ≤ max_index }
{
    let patterns = patterns(line);
    let lent = lend(line.alloc(), patterns.as_slice())?;
    let lists = slices_of(line.alloc(), lent.as_slice())?;
    GroupInfo::new_limited(line.alloc(), limit, lists.as_slice())
}

/// Tells that memory ran out, if a refusal says so.
pub fn note_refusal(line: &mut Line<'_>, refusal: &GroupInfoError) {
    if let GroupInfoErrorKind::OutOfMemory = refusal.kind() {
        line.lack_memory();
    }
}

fn lend<'a>(alloc: Global, patterns: &'a [Names]) -> Result<Vec<Vec<Option<&'a str>>>, AllocError> {
    let mut lent = Vec::new(alloc);
    for names in patterns {
        lent.push(names.iter().map(|name| name.as_deref()).collect(alloc)?)?;
    }
    Ok(lent)
}

fn patterns(line: &mut Line<'_>) -> Vec<Names> {
    list!(line, b';', b'.', _ => names(line))
}

fn names(line: &mut Line<'_>) -> Names {
    list!(line, b',', b'!', _ => name(line))
}

// Reads a mark and `_` for no name, or `=` and a name's bytes.
fn name(line: &mut Line<'_>) -> Option<String> {
    let _ = line.letter();
    if line.eat(b"_") {
        return None;
    }
    line.expect(b"=");
    let bytes = line.digits();
    Some(line.text_of(bytes))
}

fn describe(line: &mut Line<'_>, answer: &mut Answer, limit: usize)
    requires { limit ≤ max_index }
{
    match group_info(line, limit) {
        Ok(info) => {
            answer.token("ok");
            push_counts(answer, &info);
            push_first_slots(answer, &info);
        }
        Err(refusal) => push_refusal(line, answer, refusal),
    }
}

fn push_refusal(line: &mut Line<'_>, answer: &mut Answer, refusal: GroupInfoError) {
    note_refusal(line, &refusal);
    tokens! { answer; token("err"), shown(refusal) }
}

fn script_of(line: &mut Line<'_>, answer: &mut Answer) {
    match group_info(line, GREATEST_LIMIT) {
        Ok(info) => script(line, answer, info),
        Err(refusal) => {
            push_refusal(line, answer, refusal);
            line.skip();
        }
    }
}

fn script(line: &mut Line<'_>, answer: &mut Answer, mut info: GroupInfo) {
    for _ in 0..line.tokens() {
        line.expect(b" ");
        match line.letter() {
            b'k' => line.replace(info.clone(), &mut info),
            letter => ask(line, answer, &info, letter),
        }
    }
}

fn ask(line: &mut Line<'_>, answer: &mut Answer, info: &GroupInfo, letter: u8) {
    match letter {
        b'q' => push_counts(answer, info),
        b'A' => push_all_names(answer, info),
        _ => ask_of(line, answer, info, letter),
    }
}

fn ask_of(line: &mut Line<'_>, answer: &mut Answer, info: &GroupInfo, letter: u8) {
    let pid = line.pattern(NONE);
    match letter {
        b'g' => answer.shown(info.group_len(pid)),
        b'P' => push_names(answer, info, pid),
        b'i' => answer.optional(info.to_index(pid, line.text(b':').as_str())),
        b'n' => answer.name(info.to_name(pid, line.number(b':'))),
        b's' => answer.optional(info.slot(pid, line.number(b':'))),
        b'S' => push_slots(answer, info.slots(pid, line.number(b':'))),
        _ => line.refuse(),
    }
}

fn push_slots(answer: &mut Answer, slots: Option<(usize, usize)>) {
    match slots {
        Some((start, end)) => tokens! { answer, ":"; shown(start), shown(end) },
        None => answer.token("_"),
    }
}

fn push_counts(answer: &mut Answer, info: &GroupInfo) {
    tokens! { answer, ":"; shown(info.pattern_len()), shown(info.all_group_len()), shown(info.slot_len()),
        shown(info.implicit_slot_len()), shown(info.explicit_slot_len()) }
}

fn push_first_slots(answer: &mut Answer, info: &GroupInfo) {
    let outer = answer.open(";");
    for pid in PatternID::iter(info.pattern_len()) {
        push_slots_of(answer, info, pid);
    }
    answer.close(outer);
}

fn push_slots_of(answer: &mut Answer, info: &GroupInfo, pid: PatternID) {
    let outer = answer.open(",");
    for group in 0..info.group_len(pid) {
        answer.optional(info.slot(pid, group));
    }
    answer.close(outer);
}

fn push_names(answer: &mut Answer, info: &GroupInfo, pid: PatternID) {
    let outer = answer.open("/");
    items!(answer, ",", info.pattern_names(pid), name => answer.name(name));
    hints!(answer, info.pattern_names(pid));
    answer.close(outer);
}

fn push_all_names(answer: &mut Answer, info: &GroupInfo) {
    items!(answer, ",", info.all_names(), (pid, group, name) =>
        tokens! { answer, ":"; shown(pid.as_usize()), shown(group), name(name) })
}
