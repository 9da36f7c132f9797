//! Captures: slots written by a match and read back by group and by name, and parts cut out of a haystack.
ghost use Rattle.std.specs.Prelude.{◌≡◌, ◌+◌, ◌*◌, ◌<◌, ◌≤◌, ◌∷◌, [], ℕ, List, All, IsTrue, IfSome, IfOk, Some, None, drop, length, slice_index_or, slice_set, slice_range};
ghost use Rattle.std.specs.Option.{option_map};
ghost use Rattle.rsc_search.specs.declared.span.Span as spans;
ghost use Rattle.rsc_search.specs.Spans.{cut_text};
ghost use Rattle.rsc_captures.specs.Groups.{all_group_count, group_count, groups_of, index_of, slot_number};
ghost use Rattle.rsc_captures.specs.Captured.{group_span, matched_group_count, matched_spans, participating_spans, pieces, span_at};
ghost use Rattle.rsc_uses.specs.Replaced.{replaced};

use rsc_captures::{Captures, GroupInfo, laws};
use rsc_primitives::{NonMaxUsize, PatternID};
use rsc_search::{Match, Span};
use std::alloc::{AllocError, Global};

/// Writes one slot.
pub fn write_slot(captures: &mut Captures, slot: usize, offset: NonMaxUsize)
    requires { slot < length captures.old.offsets }
    ensures { captures.new ≡ record captures.old { offsets = slice_set captures.old.offsets slot (Some offset) } }
{
    captures.slots_mut()[slot] = Some(offset);
}

/// Writes both slots of a group, in captures with room for all groups: no test at run time is needed.
pub fn write_span(
    captures: &mut Captures,
    pid: PatternID,
    group: usize,
    start: NonMaxUsize,
    end: NonMaxUsize,
)
    requires room { length captures.old.offsets ≡ 2 * all_group_count captures.old.groups }
    requires group { group < group_count captures.old.groups pid }
    ensures within { slot_number captures.old.groups pid group + 1 < length captures.old.offsets }
    ensures written { captures.new ≡ record captures.old {
      offsets = slice_set (slice_set captures.old.offsets (slot_number captures.old.groups pid group) (Some start))
          (slot_number captures.old.groups pid group + 1) (Some end);
    } }
{
    if let Some((first, second)) = captures.group_info().slots(pid, group) {
        write_slot(captures, first, start);
        write_slot(captures, second, end);
    }
}

/// Writes a group's span into new captures, and reads it back: the span that comes out is the one that went in.
pub fn write_and_read(
    alloc: Global,
    info: GroupInfo,
    pid: PatternID,
    group: usize,
    start: NonMaxUsize,
    end: NonMaxUsize,
) -> Result<Option<Span>, AllocError>
    requires pattern { pid < length info }
    requires group { group < group_count info pid }
    ensures { IfOk result (λ span. span ≡ Some (record { start = start; end = end })) }
{
    let mut captures = Captures::all(alloc, info)?;
    captures.set_pattern(Some(pid));
    write_span(&mut captures, pid, group, start, end);
    Ok(captures.get_group(group))
}

/// Writes the whole match of a pattern into new captures, and reads the match back.
pub fn write_match(
    alloc: Global,
    info: GroupInfo,
    pid: PatternID,
    start: NonMaxUsize,
    end: NonMaxUsize,
) -> Result<Option<Match>, AllocError>
    requires pattern { pid < length info }
    requires whole { 0 < group_count info pid }
    requires order { start ≤ end }
    ensures { IfOk result (λ found. found ≡ Some (record { pattern = pid; span = record { start = start; end = end } })) }
{
    let mut captures = Captures::all(alloc, info)?;
    captures.set_pattern(Some(pid));
    write_span(&mut captures, pid, 0, start, end);
    Ok(captures.get_match())
}

/// The offsets of a named group: what its two slots hold. `None` where the pattern has no group of that name.
pub fn offsets_of_name(
    captures: &Captures,
    pid: PatternID,
    name: &str,
) -> Option<(Option<NonMaxUsize>, Option<NonMaxUsize>)>
    requires { length captures.now.offsets ≡ 2 * all_group_count captures.now.groups }
    ensures { result ≡ option_map (λ group. (
      slice_index_or captures.now.offsets (slot_number captures.now.groups pid group) None,
      slice_index_or captures.now.offsets (slot_number captures.now.groups pid group + 1) None,
    ))
        (index_of (groups_of captures.now.groups pid) name.now) }
{
    let group = captures.group_info().to_index(pid, name)?;
    let (first, second) = captures.group_info().slots(pid, group)?;
    Some((captures.slots()[first], captures.slots()[second]))
}

/// Whether a group's slots are among all slots: they are.
pub fn slots_within(info: &GroupInfo, pid: PatternID, group: usize) -> bool
    ensures { IsTrue result }
{
    match info.slots(pid, group) {
        Some((_, second)) => second < info.slot_len(),
        None => true,
    }
}

/// Whether groups of different patterns have different slots: they have.
pub fn slots_apart(
    info: &GroupInfo,
    pid: PatternID,
    group: usize,
    other: PatternID,
    other_group: usize,
) -> bool
    requires { ¬ (pid ≡ other) }
    ensures { IsTrue result }
{
    laws::slots_are_apart();
    match (info.slot(pid, group), info.slot(other, other_group)) {
        (Some(slot), Some(other_slot)) => slot != other_slot,
        _ => true,
    }
}

/// Whether each pattern has a group, the whole match: it has.
pub fn has_whole(info: &GroupInfo, pid: PatternID) -> bool
    requires { pid < length info.now }
    ensures { IsTrue result }
{
    info.group_len(pid) > 0
}

/// Whether a named group is one of its pattern's groups: it is.
pub fn index_within(info: &GroupInfo, pid: PatternID, name: &str) -> bool
    ensures { IsTrue result }
{
    match info.to_index(pid, name) {
        Some(index) => index < info.group_len(pid),
        None => true,
    }
}

/// How many names the iterator over all patterns gives, `None` for a group without one: one for each group.
pub fn count_names(info: &GroupInfo) -> usize
    ensures { result ≡ all_group_count info.now }
{
    info.all_names().count()
}

/// How many spans the iterator gives: one for each group of the pattern that matched.
pub fn count_spans(captures: &Captures) -> usize
    ensures { result ≡ matched_group_count captures.now }
{
    captures.iter().len()
}

/// The spans of the pattern that matched, group by group.
pub fn spans(alloc: Global, captures: &Captures) -> Result<Vec<Option<Span>>, AllocError>
    ensures { IfOk result (λ spans. spans.items ≡ matched_spans captures.now) }
{
    captures.iter().collect(alloc)
}

/// Whether what the iterator gives at an index is the span of the group of that number: it is.
pub fn iterator_agrees(alloc: Global, captures: &Captures, index: usize) -> Result<bool, AllocError>
    ensures { IfOk result (λ agrees. IsTrue agrees) }
{
    laws::spans_by_index();
    let spans = spans(alloc, captures)?;
    Ok(index >= spans.len() || spans[index] == captures.get_group(index))
}

/// The key and the value of a match of `(\w+)=(\w+)`: parts of the haystack itself, nothing is copied. `None` where one of the groups
/// took no part.
pub fn key_and_value<'h>(captures: &Captures, haystack: &'h str) -> Option<(&'h str, &'h str)>
    ensures { option_map (λ parts. parts.0.now ∷ parts.1.now ∷ []) result
        ≡ option_map (drop 1) (pieces (cut_text haystack.now) 3 (participating_spans captures.now)) }
{
    let (_, [key, value]) = captures.extract_from::<&str, 2>(haystack)?;
    Some((key, value))
}

/// Where the bytes of each span are those of the replacement already, replacing them gives the haystack.
pub fn replacing_by_the_same_changes_nothing()
    ensures { (haystack replacement : List ℕ) (spans : List spans.Span) →
        All (λ s. (s.start ≤ s.end) × (s.end ≤ length haystack)) spans →
        All (λ s. slice_range haystack s.start s.end ≡ replacement) spans → replaced haystack replacement 0 spans ≡ haystack }
{}

/// A text with each span of a list replaced: the bytes between the spans stay. A span that begins before the last one's end is passed
/// over.
pub fn replace_all(
    alloc: Global,
    haystack: &[u8],
    spans: &[Span],
    replacement: &[u8],
) -> Result<Vec<u8>, AllocError>
    requires within { All (λ s. (s.start ≤ s.end) × (s.end ≤ length haystack.now)) spans.now }
    ensures { IfOk result (λ text. text.items ≡ replaced haystack.now replacement.now 0 spans.now) }
{
    let mut text = Vec::new(alloc);
    let mut from = 0;
    for span in spans {
        if from <= span.start {
            text.extend_from_slice(&haystack[from..span.start])?;
            text.extend_from_slice(replacement)?;
            from = span.end;
        }
    }
    text.extend_from_slice(&haystack[from..])?;
    Ok(text)
}

/// Sets a whole match and two groups, and leaves the spans of all other groups; whether it could.
pub fn set_pair(captures: &mut Captures, whole: Span, name: Span, value: Span) -> bool
    ensures whole { IsTrue result → group_span captures.new 0 ≡ Some whole }
    ensures name { IsTrue result → group_span captures.new 1 ≡ Some name }
    ensures value { IsTrue result → group_span captures.new 2 ≡ Some value }
    ensures others { (other : ℕ) → 2 < other → group_span captures.new other ≡ group_span captures.old other }
{
    captures.set_group(0, Some(whole))
        && captures.set_group(1, Some(name))
        && captures.set_group(2, Some(value))
}
