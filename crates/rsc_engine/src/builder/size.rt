//! How many states a part will have, before they are made.
ghost use Rattle.std.specs.Prelude.{◌≡◌, ◌++◌, ◌∷◌, [], min, map};
ghost use Rattle.rsc_engine.specs.Patterns.{Repeat, sequence, one_of};
ghost use Rattle.rsc_engine.specs.Trees.{pattern_in};
ghost use Rattle.rsc_engine.specs.Sizes.{size_of, most_states};
ghost use Rattle.rsc_engine.specs.Parts.{pattern_of, groups_as_pattern};
ghost use Rattle.rsc_engine.specs.Refusals.{are_too_large};

use super::Part;
use super::tree::{Times, Tree, may_be_empty};
use rsc_primitives::{SmallIndex, StateID};

/// Whether the patterns and a last one will have more states than the limit, or more groups than there are slots for.
pub(crate) fn are_too_large(limit: usize, patterns: &[Part<'_>], last: &Part<'_>) -> bool
    ensures { result ≡ are_too_large (min limit most_states) (map pattern_of patterns.now ++ pattern_of last.now ∷ [])
        (map groups_as_pattern patterns.now ++ groups_as_pattern last.now ∷ []) }
{
    // Besides those of its part a pattern has three states, with a choice before the next pattern four.
    let mut states = size(&last.tree).saturating_add(3);
    let mut groups = last.names.len().saturating_add(1);
    for part in patterns {
        states = states.saturating_add(size(&part.tree)).saturating_add(4);
        groups = groups.saturating_add(part.names.len()).saturating_add(1);
    }
    // A group has two slots.
    (limit.min(StateID::LIMIT) < states) | (SmallIndex::LIMIT / 2 < groups)
}

/// How many states the part will have; the greatest `usize`, if it is less than that.
#[cycle(size)]
pub(crate) fn size(tree: &Tree) -> usize
    ensures { result ≡ min (size_of (pattern_in tree.now)) usize.MAX }
{
    match tree {
        Tree::Empty => 0,
        Tree::Never => 1,
        Tree::Range(_, _) => 1,
        Tree::Class(ranges) => ranges
            .len()
            .saturating_sub(1)
            .saturating_mul(2)
            .saturating_add(1),
        Tree::Literal(bytes) => bytes.len(),
        Tree::Assertion(_) => 1,
        Tree::Then(one, other) => size(one).saturating_add(size(other)),
        Tree::Concat(parts) => size_of_all(parts),
        Tree::Either(one, other) => size(one).saturating_add(size(other)).saturating_add(1),
        Tree::OneOf(parts) => size_of_one(parts),
        Tree::Repeat(times, sub) => size_repeated(*times, sub),
        Tree::Group(sub) => size(sub).saturating_add(2),
    }
}

// Of all parts.
#[cycle(size)]
fn size_of_all(parts: &[Tree]) -> usize
    ensures { result ≡ min (size_of (sequence (map pattern_in parts.now))) usize.MAX }
{
    let mut all = 0usize;
    for index in (0..parts.len()).rev() {
        all = size(&parts[index]).saturating_add(all);
    }
    all
}

// Of the parts, with a choice before each but the last.
#[cycle(size)]
fn size_of_one(parts: &[Tree]) -> usize
    ensures { result ≡ min (size_of (one_of (map pattern_in parts.now))) usize.MAX }
{
    if parts.is_empty() {
        return 1;
    }
    let last = parts.len() - 1;
    let mut all = size(&parts[last]);
    for index in (0..last).rev() {
        all = size(&parts[index]).saturating_add(all).saturating_add(1);
    }
    all
}

// Of all copies of a part that is repeated.
#[cycle(size)]
fn size_repeated(times: Times, sub: &Tree) -> usize
    ensures { result ≡ min (size_of (Repeat times.min times.max times.is_greedy (pattern_in sub.now))) usize.MAX }
{
    let size = size(sub);
    match times.max {
        None => {
            if times.min > 0 {
                return times.min.saturating_mul(size).saturating_add(1);
            }
            size.saturating_add(if may_be_empty(sub) { 2 } else { 1 })
        }
        Some(max) => {
            let optional = max
                .saturating_sub(times.min)
                .saturating_mul(size.saturating_add(1));
            times.min.saturating_mul(size).saturating_add(optional)
        }
    }
}
