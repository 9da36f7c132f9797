//! Parts of patterns as trees.
ghost use Rattle.std.specs.Prelude.{◌≡◌, map};
ghost use Rattle.rsc_engine.specs.Patterns as patterns;
ghost use Rattle.rsc_engine.specs.Patterns.{sequence, one_of};
ghost use Rattle.rsc_engine.specs.Trees.{pattern_in};

use rsc_look::Look;

/// A part of a pattern, made of smaller ones. `pattern_in` in `specs/Trees.antt` says which pattern it is.
#[derive(Drop)]
pub(crate) enum Tree {
    /// No byte.
    Empty,
    /// What never matches, not even the empty string.
    Never,
    /// A byte from the one to the other.
    Range(u8, u8),
    /// A byte of one of the ranges.
    Class(Vec<(u8, u8)>),
    /// These bytes.
    Literal(Vec<u8>),
    /// A position at which an assertion holds.
    Assertion(Look),
    /// The one, then the other.
    Then(Box<Tree>, Box<Tree>),
    /// Each after the one before it.
    Concat(Vec<Tree>),
    /// The one or the other; the first is preferred.
    Either(Box<Tree>, Box<Tree>),
    /// One of them; an earlier one is preferred.
    OneOf(Vec<Tree>),
    /// The part repeated.
    Repeat(Times, Box<Tree>),
    /// The part as a group.
    Group(Box<Tree>),
}

/// How a part is repeated.
#[derive(Clone, Copy)]
pub(crate) struct Times {
    /// At least this often.
    pub(crate) min: usize,
    /// At most this often, or without a limit. It is `min` if it is below that.
    pub(crate) max: Option<usize>,
    /// Once more is preferred, not once less.
    pub(crate) is_greedy: bool,
}

// Whether the part may match no byte.
#[cycle(may_be_empty)]
#[tactic(auto, using(crate::proofs::PartsLemmas::repeat_empty, crate::proofs::PartsLemmas::first_empty))]
pub(crate) fn may_be_empty(tree: &Tree) -> bool
    ensures { result ≡ patterns.may_be_empty (pattern_in tree.now) }
{
    match tree {
        Tree::Empty => true,
        Tree::Never => false,
        Tree::Range(_, _) => false,
        Tree::Class(_) => false,
        Tree::Literal(bytes) => bytes.is_empty(),
        Tree::Assertion(_) => true,
        // By `|` and `&`, which make no branches, so the proof has no case for each.
        Tree::Then(one, other) => may_be_empty(one) & may_be_empty(other),
        Tree::Concat(parts) => all_may_be_empty(parts),
        Tree::Either(one, other) => may_be_empty(one) | may_be_empty(other),
        Tree::OneOf(parts) => one_may_be_empty(parts),
        Tree::Repeat(times, sub) => (times.min == 0) | may_be_empty(sub),
        Tree::Group(sub) => may_be_empty(sub),
    }
}

// Whether all may match no byte.
#[cycle(may_be_empty)]
fn all_may_be_empty(parts: &[Tree]) -> bool
    ensures { result ≡ patterns.may_be_empty (sequence (map pattern_in parts.now)) }
{
    let mut all = true;
    for index in (0..parts.len()).rev() {
        all = may_be_empty(&parts[index]) & all;
    }
    all
}

// Whether one of them may match no byte.
#[cycle(may_be_empty)]
#[tactic(auto, using(crate::proofs::PartsLemmas::first_empty))]
fn one_may_be_empty(parts: &[Tree]) -> bool
    ensures { result ≡ patterns.may_be_empty (one_of (map pattern_in parts.now)) }
{
    let mut some = false;
    for index in (0..parts.len()).rev() {
        some = may_be_empty(&parts[index]) | some;
    }
    some
}
