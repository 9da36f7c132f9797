//! Laws that a caller can cite: functions whose contracts are the laws.
ghost use Rattle.std.specs.Prelude.{◌≡◌, ◌↔◌, ◌+◌, ◌++◌, ◌<◌, ◌≤◌, if◌then◌else◌, length, ◌==◌, ◌||◌, ◌∷◌, ℕ, List, IsTrue, true};
ghost use Rattle.std.specs.Hash as fed;
ghost use Rattle.std.specs.List.{Contains};
ghost use Rattle.std.specs.List.Sorted.{IsStrictlyIncreasing};
ghost use Rattle.rsc_primitives.specs.Decoding.{IsCharBoundary};
ghost use Rattle.rsc_search.specs.Inputs.{InputParts};
ghost use Rattle.rsc_search.specs.Matches.{HalfMatched, Matched};
ghost use Rattle.rsc_search.specs.PatternSets.{PatternSetParts, RefusedInsertion, IsPatternSet, has_member, with_member};
ghost use Rattle.rsc_search.specs.Spans.{is_char_boundary};
ghost use Rattle.rsc_search.specs.declared.anchored.Anchored as modes;
ghost use Rattle.rsc_search.specs.declared.anchored.MatchKind as kinds;
ghost use Rattle.rsc_search.specs.declared.anchored.MatchKind.TheVariants.{LeftmostFirst};
ghost use Rattle.rsc_search.specs.declared.error.MatchErrorKind as errors;
ghost use Rattle.rsc_search.specs.declared.span.Span as spans;

use crate::{
    Anchored, HalfMatch, Input, Match, MatchError, MatchErrorKind, MatchKind, PatternSet,
    PatternSetInsertError, PatternSetIter, Span,
};
use std::alloc::Allocator;
use std::hash::Hash;

/// An insertion makes its number a member, and no other number below the capacity: where it wasn't one, there is one member more.
#[tactic(auto, using(crate::proofs::PatternSetsLemmas::one_more, crate::proofs::PatternSetLayoutLemmas::member_if_inserted))]
pub fn insertion_adds_one_member()
    ensures count { (s : PatternSetParts) (p : ℕ) → IsPatternSet s → p < s.capacity →
        length (with_member s p).members ≡ (if has_member s.members p then length s.members else length s.members + 1) }
    ensures members { (s : PatternSetParts) (p q : ℕ) → q < s.capacity →
        has_member (with_member s p).members q ≡ (q == p || has_member s.members q) }
{}

/// Cuts of a text test both their ends for being character boundaries.
pub fn char_boundary_is_tested()
    ensures { (text : List ℕ) (i : ℕ) → IsTrue (is_char_boundary text i) ↔ IsCharBoundary text i }
{}

/// The test of membership is true exactly for the elements that std's `Contains` finds. The first member is the least.
#[tactic(auto, using(crate::proofs::PatternSetsLemmas::is_contained, crate::proofs::PatternSetsLemmas::first_is_least))]
pub fn members_are_contained()
    ensures exactly { (members : List ℕ) (p : ℕ) → (has_member members p ≡ true) ↔ Contains members p }
    ensures least { (members rest : List ℕ) (first p : ℕ) → members ≡ first ∷ rest → IsStrictlyIncreasing members →
        has_member members p ≡ true → first ≤ p }
{}

/// A clone is its source, and none is refused. The clone of an iterator has the same members left.
pub fn clones_are_their_sources()
    ensures span { (a b : spans.Span) → ⟦<Span as Clone>⟧.is_clone a b → b ≡ a }
    ensures span_accepted { (a : spans.Span) → ⟦<Span as Clone>⟧.is_infallible a }
    ensures input { (a b : InputParts) → ⟦<Input<'static> as Clone>⟧.is_clone a b → b ≡ a }
    ensures input_accepted { (a : InputParts) → ⟦<Input<'static> as Clone>⟧.is_infallible a }
    ensures half_match { (a b : HalfMatched) → ⟦<HalfMatch as Clone>⟧.is_clone a b → b ≡ a }
    ensures half_match_accepted { (a : HalfMatched) → ⟦<HalfMatch as Clone>⟧.is_infallible a }
    ensures whole_match { (a b : Matched) → ⟦<Match as Clone>⟧.is_clone a b → b ≡ a }
    ensures whole_match_accepted { (a : Matched) → ⟦<Match as Clone>⟧.is_infallible a }
    ensures mode { (a b : modes.Anchored) → ⟦<Anchored as Clone>⟧.is_clone a b → b ≡ a }
    ensures mode_accepted { (a : modes.Anchored) → ⟦<Anchored as Clone>⟧.is_infallible a }
    ensures kind { (a b : kinds.MatchKind) → ⟦<MatchKind as Clone>⟧.is_clone a b → b ≡ a }
    ensures kind_accepted { (a : kinds.MatchKind) → ⟦<MatchKind as Clone>⟧.is_infallible a }
    ensures error_kind { (a b : errors.MatchErrorKind) → ⟦<MatchErrorKind as Clone>⟧.is_clone a b → b ≡ a }
    ensures error_kind_accepted { (a : errors.MatchErrorKind) → ⟦<MatchErrorKind as Clone>⟧.is_infallible a }
    ensures error { (a b : errors.MatchErrorKind) → ⟦<MatchError as Clone>⟧.is_clone a b → b ≡ a }
    ensures error_accepted { (a : errors.MatchErrorKind) → ⟦<MatchError as Clone>⟧.is_infallible a }
    ensures insert_error { (a b : RefusedInsertion) → ⟦<PatternSetInsertError as Clone>⟧.is_clone a b → b ≡ a }
    ensures insert_error_accepted { (a : RefusedInsertion) → ⟦<PatternSetInsertError as Clone>⟧.is_infallible a }
    ensures iter { (a b : List ℕ) → ⟦<PatternSetIter<'static> as Clone>⟧.is_clone a b → b ≡ a }
    ensures iter_accepted { (a : List ℕ) → ⟦<PatternSetIter<'static> as Clone>⟧.is_infallible a }
{}

/// Two values are equal exactly if they are the same in all parts.
pub fn equality_is_of_the_value()
    ensures span { (a b : spans.Span) → (⟦<Span as PartialEq>⟧.eq a b ≡ true) ↔ (a ≡ b) }
    ensures half_match { (a b : HalfMatched) → (⟦<HalfMatch as PartialEq>⟧.eq a b ≡ true) ↔ (a ≡ b) }
    ensures whole_match { (a b : Matched) → (⟦<Match as PartialEq>⟧.eq a b ≡ true) ↔ (a ≡ b) }
    ensures mode { (a b : modes.Anchored) → (⟦<Anchored as PartialEq>⟧.eq a b ≡ true) ↔ (a ≡ b) }
    ensures kind { (a b : kinds.MatchKind) → (⟦<MatchKind as PartialEq>⟧.eq a b ≡ true) ↔ (a ≡ b) }
    ensures error_kind { (a b : errors.MatchErrorKind) → (⟦<MatchErrorKind as PartialEq>⟧.eq a b ≡ true) ↔ (a ≡ b) }
    ensures error { (a b : errors.MatchErrorKind) → (⟦<MatchError as PartialEq>⟧.eq a b ≡ true) ↔ (a ≡ b) }
{}

/// Sets of patterns are equal exactly if the capacities are and the members are.
pub fn are_equal_pattern_sets<A: Allocator>(one: &PatternSet<A>, other: &PatternSet<A>) -> bool
    ensures { IsTrue result ↔ (one.now ≡ other.now) }
{
    one == other
}

/// What a span, a half match and a match feed to a hasher is their parts, and so equal ones feed it the same.
pub fn hash_is_of_the_parts()
    ensures span { (s : spans.Span) → ⟦<Span as Hash>⟧.hash_input s ≡ fed.usize s.start ++ fed.usize s.end }
    ensures half_match { (m : HalfMatched) → ⟦<HalfMatch as Hash>⟧.hash_input m ≡ fed.u32 m.pattern ++ fed.usize m.offset }
    ensures whole_match { (m : Matched) → ⟦<Match as Hash>⟧.hash_input m ≡ fed.u32 m.pattern ++ (fed.usize m.span.start ++ fed.usize m.span.end) }
{}

/// The default match kind is `LeftmostFirst`.
pub fn defaults()
    ensures { (k : kinds.MatchKind) → ⟦<MatchKind as Default>⟧.is_default k → k ≡ LeftmostFirst }
{}
