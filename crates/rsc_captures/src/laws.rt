//! Laws of faults, slots and spans that a caller can cite: functions whose contracts are the laws. Those of this module do
//! nothing; those of `clones` clone a value.
ghost use Rattle.std.specs.Prelude.{◌≡◌, ℕ, ◌+◌, ◌<◌, length, slice_index_or, Some, None};
ghost use Rattle.rsc_captures.specs.Groups.{GroupLists, slot_of, all_group_count};
ghost use Rattle.rsc_captures.specs.Faults.{Fault, IsFirstFault, IsFaultless};
ghost use Rattle.rsc_captures.specs.SlotOwners.{IsSlotOf};
ghost use Rattle.rsc_captures.specs.Captured.{Captured, group_span, matched_group_count, matched_spans};
ghost use Rattle.rsc_captures.specs.NameIterators.{all_names_of};

pub mod clones;

/// A list has at most one first fault, and none if it has no fault.
pub fn one_first_fault()
    ensures one { (limit : ℕ) (lists : GroupLists) (f f' : Fault) → IsFirstFault limit lists f → IsFirstFault limit lists f' → f ≡ f' }
    ensures none { (limit : ℕ) (lists : GroupLists) (f : Fault) → IsFaultless limit lists → ¬ (IsFirstFault limit lists f) }
{}

/// Two groups share no slot: a slot has one group, two groups with one first slot are one, and a first slot is no
/// group's second.
#[tactic(auto, using(crate::proofs::SlotOwnersLemmas::one_start, crate::proofs::SlotOwnersLemmas::start_no_end))]
pub fn slots_are_apart()
    ensures one_owner { (lists : GroupLists) (s p g q h : ℕ) → IsSlotOf lists p g s → IsSlotOf lists q h s → (p ≡ q) × (g ≡ h) }
    ensures first { (lists : GroupLists) (p g q h s : ℕ) → slot_of lists p g ≡ Some s → slot_of lists q h ≡ Some s → (p ≡ q) × (g ≡ h) }
    ensures second { (lists : GroupLists) (p g q h s t : ℕ) → slot_of lists p g ≡ Some s → slot_of lists q h ≡ Some t → ¬ (s ≡ t + 1) }
{}

/// The spans that [`crate::Captures::iter`] gives are as many as the groups of the pattern that matched, and each is the
/// span of the group with its index.
#[tactic(auto, using(crate::proofs::CapturedLemmas::spans_counted, crate::proofs::CapturedLemmas::span_by_index))]
pub fn spans_by_index()
    ensures count { (c : Captured) → length (matched_spans c) ≡ matched_group_count c }
    ensures each { (c : Captured) (i : ℕ) → i < matched_group_count c → slice_index_or (matched_spans c) i None ≡ group_span c i }
{}

/// [`crate::GroupInfo::all_names`] gives as many items as there are groups.
#[tactic(auto, using(crate::proofs::NameIteratorsLemmas::names_counted))]
pub fn names_are_counted()
    ensures { (lists : GroupLists) → length (all_names_of lists) ≡ all_group_count lists }
{}
