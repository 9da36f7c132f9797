//! Laws of runs and of states that a caller can cite: functions whose contracts are the laws.
ghost use Rattle.std.specs.Prelude.{true, false, ◌≡◌, ◌↔◌, ◌⊎◌, ◌+◌, ◌-◌, ◌<◌, ◌≤◌, ◌++◌, [], ◌∷◌, ℕ, Bool, List, length, slice_get, Some};
ghost use Rattle.rsc_captures.specs.Groups.{GroupLists};
ghost use Rattle.rsc_look.specs.Holds.{byte_before, byte_after};
ghost use Rattle.rsc_nfa.specs.declared.state.State.{State};
ghost use Rattle.rsc_nfa.specs.declared.error.BuildError.{BuildError};
ghost use Rattle.rsc_nfa.specs.Classes.{has_unicode_assertion, KeepsRuns, AreInterchangedBy, IsFiner};
ghost use Rattle.rsc_nfa.specs.StateFaults.{AreFaultless, IsStateWithin};
ghost use Rattle.rsc_nfa.specs.Steps.{IsStep, IsRun, IsPlaceWithin, place, recorded, IsLastRecord, RecordsAreFollowed};

use crate::{BuildError, State};

/// What a run records in a slot is the position of the last place from which a step records there. The record names no haystack:
/// equal runs record the same.
pub fn last_record_counts()
    ensures { (states : List State) (run : List (ℕ × ℕ)) (slot i : ℕ) → (recorded states run slot ≡ Some i) ↔ IsLastRecord states run slot i }
{}

/// A step is local: one that stays looks at the byte before its position and the byte after it alone, where no state asserts something of
/// characters; one that goes past a byte looks at that byte alone. So a haystack with the same neighbours has the same steps.
pub fn a_step_is_local()
    ensures stays { (states : List State) (t : ℕ) (chars : ℕ → Bool) (h k : List ℕ) (end last i j s u : ℕ) → has_unicode_assertion states ≡ false →
        byte_before h i ≡ byte_before k j → byte_after h i ≡ byte_after k j →
        IsStep states t chars h end (s, i) (u, i) → IsStep states t chars k last (s, j) (u, j) }
    ensures advances { (states : List State) (t : ℕ) (chars : ℕ → Bool) (h k : List ℕ) (end last i j s u : ℕ) →
        byte_after h i ≡ byte_after k j → (i < end → j < last) →
        IsStep states t chars h end (s, i) (u, i + 1) → IsStep states t chars k last (s, j) (u, j + 1) }
{}

/// Replacing bytes within classes that keep runs makes or unmakes no step to a state of the list.
pub fn a_step_is_kept()
    ensures { (classes : List ℕ) (states : List State) (t : ℕ) (chars : ℕ → Bool) (h k : List ℕ) (end : ℕ) (p q : ℕ × ℕ) →
        KeepsRuns classes states t chars → AreInterchangedBy classes (has_unicode_assertion states) h k → end ≤ length h → p.1 ≤ end → q.0 < length states →
        IsStep states t chars h end p q ↔ IsStep states t chars k end p q }
{}

/// A step leads from a state of the list, and stays or goes one byte on. In a list without a fault, what a state names is there, and so a step
/// leads to a state of the list.
pub fn where_a_step_leads()
    ensures from { (states : List State) (t : ℕ) (chars : ℕ → Bool) (h : List ℕ) (end : ℕ) (p q : ℕ × ℕ) →
        IsStep states t chars h end p q → p.0 < length states }
    ensures position { (states : List State) (t : ℕ) (chars : ℕ → Bool) (h : List ℕ) (end : ℕ) (p q : ℕ × ℕ) →
        IsStep states t chars h end p q → (q.1 ≡ p.1) ⊎ ((q.1 ≡ p.1 + 1) × (p.1 < end)) }
    ensures within { (groups : GroupLists) (states : List State) → AreFaultless groups states →
        (s : ℕ) (state : State) → slice_get states s ≡ Some state → IsStateWithin groups (length states) state }
    ensures to { (groups : GroupLists) (states : List State) (t : ℕ) (chars : ℕ → Bool) (h : List ℕ) (end : ℕ) (p q : ℕ × ℕ) →
        AreFaultless groups states → IsStep states t chars h end p q → q.0 < length states }
{}

/// A place is a run, and so are a run and a step from its last place to a state of the list. Positions along a run never fall.
pub fn runs_grow()
    ensures single { (states : List State) (t : ℕ) (chars : ℕ → Bool) (h : List ℕ) (start end : ℕ) (p : ℕ × ℕ) →
        IsPlaceWithin states start end p → IsRun states t chars h start end (p ∷ []) }
    ensures grown { (states : List State) (t : ℕ) (chars : ℕ → Bool) (h : List ℕ) (start end : ℕ) (run : List (ℕ × ℕ)) (p : ℕ × ℕ) →
        IsRun states t chars h start end run → 0 < length run → p.0 < length states → IsStep states t chars h end (place run (length run - 1)) p →
        IsRun states t chars h start end (run ++ p ∷ []) }
    ensures order { (states : List State) (t : ℕ) (chars : ℕ → Bool) (h : List ℕ) (start end : ℕ) (run : List (ℕ × ℕ)) →
        IsRun states t chars h start end run → (j k : ℕ) → j ≤ k → k < length run → (place run j).1 ≤ (place run k).1 }
{}

/// A finer class map keeps the runs that a coarser one keeps.
pub fn finer_classes_keep_runs()
    ensures { (classes finer : List ℕ) (states : List State) (t : ℕ) (chars : ℕ → Bool) →
        KeepsRuns classes states t chars → IsFiner finer classes → KeepsRuns finer states t chars }
{}

/// Where each record of a run in one slot is followed by one in another, what it records in the first is at most what it records in the
/// second: with the slots of a match's start and end this is what [`rsc_captures::Captures::get_match`] needs.
pub fn records_are_in_order()
    ensures { (states : List State) (t : ℕ) (chars : ℕ → Bool) (h : List ℕ) (start end : ℕ) (run : List (ℕ × ℕ)) →
        IsRun states t chars h start end run → (first second i j : ℕ) → RecordsAreFollowed states run first second →
        recorded states run first ≡ Some i → recorded states run second ≡ Some j → i ≤ j }
{}

/// A clone of a state is that state, a clone of an error is that error, and none is refused.
pub fn clones_are_their_sources()
    ensures state { (s u : State) → ⟦<State as Clone>⟧.is_clone s u → u ≡ s }
    ensures state_accepted { (s : State) → ⟦<State as Clone>⟧.is_infallible s }
    ensures error { (e f : BuildError) → ⟦<BuildError as Clone>⟧.is_clone e f → f ≡ e }
    ensures error_accepted { (e : BuildError) → ⟦<BuildError as Clone>⟧.is_infallible e }
{}

/// Two states are equal exactly if all their parts are, and so are two errors.
pub fn equality_is_of_the_value()
    ensures state { (s u : State) → (⟦<State as PartialEq>⟧.eq s u ≡ true) ↔ (s ≡ u) }
    ensures error { (e f : BuildError) → (⟦<BuildError as PartialEq>⟧.eq e f ≡ true) ↔ (e ≡ f) }
{}
