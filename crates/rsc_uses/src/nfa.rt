//! Runs of an automaton.
ghost use Rattle.std.specs.Prelude.{◌≡◌, ◌<◌, ◌≤◌, ◌+◌, ◌⊎◌, ℕ, All, IsTrue, IfSome, IfNone, Some, None, not, true, length, slice_get, slice_index};
ghost use Rattle.rsc_look.specs.Keeping.{AgreesWithAscii};
ghost use Rattle.rsc_nfa.specs.Classes.{has_unicode_assertion, KeepsRuns};
ghost use Rattle.rsc_nfa.specs.Steps.{IsRun, recorded, RecordsAreFollowed};
ghost use Rattle.rsc_nfa.specs.declared.state.State.TheVariants.{ByteRange};

use rsc_alphabet::{ByteClassSet, ByteClasses};
use rsc_captures::Captures;
use rsc_look::WordClass;
use rsc_nfa::{Nfa, laws};
use rsc_primitives::StateID;
use rsc_search::Input;

/// Whether the automaton accepts a step past the input's first byte as a run: it does, where the state has a range that the byte is in, and
/// the next state is one of the automaton's.
pub fn accepts_one_byte<W: WordClass>(
    nfa: &Nfa<W>,
    input: &Input<'_>,
    from: StateID,
    range: (u8, u8),
    next: StateID,
) -> bool
    requires state { slice_get nfa.now.states from ≡ Some (ByteRange range.0 range.1 next) }
    requires next { next < length nfa.now.states }
    requires left { input.now.span.start < input.now.span.end }
    requires within { input.now.span.end ≤ length input.now.haystack }
    requires first { range.0 ≤ slice_index input.now.haystack input.now.span.start }
    requires last { slice_index input.now.haystack input.now.span.start ≤ range.1 }
    ensures { IsTrue result }
{
    let start = input.start();
    nfa.check_run(input, &[(from, start), (next, start + 1)])
}

/// Whether an automaton asserts nothing of characters, so that a table over bytes can follow it everywhere.
pub fn looks_at_bytes_alone<W: WordClass>(nfa: &Nfa<W>) -> bool
    ensures { result ≡ not (has_unicode_assertion nfa.now.states) }
{
    !nfa.looks().contains_word_unicode()
}

/// Classes for a table that stops at every byte from 128 on: they keep the runs, and no class has bytes on both sides of 128.
pub fn classes_to_stop<W: WordClass>(nfa: &Nfa<W>) -> ByteClasses
    ensures kept { (has_unicode_assertion nfa.now.states ≡ true → AgreesWithAscii (W.word_chars nfa.now.matcher.1)) →
        KeepsRuns result nfa.now.states nfa.now.matcher.0 (W.word_chars nfa.now.matcher.1) }
    ensures apart { ¬ (slice_index result 127 ≡ slice_index result 128) }
{
    let mut stop = ByteClassSet::empty();
    stop.set_range(128, 255);
    nfa.classes_with(&stop)
}

/// Writes what a run records into captures, and reads the offsets of a match back: both are what the run records, and they are in order where each
/// record of a start is followed by one of an end.
pub fn record_match<W: WordClass>(
    nfa: &Nfa<W>,
    input: &Input<'_>,
    run: &[(StateID, usize)],
    captures: &mut Captures,
) -> Option<(usize, usize)>
    requires is_run { IsRun nfa.now.states nfa.now.matcher.0 (W.word_chars nfa.now.matcher.1)
        input.now.haystack input.now.span.start input.now.span.end run.now }
    requires closed { RecordsAreFollowed nfa.now.states run.now 0 1 }
    requires positions { All (λ place. place.1 < usize.MAX) run.now }
    requires room { 2 ≤ length captures.old.offsets }
    ensures start { IfSome result (λ offsets. recorded nfa.now.states run.now 0 ≡ Some offsets.0) }
    ensures end { IfSome result (λ offsets. recorded nfa.now.states run.now 1 ≡ Some offsets.1) }
    ensures order { IfSome result (λ offsets. offsets.0 ≤ offsets.1) }
    ensures none { IfNone result ((recorded nfa.now.states run.now 0 ≡ None) ⊎ (recorded nfa.now.states run.now 1 ≡ None)) }
{
    laws::records_are_in_order();
    nfa.record(run, captures);
    let start = captures.slots()[0]?;
    let end = captures.slots()[1]?;
    Some((start.get(), end.get()))
}
