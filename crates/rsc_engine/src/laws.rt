//! Laws of matches that a caller can cite: functions whose contracts are the laws.
ghost use Rattle.std.specs.Prelude.{true, false, ◌↔◌, ◌≡◌, ◌+◌, ◌*◌, ◌<◌, ◌≤◌, ◌⊎◌, ℕ, List, [], length, Option, Some, None, slice_get, slice_index_or};
ghost use Rattle.std.specs.List.{list_any};
ghost use Rattle.std.specs.Option.{ForSome};
ghost use Rattle.rsc_captures.specs.Groups.{GroupLists, group_count, slot_number};
ghost use Rattle.rsc_captures.specs.Captured.{Captured, group_span};
ghost use Rattle.rsc_search.specs.Inputs.{InputParts};
ghost use Rattle.rsc_search.specs.Matches.{Matched};
ghost use Rattle.rsc_search.specs.declared.span.Span.{Span};
ghost use Rattle.rsc_search.specs.declared.anchored.Anchored.TheVariants.{No};
ghost use Rattle.rsc_engine.specs.Searches.{Search, Compiled, search_in};
ghost use Rattle.rsc_engine.specs.Patterns.{Pattern, Group, Subject, Goes, may_be_empty, subject_of, IsMatchIn, Recognizes};
ghost use Rattle.rsc_engine.specs.Runs.{IsMatchRun};
ghost use Rattle.rsc_engine.specs.Preferred.{HasNoPlaceTwice, HasNoForkTwice, IsPreferred, IsLeftmostFirst, IsFirstMatch, MayBegin, HasNoFirstMatch};
ghost use Rattle.rsc_engine.specs.NextMatches.{IsNextRun, IsOver, IsNextMatch, MayBeNext, IsRepeatAt, SplitsAt, MatchesLeft, AreAllMatches, calls_left};
ghost use Rattle.rsc_engine.specs.Ends.{IsEarliestEnd, IsLeftmostEnd};
ghost use Rattle.rsc_engine.specs.GroupEnds.{RecordsEnds};
ghost use Rattle.rsc_engine.specs.GroupOrder.{ClosesGroups};
ghost use Rattle.rsc_engine.specs.PatternOrder.{PrefersLesser, PrefersFirstEnds, RecordsWays, RecordsFirstWays, RecordsPreferredWays};
ghost use Rattle.rsc_engine.specs.FirstEnds.{loops_take_bytes, IsFirstEnd};
ghost use Rattle.rsc_engine.specs.Ways.{Point, last_in, GoesWith};
ghost use Rattle.rsc_engine.specs.FirstWays.{IsFirstWay};
ghost use Rattle.rsc_engine.specs.GroupNumbers.{IsGroupOf, as_whole};
ghost use Rattle.rsc_engine.specs.PreferredWays.{IsPreferredWay};
ghost use Rattle.rsc_engine.specs.PatternMatches.{HoldRecords, recorded_span, IsFirstOfPatterns, IsNextOfPatterns, IsOverOfPatterns};

use rsc_look::WordClass;

pub mod one_pattern;

/// From a place there is at most one preferred run; in a search there is at most one leftmost-first run, and none if no match begins
/// where one may.
pub fn at_most_one_first_match()
    ensures preferred { (search : Search) (from : ℕ × ℕ) (one other : List (ℕ × ℕ)) → IsPreferred search from one →
        IsPreferred search from other → one ≡ other }
    ensures first { (search : Search) (one other : List (ℕ × ℕ)) → IsLeftmostFirst search one → IsLeftmostFirst search other → one ≡ other }
    ensures none { (search : Search) (run : List (ℕ × ℕ)) → HasNoFirstMatch search → ¬ (IsLeftmostFirst search run) }
{}

/// A run to a match comes to no place twice exactly if it makes no choice twice at one position.
pub fn no_place_twice_is_no_fork_twice()
    ensures { (search : Search) (from : ℕ × ℕ) (run : List (ℕ × ℕ)) → IsMatchRun search from run → HasNoPlaceTwice run ↔ HasNoForkTwice search.states run }
{}

/// A pattern has at most one preferred way from a position, whatever numbers its choices have.
pub fn at_most_one_preferred_way()
    ensures end { (x : Subject) (p : Pattern) (most i j k : ℕ) (one other : List (ℕ × ℕ)) → IsPreferredWay x p (λ m. m ≤ most) i j one →
        IsPreferredWay x p (λ m. m ≤ most) i k other → j ≡ k }
    ensures records { (x : Subject) (p : Pattern) (most i j k : ℕ) (one other : List (ℕ × ℕ)) → IsPreferredWay x p (λ m. m ≤ most) i j one →
        IsPreferredWay x p (λ m. m ≤ most) i k other → one ≡ other }
{}

/// There is at most one next match, and none if the iteration is over.
pub fn at_most_one_next_match()
    ensures next { (search : Search) (last : Option ℕ) (one other : List (ℕ × ℕ)) → IsNextRun search last one → IsNextRun search last other → one ≡ other }
    ensures over { (search : Search) (last : Option ℕ) (run : List (ℕ × ℕ)) → IsOver search last → ¬ (IsNextRun search last run) }
{}

/// A match determines its captures: two that are first, or next, in captures over the same groups with as many slots are one, and the captures hold the same.
pub fn at_most_one_match_with_captures()
    ensures first { (search : Search) (one other : Captured) (m n : Matched) → IsFirstMatch search one m → IsFirstMatch search other n →
        one.groups ≡ other.groups → length one.offsets ≡ length other.offsets → (m ≡ n) × (one ≡ other) }
    ensures next { (search : Search) (last : Option ℕ) (one other : Captured) (m n : Matched) → IsNextMatch search last one m →
        IsNextMatch search last other n → one.groups ≡ other.groups → length one.offsets ≡ length other.offsets → (m ≡ n) × (one ≡ other) }
{}

/// After a match fewer calls of `next` may find another: the measure of a loop over them. `order` and `within` of `Matches::next` are its premises.
pub fn an_iteration_ends()
    ensures { (end m : ℕ) (last : Option ℕ) → ForSome last (λ before. before < m) → m ≤ end → calls_left end (Some m) < calls_left end last }
{}

/// There is at most one list of all matches of what is left.
pub fn at_most_one_list_of_all_matches<W: WordClass>()
    ensures { (left : MatchesLeft W) (one other : List Matched) → AreAllMatches W.word_chars left one → AreAllMatches W.word_chars left other → one ≡ other }
{}

/// Each offset that a match leaves in a slot is within its span.
pub fn offsets_are_within_the_match()
    ensures first { (search : Search) (captures : Captured) (found : Matched) (slot i : ℕ) → IsFirstMatch search captures found →
        slice_index_or captures.offsets slot None ≡ Some i → (found.span.start ≤ i) × (i ≤ found.span.end) }
    ensures next { (search : Search) (last : Option ℕ) (captures : Captured) (found : Matched) (slot i : ℕ) → IsNextMatch search last captures found →
        slice_index_or captures.offsets slot None ≡ Some i → (found.span.start ≤ i) × (i ≤ found.span.end) }
{}

/// What the first match of a program of patterns is: a match of one of them, and no match of theirs begins earlier. Without a first match they have none.
pub fn a_first_match_is_of_a_pattern<W: WordClass>()
    ensures some { (program : Compiled W) (patterns : List Pattern) (input : InputParts) (captures : Captured) (found : Matched) →
        Recognizes W.word_chars program patterns → IsFirstMatch (search_in W.word_chars program input) captures found →
        IsMatchIn patterns (search_in W.word_chars program input) found }
    ensures earlier { (program : Compiled W) (patterns : List Pattern) (input : InputParts) (captures : Captured) (found other : Matched) →
        Recognizes W.word_chars program patterns → IsFirstMatch (search_in W.word_chars program input) captures found →
        other.span.start < found.span.start → ¬ (IsMatchIn patterns (search_in W.word_chars program input) other) }
    ensures none { (program : Compiled W) (patterns : List Pattern) (input : InputParts) (other : Matched) →
        Recognizes W.word_chars program patterns → HasNoFirstMatch (search_in W.word_chars program input) →
        MayBegin (search_in W.word_chars program input) other.span.start → ¬ (IsMatchIn patterns (search_in W.word_chars program input) other) }
{}

/// What the next match of a program of patterns is: a match of one of them. From an earlier position where one might begin, the preferred match is left out:
/// it is empty, and where the last one ended or within a character. The same holds for each such position when the iteration is over.
pub fn a_next_match_is_of_a_pattern<W: WordClass>()
    ensures some { (program : Compiled W) (patterns : List Pattern) (input : InputParts) (last : Option ℕ) (captures : Captured) (found : Matched) →
        Recognizes W.word_chars program patterns → IsNextMatch (search_in W.word_chars program input) last captures found →
        IsMatchIn patterns (search_in W.word_chars program input) found }
    ensures earlier { (program : Compiled W) (patterns : List Pattern) (input : InputParts) (last : Option ℕ) (captures : Captured)
        (found other : Matched) → Recognizes W.word_chars program patterns → IsNextMatch (search_in W.word_chars program input) last captures found →
        other.span.start < found.span.start → MayBeNext (search_in W.word_chars program input) last other.span.start →
        IsMatchIn patterns (search_in W.word_chars program input) other →
        IsRepeatAt (search_in W.word_chars program input) last other.span.start ⊎ SplitsAt (search_in W.word_chars program input) other.span.start }
    ensures over { (program : Compiled W) (patterns : List Pattern) (input : InputParts) (last : Option ℕ) (other : Matched) →
        Recognizes W.word_chars program patterns → IsOver (search_in W.word_chars program input) last →
        MayBeNext (search_in W.word_chars program input) last other.span.start → IsMatchIn patterns (search_in W.word_chars program input) other →
        IsRepeatAt (search_in W.word_chars program input) last other.span.start ⊎ SplitsAt (search_in W.word_chars program input) other.span.start }
{}

/// Which of several patterns a first or next match is of: the one with the least number, if more than one that the input allows matches from its start
/// within the span.
pub fn a_match_is_of_the_least_pattern<W: WordClass>()
    ensures first { (program : Compiled W) (patterns : List Pattern) (input : InputParts) (captures : Captured) (found other : Matched) →
        Recognizes W.word_chars program patterns → PrefersLesser W.word_chars program →
        IsFirstMatch (search_in W.word_chars program input) captures found → IsMatchIn patterns (search_in W.word_chars program input) other →
        other.span.start ≡ found.span.start → found.pattern ≤ other.pattern }
    ensures next { (program : Compiled W) (patterns : List Pattern) (input : InputParts) (last : Option ℕ) (captures : Captured) (found other : Matched) →
        Recognizes W.word_chars program patterns → PrefersLesser W.word_chars program →
        IsNextMatch (search_in W.word_chars program input) last captures found → IsMatchIn patterns (search_in W.word_chars program input) other →
        other.span.start ≡ found.span.start → found.pattern ≤ other.pattern }
{}

/// A match of a pattern that may not be empty has a byte.
pub fn nonempty_patterns_take_bytes()
    ensures { (x : Subject) (p : Pattern) (i j : ℕ) → may_be_empty p ≡ false → Goes x p i j → i < j }
{}

/// Tokens: if the search is anchored and no pattern may be empty, the next match begins where the search does, which is where the last one ended. If there
/// is no next one, no pattern that the input allows matches from there, anchored or not.
pub fn anchored_matches_are_side_by_side<W: WordClass>()
    ensures next { (program : Compiled W) (patterns : List Pattern) (input : InputParts) (last : Option ℕ) (captures : Captured) (found : Matched) →
        Recognizes W.word_chars program patterns → list_any may_be_empty patterns ≡ false → ¬ (input.anchored ≡ No) →
        IsNextMatch (search_in W.word_chars program input) last captures found → found.span.start ≡ input.span.start }
    ensures over { (program : Compiled W) (patterns : List Pattern) (input : InputParts) (last : Option ℕ) (other : Matched) →
        Recognizes W.word_chars program patterns → list_any may_be_empty patterns ≡ false → IsOver (search_in W.word_chars program input) last →
        other.span.start ≡ input.span.start → ¬ (IsMatchIn patterns (search_in W.word_chars program input) other) }
{}

/// If the search isn't anchored and no pattern may be empty, an iteration leaves out only matches that begin within another: no match begins between the
/// last one and the next one, and none is left when the iteration is over.
pub fn only_overlapping_matches_are_left_out<W: WordClass>()
    ensures next { (program : Compiled W) (patterns : List Pattern) (input : InputParts) (last : Option ℕ) (captures : Captured) (found other : Matched) →
        Recognizes W.word_chars program patterns → list_any may_be_empty patterns ≡ false → input.anchored ≡ No →
        IsNextMatch (search_in W.word_chars program input) last captures found → other.span.start < found.span.start →
        ¬ (IsMatchIn patterns (search_in W.word_chars program input) other) }
    ensures over { (program : Compiled W) (patterns : List Pattern) (input : InputParts) (last : Option ℕ) (other : Matched) →
        Recognizes W.word_chars program patterns → list_any may_be_empty patterns ≡ false → input.anchored ≡ No →
        IsOver (search_in W.word_chars program input) last → ¬ (IsMatchIn patterns (search_in W.word_chars program input) other) }
{}

/// What the earliest end of a program of patterns is: the end of a match of one of them. No match of theirs that begins where one may ends earlier.
pub fn an_earliest_end_is_of_a_pattern<W: WordClass>()
    ensures some { (program : Compiled W) (patterns : List Pattern) (input : InputParts) (end : ℕ) →
        Recognizes W.word_chars program patterns → IsEarliestEnd (search_in W.word_chars program input) end →
        (found : Matched) × IsMatchIn patterns (search_in W.word_chars program input) found
        × MayBegin (search_in W.word_chars program input) found.span.start × (found.span.end ≡ end) }
    ensures earlier { (program : Compiled W) (patterns : List Pattern) (input : InputParts) (end : ℕ) (other : Matched) →
        Recognizes W.word_chars program patterns → IsEarliestEnd (search_in W.word_chars program input) end →
        MayBegin (search_in W.word_chars program input) other.span.start → other.span.end < end →
        ¬ (IsMatchIn patterns (search_in W.word_chars program input) other) }
{}

/// What the leftmost end of a program of patterns is: the end of a match of one of them. No match of theirs begins earlier.
pub fn a_leftmost_end_is_of_a_pattern<W: WordClass>()
    ensures { (program : Compiled W) (patterns : List Pattern) (input : InputParts) (end : ℕ) →
        Recognizes W.word_chars program patterns → IsLeftmostEnd (search_in W.word_chars program input) end →
        (found : Matched) × IsMatchIn patterns (search_in W.word_chars program input) found
        × MayBegin (search_in W.word_chars program input) found.span.start × (found.span.end ≡ end)
        × ((other : Matched) → other.span.start < found.span.start → ¬ (IsMatchIn patterns (search_in W.word_chars program input) other)) }
{}

/// Where a match ends if each part that is repeated without a limit takes a byte: at the first end of its pattern in the span, in the order in which ends
/// are tried. There is at most one first end.
pub fn a_match_ends_at_its_first_end<W: WordClass>()
    ensures first { (program : Compiled W) (patterns : List Pattern) (input : InputParts) (captures : Captured) (found : Matched) (p : Pattern) →
        PrefersFirstEnds W.word_chars program patterns → IsFirstMatch (search_in W.word_chars program input) captures found →
        slice_get patterns found.pattern ≡ Some p → loops_take_bytes p ≡ true →
        IsFirstEnd (subject_of (search_in W.word_chars program input)) p (λ j. j ≤ input.span.end) found.span.start found.span.end }
    ensures next { (program : Compiled W) (patterns : List Pattern) (input : InputParts) (last : Option ℕ) (captures : Captured) (found : Matched)
        (p : Pattern) →
        PrefersFirstEnds W.word_chars program patterns → IsNextMatch (search_in W.word_chars program input) last captures found →
        slice_get patterns found.pattern ≡ Some p → loops_take_bytes p ≡ true →
        IsFirstEnd (subject_of (search_in W.word_chars program input)) p (λ j. j ≤ input.span.end) found.span.start found.span.end }
    ensures one { (x : Subject) (p : Pattern) (end i j k : ℕ) → IsFirstEnd x p (λ l. l ≤ end) i j → IsFirstEnd x p (λ l. l ≤ end) i k → j ≡ k }
{}

/// Which match a leftmost end is of: the one of the least pattern, among the matches that begin first. It is this pattern's first end, if its loops take bytes.
pub fn a_leftmost_end_is_of_the_least_pattern<W: WordClass>()
    ensures { (program : Compiled W) (patterns : List Pattern) (input : InputParts) (end : ℕ) →
        Recognizes W.word_chars program patterns → PrefersLesser W.word_chars program → PrefersFirstEnds W.word_chars program patterns →
        IsLeftmostEnd (search_in W.word_chars program input) end →
        (found : Matched) × IsMatchIn patterns (search_in W.word_chars program input) found × (found.span.end ≡ end)
        × ((other : Matched) → IsMatchIn patterns (search_in W.word_chars program input) other → found.span.start ≤ other.span.start)
        × ((other : Matched) → IsMatchIn patterns (search_in W.word_chars program input) other → other.span.start ≡ found.span.start →
        found.pattern ≤ other.pattern)
        × ((p : Pattern) → slice_get patterns found.pattern ≡ Some p → loops_take_bytes p ≡ true →
        IsFirstEnd (subject_of (search_in W.word_chars program input)) p (λ j. j ≤ input.span.end) found.span.start end) }
{}

/// The two slots of group 0 of a match's pattern hold the match's start and end, if the captures have room and the program records the ends of its
/// matches. So `get_group(0)` is the match's span, if that pattern has a group.
pub fn the_first_group_is_the_match<W: WordClass>()
    ensures first_start { (program : Compiled W) (input : InputParts) (captures : Captured) (found : Matched) → RecordsEnds W.word_chars program →
        IsFirstMatch (search_in W.word_chars program input) captures found → 2 * found.pattern < length captures.offsets →
        slice_index_or captures.offsets (2 * found.pattern) None ≡ Some found.span.start }
    ensures first_end { (program : Compiled W) (input : InputParts) (captures : Captured) (found : Matched) → RecordsEnds W.word_chars program →
        IsFirstMatch (search_in W.word_chars program input) captures found → 2 * found.pattern + 1 < length captures.offsets →
        slice_index_or captures.offsets (2 * found.pattern + 1) None ≡ Some found.span.end }
    ensures next_start { (program : Compiled W) (input : InputParts) (last : Option ℕ) (captures : Captured) (found : Matched) →
        RecordsEnds W.word_chars program → IsNextMatch (search_in W.word_chars program input) last captures found →
        2 * found.pattern < length captures.offsets → slice_index_or captures.offsets (2 * found.pattern) None ≡ Some found.span.start }
    ensures next_end { (program : Compiled W) (input : InputParts) (last : Option ℕ) (captures : Captured) (found : Matched) →
        RecordsEnds W.word_chars program → IsNextMatch (search_in W.word_chars program input) last captures found →
        2 * found.pattern + 1 < length captures.offsets → slice_index_or captures.offsets (2 * found.pattern + 1) None ≡ Some found.span.end }
    ensures first_group { (program : Compiled W) (input : InputParts) (captures : Captured) (found : Matched) → RecordsEnds W.word_chars program →
        IsFirstMatch (search_in W.word_chars program input) captures found → 2 * found.pattern + 1 < length captures.offsets →
        0 < group_count captures.groups found.pattern → group_span captures 0 ≡ Some found.span }
    ensures next_group { (program : Compiled W) (input : InputParts) (last : Option ℕ) (captures : Captured) (found : Matched) →
        RecordsEnds W.word_chars program → IsNextMatch (search_in W.word_chars program input) last captures found →
        2 * found.pattern + 1 < length captures.offsets → 0 < group_count captures.groups found.pattern → group_span captures 0 ≡ Some found.span }
{}

/// What a match leaves in slots: what the preferred way of its pattern from the match's start to positions in the span records there last. That way ends where
/// the match does.
pub fn captures_are_of_the_preferred_way<W: WordClass>()
    ensures first { (program : Compiled W) (patterns : List Pattern) (input : InputParts) (captures : Captured) (found : Matched)
        (p : Pattern) → RecordsPreferredWays W.word_chars program patterns → IsFirstMatch (search_in W.word_chars program input) captures found →
        slice_get patterns found.pattern ≡ Some p →
        (records : List (ℕ × ℕ)) × IsPreferredWay (subject_of (search_in W.word_chars program input)) (as_whole program.automaton.groups found.pattern p)
        (λ j. j ≤ input.span.end) found.span.start found.span.end records
        × ((slot : ℕ) → slot < length captures.offsets → slice_index_or captures.offsets slot None ≡ last_in records slot) }
    ensures next { (program : Compiled W) (patterns : List Pattern) (input : InputParts) (last : Option ℕ) (captures : Captured) (found : Matched)
        (p : Pattern) → RecordsPreferredWays W.word_chars program patterns → IsNextMatch (search_in W.word_chars program input) last captures found →
        slice_get patterns found.pattern ≡ Some p →
        (records : List (ℕ × ℕ)) × IsPreferredWay (subject_of (search_in W.word_chars program input)) (as_whole program.automaton.groups found.pattern p)
        (λ j. j ≤ input.span.end) found.span.start found.span.end records
        × ((slot : ℕ) → slot < length captures.offsets → slice_index_or captures.offsets slot None ≡ last_in records slot) }
{}

/// What a match leaves in slots: what a way of its pattern from the match's start to its end records there last. If each part that is repeated without a
/// limit takes a byte, it's the first such way in the order in which ways are tried, and there is only one.
pub fn captures_are_of_the_first_way<W: WordClass>()
    ensures first { (program : Compiled W) (patterns : List Pattern) (input : InputParts) (captures : Captured) (found : Matched)
        (p : Pattern) → RecordsFirstWays W.word_chars program patterns → IsFirstMatch (search_in W.word_chars program input) captures found →
        slice_get patterns found.pattern ≡ Some p → loops_take_bytes p ≡ true →
        (records : List (ℕ × ℕ)) × IsFirstWay (subject_of (search_in W.word_chars program input)) (as_whole program.automaton.groups found.pattern p)
        (λ j. j ≤ input.span.end) (found.span.start, []) (found.span.end, records)
        × ((slot : ℕ) → slot < length captures.offsets → slice_index_or captures.offsets slot None ≡ last_in records slot) }
    ensures next { (program : Compiled W) (patterns : List Pattern) (input : InputParts) (last : Option ℕ) (captures : Captured) (found : Matched)
        (p : Pattern) → RecordsFirstWays W.word_chars program patterns → IsNextMatch (search_in W.word_chars program input) last captures found →
        slice_get patterns found.pattern ≡ Some p → loops_take_bytes p ≡ true →
        (records : List (ℕ × ℕ)) × IsFirstWay (subject_of (search_in W.word_chars program input)) (as_whole program.automaton.groups found.pattern p)
        (λ j. j ≤ input.span.end) (found.span.start, []) (found.span.end, records)
        × ((slot : ℕ) → slot < length captures.offsets → slice_index_or captures.offsets slot None ≡ last_in records slot) }
    ensures one { (x : Subject) (p : Pattern) (end : ℕ) (m n k : Point) → IsFirstWay x p (λ l. l ≤ end) m n → IsFirstWay x p (λ l. l ≤ end) m k → n ≡ k }
{}

/// The slots of a first match and of a next one hold what some way of its pattern records, also where its loops may take no byte.
pub fn captures_are_of_a_way<W: WordClass>()
    ensures first { (program : Compiled W) (patterns : List Pattern) (input : InputParts) (captures : Captured) (found : Matched)
        (p : Pattern) → RecordsWays W.word_chars program patterns → IsFirstMatch (search_in W.word_chars program input) captures found →
        slice_get patterns found.pattern ≡ Some p →
        (records : List (ℕ × ℕ)) × GoesWith (subject_of (search_in W.word_chars program input)) (as_whole program.automaton.groups found.pattern p)
        (found.span.start, []) (found.span.end, records)
        × ((slot : ℕ) → slot < length captures.offsets → slice_index_or captures.offsets slot None ≡ last_in records slot) }
    ensures next { (program : Compiled W) (patterns : List Pattern) (input : InputParts) (last : Option ℕ) (captures : Captured) (found : Matched)
        (p : Pattern) → RecordsWays W.word_chars program patterns → IsNextMatch (search_in W.word_chars program input) last captures found →
        slice_get patterns found.pattern ≡ Some p →
        (records : List (ℕ × ℕ)) × GoesWith (subject_of (search_in W.word_chars program input)) (as_whole program.automaton.groups found.pattern p)
        (found.span.start, []) (found.span.end, records)
        × ((slot : ℕ) → slot < length captures.offsets → slice_index_or captures.offsets slot None ≡ last_in records slot) }
{}

/// If each part that is repeated without a limit takes a byte, a preferred way is the first way. So is that of the whole of a program's pattern, which ends at
/// the pattern's first end.
pub fn a_preferred_way_is_the_first_way()
    ensures way { (x : Subject) (p : Pattern) (most i j : ℕ) (records : List (ℕ × ℕ)) → IsPreferredWay x p (λ k. k ≤ most) i j records →
        loops_take_bytes p ≡ true → IsFirstWay x p (λ k. k ≤ most) (i, []) (j, records) }
    ensures whole { (x : Subject) (lists : GroupLists) (p : Pattern) (number most i j : ℕ) (records : List (ℕ × ℕ)) →
        IsPreferredWay x (as_whole lists number p) (λ k. k ≤ most) i j records → loops_take_bytes p ≡ true →
        IsFirstWay x (as_whole lists number p) (λ k. k ≤ most) (i, []) (j, records) }
    ensures end { (x : Subject) (lists : GroupLists) (p : Pattern) (number most i j : ℕ) (records : List (ℕ × ℕ)) →
        IsPreferredWay x (as_whole lists number p) (λ k. k ≤ most) i j records → loops_take_bytes p ≡ true → IsFirstEnd x p (λ k. k ≤ most) i j }
{}

/// If a match sets the first slot of a group, it sets the second too, and the group's part goes from the one position to the other. Group 0 is the whole
/// pattern.
pub fn a_group_is_where_its_part_goes<W: WordClass>()
    ensures first { (program : Compiled W) (patterns : List Pattern) (input : InputParts) (captures : Captured) (found : Matched)
        (p part : Pattern) (group i : ℕ) → RecordsWays W.word_chars program patterns → IsFirstMatch (search_in W.word_chars program input) captures found →
        slice_get patterns found.pattern ≡ Some p → found.pattern < length program.automaton.groups → IsGroupOf group part (Group 0 p) →
        slot_number program.automaton.groups found.pattern group + 1 < length captures.offsets →
        slice_index_or captures.offsets (slot_number program.automaton.groups found.pattern group) None ≡ Some i →
        (j : ℕ) × (slice_index_or captures.offsets (slot_number program.automaton.groups found.pattern group + 1) None ≡ Some j)
        × Goes (subject_of (search_in W.word_chars program input)) part i j }
    ensures next { (program : Compiled W) (patterns : List Pattern) (input : InputParts) (last : Option ℕ) (captures : Captured) (found : Matched)
        (p part : Pattern) (group i : ℕ) → RecordsWays W.word_chars program patterns → IsNextMatch (search_in W.word_chars program input) last captures found →
        slice_get patterns found.pattern ≡ Some p → found.pattern < length program.automaton.groups → IsGroupOf group part (Group 0 p) →
        slot_number program.automaton.groups found.pattern group + 1 < length captures.offsets →
        slice_index_or captures.offsets (slot_number program.automaton.groups found.pattern group) None ≡ Some i →
        (j : ℕ) × (slice_index_or captures.offsets (slot_number program.automaton.groups found.pattern group + 1) None ≡ Some j)
        × Goes (subject_of (search_in W.word_chars program input)) part i j }
    ensures first_span { (program : Compiled W) (patterns : List Pattern) (input : InputParts) (captures : Captured) (found : Matched)
        (p part : Pattern) (group : ℕ) (span : Span) → RecordsWays W.word_chars program patterns →
        IsFirstMatch (search_in W.word_chars program input) captures found →
        slice_get patterns found.pattern ≡ Some p → captures.groups ≡ program.automaton.groups →
        group < group_count program.automaton.groups found.pattern → IsGroupOf group part (Group 0 p) → group_span captures group ≡ Some span →
        Goes (subject_of (search_in W.word_chars program input)) part span.start span.end }
    ensures next_span { (program : Compiled W) (patterns : List Pattern) (input : InputParts) (last : Option ℕ) (captures : Captured) (found : Matched)
        (p part : Pattern) (group : ℕ) (span : Span) → RecordsWays W.word_chars program patterns →
        IsNextMatch (search_in W.word_chars program input) last captures found →
        slice_get patterns found.pattern ≡ Some p → captures.groups ≡ program.automaton.groups →
        group < group_count program.automaton.groups found.pattern → IsGroupOf group part (Group 0 p) → group_span captures group ≡ Some span →
        Goes (subject_of (search_in W.word_chars program input)) part span.start span.end }
{}

/// If a match sets the first slot of a group, it sets the second too, to that position or a later one; so a group's span is in order, and within the
/// match. The two slots of a group are a pair: 2p and 2p + 1.
pub fn a_group_that_begins_ends<W: WordClass>()
    ensures first { (program : Compiled W) (input : InputParts) (captures : Captured) (found : Matched) (pair i : ℕ) → ClosesGroups W.word_chars program →
        IsFirstMatch (search_in W.word_chars program input) captures found → 2 * pair + 1 < length captures.offsets →
        slice_index_or captures.offsets (2 * pair) None ≡ Some i →
        (j : ℕ) × (slice_index_or captures.offsets (2 * pair + 1) None ≡ Some j) × (i ≤ j) }
    ensures next { (program : Compiled W) (input : InputParts) (last : Option ℕ) (captures : Captured) (found : Matched) (pair i : ℕ) →
        ClosesGroups W.word_chars program → IsNextMatch (search_in W.word_chars program input) last captures found →
        2 * pair + 1 < length captures.offsets → slice_index_or captures.offsets (2 * pair) None ≡ Some i →
        (j : ℕ) × (slice_index_or captures.offsets (2 * pair + 1) None ≡ Some j) × (i ≤ j) }
    ensures first_span { (program : Compiled W) (input : InputParts) (captures : Captured) (found : Matched) (group : ℕ) (span : Span) →
        ClosesGroups W.word_chars program → IsFirstMatch (search_in W.word_chars program input) captures found →
        group_span captures group ≡ Some span → (found.span.start ≤ span.start) × (span.start ≤ span.end) × (span.end ≤ found.span.end) }
    ensures next_span { (program : Compiled W) (input : InputParts) (last : Option ℕ) (captures : Captured) (found : Matched) (group : ℕ) (span : Span) →
        ClosesGroups W.word_chars program → IsNextMatch (search_in W.word_chars program input) last captures found →
        group_span captures group ≡ Some span → (found.span.start ≤ span.start) × (span.start ≤ span.end) × (span.end ≤ found.span.end) }
{}

/// Patterns have at most one first match and at most one next match in a search, and no next one if the iteration is over. Captures over the same groups
/// with as many slots then hold the same.
pub fn at_most_one_match_of_patterns()
    ensures first { (patterns : List Pattern) (lists : GroupLists) (search : Search) (one other : Captured) (m n : Matched) →
        IsFirstOfPatterns patterns lists search one m → IsFirstOfPatterns patterns lists search other n →
        (m ≡ n) × (one.groups ≡ other.groups → length one.offsets ≡ length other.offsets → one ≡ other) }
    ensures next { (patterns : List Pattern) (lists : GroupLists) (search : Search) (last : Option ℕ) (one other : Captured) (m n : Matched) →
        IsNextOfPatterns patterns lists search last one m → IsNextOfPatterns patterns lists search last other n →
        (m ≡ n) × (one.groups ≡ other.groups → length one.offsets ≡ length other.offsets → one ≡ other) }
    ensures over { (patterns : List Pattern) (lists : GroupLists) (search : Search) (last : Option ℕ) (captures : Captured) (m : Matched) →
        IsNextOfPatterns patterns lists search last captures m → ¬ (IsOverOfPatterns patterns lists search last) }
{}

/// What a way of a pattern finds recorded in a slot stays recorded there, or is recorded later: so a group that each way goes through is set.
#[tactic(auto, using(crate::proofs::WaysLemmas::stays_recorded))]
pub fn what_was_recorded_stays()
    ensures { (x : Subject) (p : Pattern) (slot : ℕ) (m n : Point) (i : ℕ) → GoesWith x p m n → last_in m.1 slot ≡ Some i →
        (j : ℕ) × (last_in n.1 slot ≡ Some j) }
{}

/// The span of a group in a match's captures: from the position that the match's way recorded last in the group's first slot to the one in its second.
#[tactic(auto, using(crate::proofs::PatternMatchesLemmas::recorded_there))]
pub fn a_group_spans_what_its_way_records()
    ensures { (lists : GroupLists) (captures : Captured) (m : Matched) (records : List (ℕ × ℕ)) (group : ℕ) → captures.groups ≡ lists →
        HoldRecords captures m records → group < group_count lists m.pattern → slot_number lists m.pattern group + 1 < length captures.offsets →
        group_span captures group ≡ recorded_span records (slot_number lists m.pattern group) }
{}
