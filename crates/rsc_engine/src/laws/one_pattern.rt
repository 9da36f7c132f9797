//! What a program of one pattern answers.
ghost use Rattle.std.specs.Prelude.{false, ◌≡◌, ℕ, Bool, [], ◌∷◌, Option};
ghost use Rattle.rsc_captures.specs.Captured.{Captured};
ghost use Rattle.rsc_captures.specs.Groups.{Groups};
ghost use Rattle.rsc_search.specs.Inputs.{InputParts};
ghost use Rattle.rsc_search.specs.Matches.{Matched};
ghost use Rattle.rsc_engine.specs.Searches.{Compiled, search_in};
ghost use Rattle.rsc_engine.specs.Patterns.{Pattern, may_be_empty};
ghost use Rattle.rsc_engine.specs.Preferred.{IsFirstMatch, HasNoFirstMatch};
ghost use Rattle.rsc_engine.specs.NextMatches.{IsNextMatch, IsOver};
ghost use Rattle.rsc_engine.specs.PatternMatches.{AnswersAs};
ghost use Rattle.rsc_engine.specs.OnePattern.{subject_in, IsMatchOfOne, GoesNowhereBefore, GoesNowhereIn, IsNextOfOne, IsOverOfOne};

use rsc_look::WordClass;

/// What a program of one pattern answers, by that pattern alone. What it is built of, its groups, its matcher and whether haystacks are text are clauses of
/// `build`. The first match goes the pattern's preferred way, and from no earlier position does the pattern go anywhere; so it is with the next match, if the
/// pattern takes bytes. Without a match the pattern goes nowhere.
///
/// Whatever the pattern, an iteration passes each position before the next match, and if there is none, each at which one may begin: the pattern goes nowhere
/// from there, or its preferred way from there is empty and left out, since the last match ended there, or haystacks are text and the position is within a
/// character. The next match isn't left out.
pub fn a_match_of_one_pattern<W: WordClass>()
    ensures first { (program : Compiled W) (p : Pattern) (groups : Groups) (matcher : ℕ × W) (input : InputParts) (captures : Captured) (found : Matched) →
        AnswersAs W.word_chars program (p ∷ []) → program.automaton.groups ≡ groups ∷ [] → program.automaton.matcher ≡ matcher →
        IsFirstMatch (search_in W.word_chars program input) captures found →
        IsMatchOfOne (subject_in W.word_chars input.haystack matcher) p groups input captures found
        × GoesNowhereBefore (subject_in W.word_chars input.haystack matcher) p input found.span.start }
    ensures none { (program : Compiled W) (p : Pattern) (matcher : ℕ × W) (input : InputParts) → AnswersAs W.word_chars program (p ∷ []) →
        program.automaton.matcher ≡ matcher → HasNoFirstMatch (search_in W.word_chars program input) →
        GoesNowhereIn (subject_in W.word_chars input.haystack matcher) p input }
    ensures next { (program : Compiled W) (p : Pattern) (groups : Groups) (matcher : ℕ × W) (input : InputParts) (last : Option ℕ) (captures : Captured)
        (found : Matched) → AnswersAs W.word_chars program (p ∷ []) → program.automaton.groups ≡ groups ∷ [] → program.automaton.matcher ≡ matcher →
        IsNextMatch (search_in W.word_chars program input) last captures found →
        IsMatchOfOne (subject_in W.word_chars input.haystack matcher) p groups input captures found
        × (may_be_empty p ≡ false → GoesNowhereBefore (subject_in W.word_chars input.haystack matcher) p input found.span.start) }
    ensures over { (program : Compiled W) (p : Pattern) (matcher : ℕ × W) (input : InputParts) (last : Option ℕ) →
        AnswersAs W.word_chars program (p ∷ []) → program.automaton.matcher ≡ matcher → IsOver (search_in W.word_chars program input) last →
        may_be_empty p ≡ false → GoesNowhereIn (subject_in W.word_chars input.haystack matcher) p input }
    ensures next_of_one { (program : Compiled W) (p : Pattern) (groups : Groups) (matcher : ℕ × W) (utf8 : Bool) (input : InputParts) (last : Option ℕ)
        (captures : Captured) (found : Matched) → AnswersAs W.word_chars program (p ∷ []) → program.automaton.groups ≡ groups ∷ [] →
        program.automaton.matcher ≡ matcher → program.utf8 ≡ utf8 → IsNextMatch (search_in W.word_chars program input) last captures found →
        IsNextOfOne (subject_in W.word_chars input.haystack matcher) p groups utf8 input last found.span }
    ensures over_of_one { (program : Compiled W) (p : Pattern) (groups : Groups) (matcher : ℕ × W) (utf8 : Bool) (input : InputParts) (last : Option ℕ) →
        AnswersAs W.word_chars program (p ∷ []) → program.automaton.groups ≡ groups ∷ [] → program.automaton.matcher ≡ matcher → program.utf8 ≡ utf8 →
        IsOver (search_in W.word_chars program input) last → IsOverOfOne (subject_in W.word_chars input.haystack matcher) p groups utf8 input last }
{}
