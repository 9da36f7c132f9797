//! The program of the patterns that a builder has.
ghost use Rattle.std.specs.Prelude.{IsTrue, ◌≡◌, ◌≤◌, ◌++◌, [], ◌∷◌, Err, length, IfOk, IfErr, OnOk};
ghost use Rattle.std.specs.List.{list_any};
ghost use Rattle.rsc_look.specs.declared.assertion.Look.{Look};
ghost use Rattle.rsc_nfa.specs.Classes.{asserts};
ghost use Rattle.rsc_engine.specs.declared.error.Error.TheVariants.{TooLarge};
ghost use Rattle.rsc_engine.specs.Asks.{asks};
ghost use Rattle.rsc_engine.specs.Patterns.{Recognizes};
ghost use Rattle.rsc_engine.specs.GroupEnds.{RecordsEnds};
ghost use Rattle.rsc_engine.specs.GroupOrder.{ClosesGroups};
ghost use Rattle.rsc_engine.specs.PatternMatches.{AnswersAs};
ghost use Rattle.rsc_engine.specs.PatternOrder.{PrefersLesser, PrefersFirstEnds, RecordsWays, RecordsFirstWays, RecordsPreferredWays};
ghost use Rattle.rsc_engine.specs.Refusals.{IsErrorWithAnyLimit, IsBuildError, RepeatsName, are_too_large};
ghost use Rattle.rsc_engine.specs.Sizes.{size_of_program};
ghost use Rattle.rsc_engine.specs.Parts.{pattern_of, patterns_of, groups_as_pattern, group_lists_of, limit_of};

use super::compile::compile;
use super::names::info_of;
use super::size::are_too_large;
use super::{Builder, Part};
use crate::{Error, Program};
use rsc_look::{LookMatcher, WordClass};
use rsc_nfa::{BuildError, Nfa};

impl<'n> Builder<'n> {
    /// The program of the finished patterns and of a last one. If haystacks are text, an iteration leaves out empty matches within
    /// characters. Group 0 of a pattern is the whole match, and of the patterns that match from a position the first is preferred.
    ///
    /// A match goes its pattern's preferred way: the first that gets to a match, with the earlier alternative before the later, once more before enough if
    /// the repetition is greedy, and enough before once more if it's lazy. On a way no choice is made twice at one position, which leaves out ways only
    /// where a part that may be empty is repeated without a limit. A slot holds the position that the way records in it last.
    ///
    /// # Errors
    ///
    /// `TooLarge` if the patterns have more states than [`Builder::limit_states`] allows, or all together more than 1,073,741,823 groups, with one for the
    /// whole match of each pattern; this is known before a state is made. Otherwise `RepeatedName` if a pattern has a name twice. Out of memory may come before
    /// that.
    ///
    /// # Examples
    ///
    /// ```
    /// // The patterns `if` and [a-z]+, in this order.
    /// let mut builder = Builder::new(rt.alloc());
    /// let keyword = builder.literal(b"if")?;
    /// builder.add_pattern(keyword)?;
    /// let letters = builder.plus(builder.range(b'a', b'z'))?;
    /// let program = builder.build(AsciiWord, true, letters)?;
    /// let mut captures = program.captures(rt.alloc())?;
    /// let found = find(rt.alloc(), &program, &Input::new(b"iff"), &mut captures)?;
    /// // Both match from 0, and the first one is preferred.
    /// assert!(rt; found.is_some_and(|it| it.pattern() == PatternID::ZERO && it.end() == 2));
    /// ```
    pub fn build<W: WordClass>(
        self,
        word_class: W,
        utf8: bool,
        last: Part<'n>,
    ) -> Result<Program<W>, Error>
        ensures matches { IfOk result (λ program. Recognizes W.word_chars program (patterns_of self.entry ++ pattern_of last.entry ∷ [])) }
        ensures groups { IfOk result (λ program. program.automaton.groups ≡ group_lists_of self.entry ++ groups_as_pattern last.entry ∷ []) }
        ensures records_ends { IfOk result (λ program. RecordsEnds W.word_chars program) }
        ensures prefers_lesser { IfOk result (λ program. PrefersLesser W.word_chars program) }
        ensures first_ends { IfOk result (λ program. PrefersFirstEnds W.word_chars program (patterns_of self.entry ++ pattern_of last.entry ∷ [])) }
        ensures ways { IfOk result (λ program. RecordsWays W.word_chars program (patterns_of self.entry ++ pattern_of last.entry ∷ [])) }
        ensures first_ways { IfOk result (λ program. RecordsFirstWays W.word_chars program (patterns_of self.entry ++ pattern_of last.entry ∷ [])) }
        ensures preferred_ways { IfOk result (λ program. RecordsPreferredWays W.word_chars program (patterns_of self.entry ++ pattern_of last.entry ∷ [])) }
        ensures closes_groups { IfOk result (λ program. ClosesGroups W.word_chars program) }
        ensures answers { IfOk result (λ program. AnswersAs W.word_chars program (patterns_of self.entry ++ pattern_of last.entry ∷ [])) }
        ensures utf8 { IfOk result (λ program. program.utf8 ≡ utf8) }
        ensures matcher { IfOk result (λ program. program.automaton.matcher ≡ (10, word_class)) }
        ensures names_differ { OnOk result (¬ (RepeatsName (group_lists_of self.entry ++ groups_as_pattern last.entry ∷ []))) }
        ensures looks { IfOk result (λ program. (look : Look) → list_any (asserts look) program.automaton.states
            ≡ list_any (asks look) (patterns_of self.entry ++ pattern_of last.entry ∷ [])) }
        ensures count { IfOk result (λ program.
            length program.automaton.states ≡ size_of_program (patterns_of self.entry ++ pattern_of last.entry ∷ [])) }
        ensures most { IfOk result (λ program. length program.automaton.states ≤ limit_of self.entry) }
        ensures too_large { IsTrue (are_too_large (limit_of self.entry) (patterns_of self.entry ++ pattern_of last.entry ∷ [])
            (group_lists_of self.entry ++ groups_as_pattern last.entry ∷ [])) → result ≡ Err TooLarge }
        ensures refused { IfErr result (IsBuildError (limit_of self.entry) (patterns_of self.entry ++ pattern_of last.entry ∷ [])
            (group_lists_of self.entry ++ groups_as_pattern last.entry ∷ [])) }
        ensures fails { IfErr result (IsErrorWithAnyLimit (group_lists_of self.entry ++ groups_as_pattern last.entry ∷ [])) }
    {
        self.build_with(LookMatcher::new(word_class), utf8, last)
    }

    /// The program that `build` makes, with a matcher: its line terminator is where lines begin and end for `StartLF` and `EndLF`, and its word predicate says
    /// which characters are of a word.
    ///
    /// # Errors
    ///
    /// `TooLarge`, otherwise `RepeatedName`, as [`Builder::build`] says. Out of memory may come before that.
    pub fn build_with<W: WordClass>(
        mut self,
        matcher: LookMatcher<W>,
        utf8: bool,
        last: Part<'n>,
    ) -> Result<Program<W>, Error>
        ensures matches { IfOk result (λ program. Recognizes W.word_chars program (patterns_of self.entry ++ pattern_of last.entry ∷ [])) }
        ensures groups { IfOk result (λ program. program.automaton.groups ≡ group_lists_of self.entry ++ groups_as_pattern last.entry ∷ []) }
        ensures records_ends { IfOk result (λ program. RecordsEnds W.word_chars program) }
        ensures prefers_lesser { IfOk result (λ program. PrefersLesser W.word_chars program) }
        ensures first_ends { IfOk result (λ program. PrefersFirstEnds W.word_chars program (patterns_of self.entry ++ pattern_of last.entry ∷ [])) }
        ensures ways { IfOk result (λ program. RecordsWays W.word_chars program (patterns_of self.entry ++ pattern_of last.entry ∷ [])) }
        ensures first_ways { IfOk result (λ program. RecordsFirstWays W.word_chars program (patterns_of self.entry ++ pattern_of last.entry ∷ [])) }
        ensures preferred_ways { IfOk result (λ program. RecordsPreferredWays W.word_chars program (patterns_of self.entry ++ pattern_of last.entry ∷ [])) }
        ensures closes_groups { IfOk result (λ program. ClosesGroups W.word_chars program) }
        ensures answers { IfOk result (λ program. AnswersAs W.word_chars program (patterns_of self.entry ++ pattern_of last.entry ∷ [])) }
        ensures utf8 { IfOk result (λ program. program.utf8 ≡ utf8) }
        ensures matcher { IfOk result (λ program. program.automaton.matcher ≡ matcher) }
        ensures names_differ { OnOk result (¬ (RepeatsName (group_lists_of self.entry ++ groups_as_pattern last.entry ∷ []))) }
        ensures looks { IfOk result (λ program. (look : Look) → list_any (asserts look) program.automaton.states
            ≡ list_any (asks look) (patterns_of self.entry ++ pattern_of last.entry ∷ [])) }
        ensures count { IfOk result (λ program.
            length program.automaton.states ≡ size_of_program (patterns_of self.entry ++ pattern_of last.entry ∷ [])) }
        ensures most { IfOk result (λ program. length program.automaton.states ≤ limit_of self.entry) }
        ensures too_large { IsTrue (are_too_large (limit_of self.entry) (patterns_of self.entry ++ pattern_of last.entry ∷ [])
            (group_lists_of self.entry ++ groups_as_pattern last.entry ∷ [])) → result ≡ Err TooLarge }
        ensures refused { IfErr result (IsBuildError (limit_of self.entry) (patterns_of self.entry ++ pattern_of last.entry ∷ [])
            (group_lists_of self.entry ++ groups_as_pattern last.entry ∷ [])) }
        ensures fails { IfErr result (IsErrorWithAnyLimit (group_lists_of self.entry ++ groups_as_pattern last.entry ∷ [])) }
    {
        if are_too_large(self.limit, self.patterns.as_slice(), &last) {
            return Err(Error::TooLarge);
        }
        self.add_pattern(last)?;
        let info = info_of(self.alloc, self.patterns.as_slice())?;
        let (states, first) = compile(self.alloc, &info, self.patterns.as_slice())?;
        match Nfa::new(self.alloc, info, matcher, &states) {
            Ok(nfa) => Ok(Program::of_patterns(nfa, first, utf8)),
            Err(error) => match error {
                BuildError::OutOfMemory => Err(Error::OutOfMemory),
                // What the states name is there.
                _ => unreachable!(),
            },
        }
    }
}
