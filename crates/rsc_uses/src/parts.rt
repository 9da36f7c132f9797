//! Searches for a part of a pattern: a program is built of it, and what an engine's answer says of the part itself.
ghost use Rattle.std.specs.FinSet as sets;
ghost use Rattle.std.specs.Prelude.{◌≡◌, ◌*◌, ◌<◌, ◌≤◌, ◌++◌, [], ◌∷◌, ℕ, Some, None, true, false, IfOk, IfErr, OnOk, IfSome, IfNone, length, slice_index, slice_index_or};
ghost use Rattle.rsc_captures.specs.Captured.{group_span};
ghost use Rattle.rsc_captures.specs.Groups.{all_group_count};
ghost use Rattle.rsc_look.specs.declared.assertion.Look.{Look};
ghost use Rattle.rsc_engine.specs.Asks.{asks};
ghost use Rattle.rsc_engine.specs.declared.error.Error.TheVariants.{OutOfMemory};
ghost use Rattle.rsc_engine.specs.Patterns.{Goes, Then, Either, Literal, Group, may_be_empty};
ghost use Rattle.rsc_engine.specs.FirstEnds.{loops_take_bytes, IsFirstEnd};
ghost use Rattle.rsc_engine.specs.GroupNumbers.{as_whole};
ghost use Rattle.rsc_engine.specs.Parts.{pattern_of, groups_of_part, groups_as_pattern};
ghost use Rattle.rsc_engine.specs.Refusals.{IsErrorWithAnyLimit, RepeatsName};
ghost use Rattle.rsc_uses.specs.Texts.{text_of, GoesNowhere, GoesNowhereBefore, GoesNowhereIn, HoldsFirstWay, HoldsPreferredWay, EndsPreferredWay};

use rsc_captures::Captures;
use rsc_engine::{AsciiCompatible, Builder, Dfa, Error, Matches, Part, Program, find, laws};
use rsc_look::{LookSet, WordClass};
use rsc_search::{Input, Match, Span};
use std::alloc::Global;

/// The assertions that a search for a part asks: those which stand in it, in parts that may be there. So a search for `abc` asks none.
///
/// # Errors
///
/// As [`Builder::build`].
pub fn looks_of<W: WordClass + AsciiCompatible>(
    alloc: Global,
    word_class: W,
    part: Part<'_>,
) -> Result<LookSet, Error>
    ensures asked { IfOk result (λ set. (look : Look) → sets.contains set look ≡ asks look (pattern_of part.entry)) }
    ensures refused { IfErr result (IsErrorWithAnyLimit (groups_as_pattern part.entry ∷ [])) }
{
    let program = Builder::new(alloc).build(word_class, true, part)?;
    Ok(program.nfa().looks())
}

/// Where a part goes first in a haystack, whose line terminator is `\n`: from where to where, or `None` if it goes nowhere. It ends where the part's preferred
/// way does; if its loops take bytes, that is the first end.
///
/// # Errors
///
/// As [`Builder::build`].
pub fn find_part<W: WordClass + AsciiCompatible>(
    alloc: Global,
    word_class: W,
    part: Part<'_>,
    haystack: &[u8],
) -> Result<Option<(usize, usize)>, Error>
    ensures found { IfOk result (λ found. IfSome found (λ ends.
        Goes (text_of haystack.now (W.word_chars word_class)) (pattern_of part.entry) ends.0 ends.1)) }
    ensures within { IfOk result (λ found. IfSome found (λ ends. ends.1 ≤ length haystack.now)) }
    ensures first { IfOk result (λ found. IfSome found (λ ends.
        GoesNowhereBefore (text_of haystack.now (W.word_chars word_class)) (pattern_of part.entry) ends.0)) }
    ensures none { IfOk result (λ found. IfNone found (GoesNowhere (text_of haystack.now (W.word_chars word_class)) (pattern_of part.entry))) }
    ensures first_end { IfOk result (λ found. IfSome found (λ ends. loops_take_bytes (pattern_of part.entry) ≡ true →
        IsFirstEnd (text_of haystack.now (W.word_chars word_class)) (pattern_of part.entry) (λ j. j ≤ length haystack.now) ends.0 ends.1)) }
    ensures way { IfOk result (λ found. IfSome found (λ ends.
        EndsPreferredWay (text_of haystack.now (W.word_chars word_class)) (as_whole (groups_as_pattern part.entry ∷ []) 0 (pattern_of part.entry))
        (length haystack.now) ends.0 ends.1)) }
    ensures refused { IfErr result (IsErrorWithAnyLimit (groups_as_pattern part.entry ∷ [])) }
{
    laws::one_pattern::a_match_of_one_pattern::<W>();
    laws::a_preferred_way_is_the_first_way();
    let program = Builder::new(alloc).build(word_class, true, part)?;
    let mut captures = program.captures(alloc)?;
    let input = Input::new(haystack);
    match find(alloc, &program, &input, &mut captures)? {
        None => Ok(None),
        Some(found) => Ok(Some((found.start(), found.end()))),
    }
}

/// The first match of a part, with captures whose first two slots hold where it starts and ends; so its group 0 has its span. The slots of all its groups hold
/// what its preferred way records there; if the part's loops take bytes, that is its first way.
pub fn find_with_slots<W: WordClass + AsciiCompatible>(
    alloc: Global,
    word_class: W,
    part: Part<'_>,
    input: &Input<'_>,
) -> Result<Option<(Match, Captures)>, Error>
    ensures start { IfOk result (λ found. IfSome found (λ both. slice_index_or both.1.offsets 0 None ≡ Some both.0.span.start)) }
    ensures end { IfOk result (λ found. IfSome found (λ both. slice_index_or both.1.offsets 1 None ≡ Some both.0.span.end)) }
    ensures group { IfOk result (λ found. IfSome found (λ both. group_span both.1 0 ≡ Some both.0.span)) }
    ensures slots { IfOk result (λ found. IfSome found (λ both. length both.1.offsets ≡ 2 * all_group_count (groups_as_pattern part.entry ∷ []))) }
    ensures preferred { IfOk result (λ found. IfSome found (λ both.
        HoldsPreferredWay (text_of input.now.haystack (W.word_chars word_class)) (as_whole (groups_as_pattern part.entry ∷ []) 0 (pattern_of part.entry))
        input.now.span.end both.0.span both.1.offsets)) }
    ensures way { IfOk result (λ found. IfSome found (λ both. loops_take_bytes (pattern_of part.entry) ≡ true →
        HoldsFirstWay (text_of input.now.haystack (W.word_chars word_class)) (as_whole (groups_as_pattern part.entry ∷ []) 0 (pattern_of part.entry))
        input.now.span.end both.0.span both.1.offsets)) }
    ensures none { IfOk result (λ found. IfNone found (GoesNowhereIn input.now (W.word_chars word_class) (pattern_of part.entry))) }
    ensures refused { IfErr result (IsErrorWithAnyLimit (groups_as_pattern part.entry ∷ [])) }
{
    laws::one_pattern::a_match_of_one_pattern::<W>();
    laws::a_preferred_way_is_the_first_way();
    laws::the_first_group_is_the_match::<W>();
    let program = Builder::new(alloc).build(word_class, true, part)?;
    let mut captures = program.captures(alloc)?;
    match find(alloc, &program, input, &mut captures)? {
        None => Ok(None),
        Some(found) => Ok(Some((found, captures))),
    }
}

/// The first match of a part, with its group 0, which has its span.
pub fn find_with_group<W: WordClass + AsciiCompatible>(
    alloc: Global,
    word_class: W,
    part: Part<'_>,
    input: &Input<'_>,
) -> Result<Option<(Match, Option<Span>)>, Error>
    ensures group { IfOk result (λ found. IfSome found (λ both. both.1 ≡ Some both.0.span)) }
    ensures none { IfOk result (λ found. IfNone found (GoesNowhereIn input.now (W.word_chars word_class) (pattern_of part.entry))) }
    ensures refused { IfErr result (IsErrorWithAnyLimit (groups_as_pattern part.entry ∷ [])) }
{
    match find_with_slots(alloc, word_class, part, input)? {
        None => Ok(None),
        Some((found, captures)) => Ok(Some((found, captures.get_group(0)))),
    }
}

/// Where a part goes in the first match of it and of another part after it, whatever the two repeat. `None` if they go nowhere.
pub fn find_before<'n, W: WordClass + AsciiCompatible>(
    alloc: Global,
    word_class: W,
    part: Part<'n>,
    after: Part<'n>,
    haystack: &[u8],
) -> Result<Option<Span>, Error>
    ensures goes { IfOk result (λ found. IfSome found (λ span.
        Goes (text_of haystack.now (W.word_chars word_class)) (pattern_of part.entry) span.start span.end)) }
    ensures none { IfOk result (λ found. IfNone found
        (GoesNowhere (text_of haystack.now (W.word_chars word_class)) (Then (pattern_of part.entry) (pattern_of after.entry)))) }
    ensures refused { IfErr result (IsErrorWithAnyLimit ((None ∷ None ∷ groups_of_part part.entry ++ groups_of_part after.entry) ∷ [])) }
{
    laws::a_first_match_is_of_a_pattern::<W>();
    laws::a_group_is_where_its_part_goes::<W>();
    laws::captures_are_of_a_way::<W>();
    laws::a_group_spans_what_its_way_records();
    laws::what_was_recorded_stays();
    let builder = Builder::new(alloc);
    let group = builder.group(None, part)?;
    let both = builder.then(group, after)?;
    let program = builder.build(word_class, true, both)?;
    let mut captures = program.captures(alloc)?;
    let input = Input::new(haystack);
    match find(alloc, &program, &input, &mut captures)? {
        None => Ok(None),
        Some(_) => match captures.get_group(1) {
            None => Ok(None),
            Some(span) => Ok(Some(span)),
        },
    }
}

/// The first match of two parts, of which the first is preferred: the match is of the other one only if the first goes nowhere from its start. `None` if
/// neither goes anywhere.
pub fn first_of_two<'n, W: WordClass + AsciiCompatible>(
    alloc: Global,
    word_class: W,
    one: Part<'n>,
    other: Part<'n>,
    haystack: &[u8],
) -> Result<Option<Match>, Error>
    ensures other { IfOk result (λ found. IfSome found (λ m. m.pattern ≡ 1 → (j : ℕ) → j ≤ length haystack.now →
        ¬ (Goes (text_of haystack.now (W.word_chars word_class)) (pattern_of one.entry) m.span.start j))) }
    ensures none { IfOk result (λ found. IfNone found (GoesNowhere (text_of haystack.now (W.word_chars word_class)) (pattern_of one.entry)
        × GoesNowhere (text_of haystack.now (W.word_chars word_class)) (pattern_of other.entry))) }
    ensures refused { IfErr result (IsErrorWithAnyLimit (groups_as_pattern one.entry ∷ groups_as_pattern other.entry ∷ [])) }
{
    laws::a_first_match_is_of_a_pattern::<W>();
    laws::a_match_is_of_the_least_pattern::<W>();
    let mut builder = Builder::new(alloc);
    builder.add_pattern(one)?;
    let program = builder.build(word_class, true, other)?;
    let mut captures = program.captures(alloc)?;
    let input = Input::new(haystack);
    match find(alloc, &program, &input, &mut captures)? {
        None => Ok(None),
        Some(found) => Ok(Some(found)),
    }
}

/// Where the first match of an iteration is: the part goes there, and nowhere from an earlier position; `None` only if it goes nowhere.
pub fn first_of_iteration<W: WordClass + AsciiCompatible>(
    alloc: Global,
    word_class: W,
    part: Part<'_>,
    haystack: &[u8],
) -> Result<Option<(usize, usize)>, Error>
    ensures found { IfOk result (λ found. IfSome found (λ ends.
        Goes (text_of haystack.now (W.word_chars word_class)) (pattern_of part.entry) ends.0 ends.1)) }
    ensures within { IfOk result (λ found. IfSome found (λ ends. ends.1 ≤ length haystack.now)) }
    ensures first { IfOk result (λ found. IfSome found (λ ends.
        GoesNowhereBefore (text_of haystack.now (W.word_chars word_class)) (pattern_of part.entry) ends.0)) }
    ensures none { IfOk result (λ found. IfNone found (GoesNowhere (text_of haystack.now (W.word_chars word_class)) (pattern_of part.entry))) }
    ensures refused { IfErr result (IsErrorWithAnyLimit (groups_as_pattern part.entry ∷ [])) }
{
    laws::a_next_match_is_of_a_pattern::<W>();
    // The haystack isn't taken for text, so no match is left out for being within a character.
    let program = Builder::new(alloc).build(word_class, false, part)?;
    let mut captures = program.captures(alloc)?;
    let input = Input::new(haystack);
    let mut matches = Matches::new(alloc, &program, input)?;
    match matches.next(&mut captures)? {
        None => Ok(None),
        Some(found) => Ok(Some((found.start(), found.end()))),
    }
}

/// Where the first match of an iteration is that leaves out empty matches within characters, of a part that takes a byte: of such a part it leaves out none.
pub fn first_in_text<W: WordClass + AsciiCompatible>(
    alloc: Global,
    word_class: W,
    part: Part<'_>,
    text: &[u8],
) -> Result<Option<Match>, Error>
    requires { may_be_empty (pattern_of part) ≡ false }
    ensures goes { IfOk result (λ found. IfSome found (λ m.
        Goes (text_of text.now (W.word_chars word_class)) (pattern_of part.entry) m.span.start m.span.end)) }
    ensures first { IfOk result (λ found. IfSome found (λ m.
        GoesNowhereBefore (text_of text.now (W.word_chars word_class)) (pattern_of part.entry) m.span.start)) }
    ensures none { IfOk result (λ found. IfNone found ((i j : ℕ) → j ≤ length text.now →
        ¬ (Goes (text_of text.now (W.word_chars word_class)) (pattern_of part.entry) i j))) }
    ensures refused { IfErr result (IsErrorWithAnyLimit (groups_as_pattern part.entry ∷ [])) }
{
    laws::only_overlapping_matches_are_left_out::<W>();
    laws::one_pattern::a_match_of_one_pattern::<W>();
    let program = Builder::new(alloc).build(word_class, true, part)?;
    let mut captures = program.captures(alloc)?;
    let input = Input::new(text);
    let mut matches = Matches::new(alloc, &program, input)?;
    match matches.next(&mut captures)? {
        None => Ok(None),
        Some(found) => Ok(Some(found)),
    }
}

/// A position to which a part goes, by a DFA: the earliest end.
pub fn earliest_end_of_part<W: WordClass + AsciiCompatible>(
    alloc: Global,
    word_class: W,
    part: Part<'_>,
    haystack: &[u8],
) -> Result<Option<usize>, Error>
    ensures end { IfOk result (λ found. IfSome found (λ end.
        (i : ℕ) × Goes (text_of haystack.now (W.word_chars word_class)) (pattern_of part.entry) i end)) }
    ensures none { IfOk result (λ found. IfNone found (GoesNowhere (text_of haystack.now (W.word_chars word_class)) (pattern_of part.entry))) }
    ensures refused { IfErr result (IsErrorWithAnyLimit (groups_as_pattern part.entry ∷ [])) }
{
    laws::an_earliest_end_is_of_a_pattern::<W>();
    laws::a_first_match_is_of_a_pattern::<W>();
    let program = Builder::new(alloc).build(word_class, true, part)?;
    let input = Input::new(haystack);
    let mut dfa = Dfa::new(alloc, &program, 100);
    match dfa.earliest_end(&input)? {
        None => Ok(None),
        Some(end) => Ok(Some(end)),
    }
}

/// The position to which the first match of a part goes: from the first position from which it goes anywhere, to the first end if its loops take bytes.
pub fn leftmost_end_of_part<W: WordClass + AsciiCompatible>(
    alloc: Global,
    word_class: W,
    part: Part<'_>,
    haystack: &[u8],
) -> Result<Option<usize>, Error>
    ensures within { IfOk result (λ found. IfSome found (λ end. end ≤ length haystack.now)) }
    ensures first { IfOk result (λ found. IfSome found (λ end.
        (i : ℕ) × Goes (text_of haystack.now (W.word_chars word_class)) (pattern_of part.entry) i end
        × GoesNowhereBefore (text_of haystack.now (W.word_chars word_class)) (pattern_of part.entry) i
        × (loops_take_bytes (pattern_of part.entry) ≡ true →
        IsFirstEnd (text_of haystack.now (W.word_chars word_class)) (pattern_of part.entry) (λ j. j ≤ length haystack.now) i end))) }
    ensures none { IfOk result (λ found. IfNone found (GoesNowhere (text_of haystack.now (W.word_chars word_class)) (pattern_of part.entry))) }
    ensures refused { IfErr result (IsErrorWithAnyLimit (groups_as_pattern part.entry ∷ [])) }
{
    laws::a_leftmost_end_is_of_the_least_pattern::<W>();
    laws::a_first_match_is_of_a_pattern::<W>();
    let program = Builder::new(alloc).build(word_class, true, part)?;
    let input = Input::new(haystack);
    let mut dfa = Dfa::new(alloc, &program, 100);
    match dfa.leftmost_end(&input)? {
        None => Ok(None),
        Some(end) => Ok(Some(end)),
    }
}

/// A part that is one of two texts, of which the first is preferred.
pub fn one_of_two<'n>(
    alloc: Global,
    builder: &Builder<'n>,
    one: &[u8],
    other: &[u8],
) -> Result<Part<'n>, Error>
    ensures part { IfOk result (λ part. pattern_of part ≡ Either (Literal one.now) (Literal other.now)) }
    ensures refused { IfErr result (λ e. e ≡ OutOfMemory) }
{
    let mut parts = Vec::new(alloc);
    parts.push(builder.literal(one)?)?;
    parts.push(builder.literal(other)?)?;
    builder.one_of(parts)
}

/// The program of two parts, one after the other: the groups of the first come before those of the second.
pub fn program_of_two<W: WordClass>(
    alloc: Global,
    word_class: W,
    one: Part<'_>,
    other: Part<'_>,
) -> Result<Program<W>, Error>
    ensures groups { IfOk result (λ program. program.automaton.groups ≡ (None ∷ groups_of_part one.entry ++ groups_of_part other.entry) ∷ []) }
    ensures refused { IfErr result (IsErrorWithAnyLimit ((None ∷ groups_of_part one.entry ++ groups_of_part other.entry) ∷ [])) }
{
    let builder = Builder::new(alloc);
    let both = builder.then(one, other)?;
    builder.build(word_class, true, both)
}

/// The program of a part. If there is one, the part has no name twice.
pub fn program_of_part<W: WordClass>(
    alloc: Global,
    word_class: W,
    part: Part<'_>,
) -> Result<Program<W>, Error>
    ensures names { OnOk result (¬ (RepeatsName (groups_as_pattern part.entry ∷ []))) }
    ensures refused { IfErr result (IsErrorWithAnyLimit (groups_as_pattern part.entry ∷ [])) }
{
    let program = Builder::new(alloc).build(word_class, true, part)?;
    Ok(program)
}
