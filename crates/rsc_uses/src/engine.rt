//! Searches by a program, and what an engine's answers say of one another.
ghost use Rattle.std.specs.Prelude.{◌≡◌, ◌<◌, ◌⊎◌, Some, None, true, false, IfOk, IfErr, IfSome, IfNone};
ghost use Rattle.rsc_search.specs.Matches.{Matched};
ghost use Rattle.rsc_engine.specs.declared.error.Error.TheVariants.{OutOfMemory};
ghost use Rattle.rsc_engine.specs.Searches.{search_in};
ghost use Rattle.rsc_engine.specs.NextMatches.{AreAllMatches};
ghost use Rattle.rsc_engine.specs.Preferred.{HasNoFirstMatch, IsFirstMatch};

use rsc_captures::Captures;
use rsc_engine::{AsciiCompatible, Cache, Dfa, Error, Matches, Program, find, laws};
use rsc_look::WordClass;
use rsc_search::{Input, Match, Span};
use std::alloc::Global;

/// The span of the first match, or `None` if no match begins where one may.
pub fn first_span<W: WordClass + AsciiCompatible>(
    alloc: Global,
    program: &Program<W>,
    input: &Input<'_>,
    captures: &mut Captures,
) -> Result<Option<Span>, Error>
    ensures found { IfOk result (λ found. IfSome found (λ span.
        (first : Matched) × IsFirstMatch (search_in W.word_chars program.now input.now) captures.new first × (span ≡ first.span))) }
    ensures none { IfOk result (λ found. IfNone found (HasNoFirstMatch (search_in W.word_chars program.now input.now))) }
    ensures refused { IfErr result (λ e. e ≡ OutOfMemory) }
{
    match find(alloc, program, input, captures)? {
        None => Ok(None),
        Some(first) => Ok(Some(first.span())),
    }
}

/// Whether an input has a match, by a DFA and by `find`: they never differ.
pub fn has_match_twice<W: WordClass + AsciiCompatible>(
    alloc: Global,
    program: &Program<W>,
    dfa: &mut Dfa<'_, W>,
    input: &Input<'_>,
    captures: &mut Captures,
) -> Result<(bool, bool), Error>
    requires of_program { dfa.old ≡ program.now }
    ensures same { IfOk result (λ found. found.0 ≡ found.1) }
    ensures none { IfOk result (λ found. found.1 ≡ false → HasNoFirstMatch (search_in W.word_chars program.now input.now)) }
    ensures refused { IfErr result (λ e. e ≡ OutOfMemory) }
{
    laws::at_most_one_first_match();
    let by_table = dfa.is_match(input)?;
    match find(alloc, program, input, captures)? {
        None => Ok((by_table, false)),
        Some(_) => Ok((by_table, true)),
    }
}

/// Where the leftmost match ends, by a DFA and by `find`: they never differ.
pub fn leftmost_end_twice<W: WordClass + AsciiCompatible>(
    alloc: Global,
    program: &Program<W>,
    dfa: &mut Dfa<'_, W>,
    input: &Input<'_>,
    captures: &mut Captures,
) -> Result<(Option<usize>, Option<usize>), Error>
    requires of_program { dfa.old ≡ program.now }
    ensures same { IfOk result (λ ends. ends.0 ≡ ends.1) }
    ensures none { IfOk result (λ ends. IfNone ends.1 (HasNoFirstMatch (search_in W.word_chars program.now input.now))) }
    ensures refused { IfErr result (λ e. e ≡ OutOfMemory) }
{
    laws::at_most_one_first_match();
    let by_table = dfa.leftmost_end(input)?;
    match find(alloc, program, input, captures)? {
        None => Ok((by_table, None)),
        Some(found) => Ok((by_table, Some(found.end()))),
    }
}

/// The ends of the next two matches, of which the second is greater. `None` if there are no two: then the iteration is over, so it begins past its end.
pub fn next_two_ends<W: WordClass + AsciiCompatible>(
    matches: &mut Matches<'_, '_, W>,
    captures: &mut Captures,
) -> Result<Option<(usize, usize)>, Error>
    ensures ascending { IfOk result (λ found. IfSome found (λ ends. ends.0 < ends.1)) }
    ensures none { IfOk result (λ found. IfNone found (matches.new.input.span.end < matches.new.input.span.start)) }
    ensures refused { IfErr result (λ e. e ≡ OutOfMemory) }
{
    let Some(one) = matches.next(captures)? else {
        return Ok(None);
    };
    let Some(other) = matches.next(captures)? else {
        return Ok(None);
    };
    Ok(Some((one.end(), other.end())))
}

/// All matches in an input. `all_over`'s loop ends, since each match ends after the one before it and within the span.
pub fn all_matches<W: WordClass + AsciiCompatible>(
    alloc: Global,
    program: &Program<W>,
    input: Input<'_>,
) -> Result<Vec<Match>, Error>
    ensures all { IfOk result (λ all. AreAllMatches W.word_chars (record { program = program.now; input = input.entry; last = None }) all.items) }
    ensures refused { IfErr result (λ e. e ≡ OutOfMemory) }
{
    let mut captures = program.captures(alloc)?;
    let cache = Cache::new(alloc, program)?;
    Ok(all_over(alloc, cache, &mut captures, input)?.0)
}

/// All matches in an input over a cache, which comes back for the next input.
pub fn all_over<'p, 'h, W: WordClass + AsciiCompatible>(
    alloc: Global,
    cache: Cache<'p, W>,
    captures: &mut Captures,
    input: Input<'h>,
) -> Result<(Vec<Match>, Cache<'p, W>), Error>
    ensures all { IfOk result (λ both. AreAllMatches W.word_chars (record { program = cache.entry; input = input.entry; last = None }) both.0.items) }
    ensures cache { IfOk result (λ both. both.1 ≡ cache.entry) }
    ensures refused { IfErr result (λ e. e ≡ OutOfMemory) }
{
    laws::an_iteration_ends();
    let mut matches = cache.matches(input)?;
    let mut all = Vec::new(alloc);
    'matches: loop {
        match matches.next(captures)? {
            None => return Ok((all, matches.into_cache())),
            Some(found) => all.push(found)?,
        }
    }
}

/// Whether two inputs have a match, over one cache.
pub fn both_match<W: WordClass + AsciiCompatible>(
    cache: &mut Cache<'_, W>,
    captures: &mut Captures,
    one: &Input<'_>,
    other: &Input<'_>,
) -> Result<bool, Error>
    ensures kept { cache.new ≡ cache.old }
    ensures not { IfOk result (λ both. both ≡ false →
        HasNoFirstMatch (search_in W.word_chars cache.old one.now) ⊎ HasNoFirstMatch (search_in W.word_chars cache.old other.now)) }
    ensures both { IfOk result (λ both. both ≡ true →
        (¬ (HasNoFirstMatch (search_in W.word_chars cache.old one.now))) × (¬ (HasNoFirstMatch (search_in W.word_chars cache.old other.now)))) }
    ensures refused { IfErr result (λ e. e ≡ OutOfMemory) }
{
    laws::at_most_one_first_match();
    match cache.find(one, captures)? {
        None => return Ok(false),
        Some(_) => {}
    }
    match cache.find(other, captures)? {
        None => Ok(false),
        Some(_) => Ok(true),
    }
}
