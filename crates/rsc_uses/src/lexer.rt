//! A lexer: the tokens of a text, which an engine finds side by side, and the bytes of a group.
ghost use Rattle.std.specs.Prelude.{◌≡◌, ◌≤◌, ◌⊎◌, ◌↔◌, ◌++◌, [], ◌∷◌, true, false, IsTrue, ℕ, None, is_none, length, map, slice_range, IfOk, IfErr, IfSome, IfNone};
ghost use Rattle.rsc_engine.specs.FirstEnds.{loops_take_bytes};
ghost use Rattle.std.specs.List.{list_any};
ghost use Rattle.rsc_primitives.specs.Utf8.{is_word_byte};
ghost use Rattle.rsc_engine.specs.Patterns.{Class, Repeat, Goes, may_be_empty};
ghost use Rattle.rsc_engine.specs.Parts.{pattern_of, patterns_of, groups_as_pattern, group_lists_of};
ghost use Rattle.rsc_engine.specs.Refusals.{IsErrorWithAnyLimit, RunsOut};
ghost use Rattle.rsc_uses.specs.Lexed.{AreLexed, AreLexedWith};
ghost use Rattle.rsc_uses.specs.Texts.{text_of, GoesNowhere};

use crate::engine::all_matches;
use rsc_engine::{AsciiCompatible, Builder, Error, Matches, Part, find, laws};
use rsc_look::{AsciiWord, WordClass};
use rsc_search::{Anchored, Input, Match, Span};
use std::alloc::Global;

/// The tokens of a text: each is of the first pattern that goes on from where the token before it ended, and ends where that pattern's preferred way does,
/// which is its first end if its loops take bytes; and from the end of the last none goes on. No pattern may be empty.
pub fn tokens_of<'n, W: WordClass + AsciiCompatible>(
    alloc: Global,
    word_class: W,
    builder: Builder<'n>,
    last: Part<'n>,
    text: &[u8],
) -> Result<Vec<Match>, Error>
    requires { list_any may_be_empty (patterns_of builder ++ pattern_of last ∷ []) ≡ false }
    ensures tokens { IfOk result (λ tokens.
        AreLexed (text_of text.now (W.word_chars word_class)) (patterns_of builder.entry ++ pattern_of last.entry ∷ [])
        (group_lists_of builder.entry ++ groups_as_pattern last.entry ∷ []) 0 tokens.items) }
    ensures refused { IfErr result (IsErrorWithAnyLimit (group_lists_of builder.entry ++ groups_as_pattern last.entry ∷ [])) }
{
    laws::anchored_matches_are_side_by_side::<W>();
    laws::a_match_ends_at_its_first_end::<W>();
    let program = builder.build(word_class, true, last)?;
    let input = Input::new(text).anchored(Anchored::Yes);
    let tokens = all_matches(alloc, &program, input)?;
    Ok(tokens)
}

/// The tokens of a text as `tokens_of` finds them, each with the span of a group of its pattern: what the pattern's preferred way goes through last, or `None`.
pub fn tokens_with_group<'n, W: WordClass + AsciiCompatible>(
    alloc: Global,
    word_class: W,
    builder: Builder<'n>,
    last: Part<'n>,
    group: usize,
    text: &[u8],
) -> Result<Vec<(Match, Option<Span>)>, Error>
    requires { list_any may_be_empty (patterns_of builder ++ pattern_of last ∷ []) ≡ false }
    ensures tokens { IfOk result (λ tokens.
        AreLexedWith (text_of text.now (W.word_chars word_class)) (patterns_of builder.entry ++ pattern_of last.entry ∷ [])
        (group_lists_of builder.entry ++ groups_as_pattern last.entry ∷ []) group 0 tokens.items) }
    ensures refused { IfErr result (IsErrorWithAnyLimit (group_lists_of builder.entry ++ groups_as_pattern last.entry ∷ [])) }
{
    laws::anchored_matches_are_side_by_side::<W>();
    laws::a_match_ends_at_its_first_end::<W>();
    laws::a_group_spans_what_its_way_records();
    laws::an_iteration_ends();
    let program = builder.build(word_class, true, last)?;
    let mut captures = program.captures(alloc)?;
    let input = Input::new(text).anchored(Anchored::Yes);
    let mut matches = Matches::new(alloc, &program, input)?;
    let mut all = Vec::new(alloc);
    'matches: loop {
        match matches.next(&mut captures)? {
            None => return Ok(all),
            Some(found) => {
                // So that the slots of the group are known to be there.
                let _slot = captures.group_info().slot(found.pattern(), group);
                all.push((found, captures.get_group(group)))?;
            }
        }
    }
}

/// The tokens of a text in the patterns of a list and of a last part, as `tokens_of` finds them; `None` exactly if one of them may be empty.
pub fn tokens_of_parts<'n, W: WordClass + AsciiCompatible>(
    alloc: Global,
    word_class: W,
    parts: Vec<Part<'n>>,
    last: Part<'n>,
    text: &[u8],
) -> Result<Option<Vec<Match>>, Error>
    ensures found { IfOk result (λ found. IfSome found (λ tokens.
        AreLexed (text_of text.now (W.word_chars word_class)) (map pattern_of parts.entry.items ++ pattern_of last.entry ∷ [])
        (map groups_as_pattern parts.entry.items ++ groups_as_pattern last.entry ∷ []) 0 tokens.items)) }
    ensures none { IfOk result (λ found. IsTrue (is_none found) ↔
        IsTrue (list_any may_be_empty (map pattern_of parts.entry.items ++ pattern_of last.entry ∷ []))) }
    ensures refused { IfErr result (IsErrorWithAnyLimit (map groups_as_pattern parts.entry.items ++ groups_as_pattern last.entry ∷ [])) }
{
    let mut builder = Builder::new(alloc);
    for part in parts {
        if part.may_be_empty() {
            return Ok(None);
        }
        builder.add_pattern(part)?;
    }
    if last.may_be_empty() {
        return Ok(None);
    }
    Ok(Some(tokens_of(alloc, word_class, builder, last, text)?))
}

/// The tokens of a text in three kinds: runs of small letters, runs of digits, and single bytes of any kind.
pub fn letters_and_digits(alloc: Global, text: &[u8]) -> Result<Vec<Match>, Error>
    ensures tokens { IfOk result (λ tokens. AreLexed (text_of text.now is_word_byte)
        (Repeat 1 None true (Class ((97, 122) ∷ [])) ∷ Repeat 1 None true (Class ((48, 57) ∷ [])) ∷ Class ((0, 255) ∷ []) ∷ [])
        ((None ∷ []) ∷ (None ∷ []) ∷ (None ∷ []) ∷ []) 0 tokens.items) }
    ensures refused { IfErr result RunsOut }
{
    let mut builder = Builder::new(alloc);
    let letters = builder.plus(builder.range(b'a', b'z'))?;
    builder.add_pattern(letters)?;
    let digits = builder.plus(builder.range(b'0', b'9'))?;
    builder.add_pattern(digits)?;
    let other = builder.range(0, 255);
    tokens_of(alloc, AsciiWord, builder, other, text)
}

/// A part as a token's pattern, or `None` if it may match no byte, or if a part of it that may be empty is repeated without a limit: so `tokens_of` takes it,
/// and says where its tokens end.
pub fn as_token<'n>(part: Part<'n>) -> Option<Part<'n>>
    ensures same { IfSome result (λ token. pattern_of token ≡ pattern_of part.entry) }
    ensures some { IfSome result (λ token. (may_be_empty (pattern_of token) ≡ false) × (loops_take_bytes (pattern_of token) ≡ true)) }
    ensures none { IfNone result ((may_be_empty (pattern_of part.entry) ≡ true) ⊎ (loops_take_bytes (pattern_of part.entry) ≡ false)) }
{
    if part.may_be_empty() || !part.loops_take_bytes() {
        return None;
    }
    Some(part)
}

/// The bytes of a group of the first match of a part, if there is one and the group is set: a cut of that match. Group 0 is set if there is a match.
pub fn bytes_of_group<'h, W: WordClass + AsciiCompatible>(
    alloc: Global,
    word_class: W,
    part: Part<'_>,
    group: usize,
    text: &'h [u8],
) -> Result<Option<&'h [u8]>, Error>
    ensures found { IfOk result (λ found. IfSome found (λ bytes. (i s t j : ℕ) × (i ≤ s) × (s ≤ t) × (t ≤ j) × (j ≤ length text.now)
        × (bytes.now ≡ slice_range text.now s t)
        × Goes (text_of text.now (W.word_chars word_class)) (pattern_of part.entry) i j)) }
    ensures none { IfOk result (λ found. IfNone found (group ≡ 0 → GoesNowhere (text_of text.now (W.word_chars word_class)) (pattern_of part.entry))) }
    ensures refused { IfErr result (IsErrorWithAnyLimit (groups_as_pattern part.entry ∷ [])) }
{
    laws::a_group_that_begins_ends::<W>();
    laws::a_first_match_is_of_a_pattern::<W>();
    laws::the_first_group_is_the_match::<W>();
    let program = Builder::new(alloc).build(word_class, true, part)?;
    let mut captures = program.captures(alloc)?;
    let input = Input::new(text);
    match find(alloc, &program, &input, &mut captures)? {
        None => Ok(None),
        Some(whole) => match captures.get_group(group) {
            None => Ok(None),
            Some(span) => Ok(Some(&text[span.start..span.end])),
        },
    }
}
