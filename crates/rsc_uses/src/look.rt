//! Assertions: words and lines of a haystack, word characters of one's own, and one partition for ranges and assertions.
ghost use Rattle.std.specs.Prelude.{◌≡◌, ◌↔◌, ◌<◌, ◌≤◌, ◌∷◌, [], ℕ, Bool, List, All, IsTrue, IfOk, IfSome, ◌==◌, ◌||◌, ◌&&◌, nat_le, true, false, ◌+◌, length, slice_index};
ghost use Rattle.std.specs.List.{list_any};
ghost use Rattle.std.specs.FinSet as sets;
ghost use Rattle.std.specs.Int.{is_in_range};
ghost use Rattle.rsc_alphabet.specs.Partitions.{AreTogether};
ghost use Rattle.rsc_alphabet.specs.Ranges.{are_alike};
ghost use Rattle.rsc_look.specs.declared.assertion.Look.{Look};
ghost use Rattle.rsc_look.specs.Looks.{is_unicode, repr_of};
ghost use Rattle.rsc_look.specs.LookSets.{members};
ghost use Rattle.rsc_alphabet.specs.Symbols.{byte_of};
ghost use Rattle.rsc_look.specs.Holds.{Holds, holds_at_bytes, byte_before, byte_after};
ghost use Rattle.rsc_look.specs.Keeping.{IsCoarsestMap, Keeps, AgreesWhereAsked, AgreesWithAscii};
ghost use Rattle.rsc_uses.specs.Listed.{IsListed};
ghost use Rattle.rsc_uses.specs.declared.look.Letters.{Letters};

use rsc_alphabet::{ByteClassSet, ByteClasses, Unit};
use rsc_look::{Look, LookMatcher, LookSet, UnicodeWord, WordClass, laws};
use rsc_search::Span;
use std::alloc::{AllocError, Global};

/// Whether a word starts where the span starts and ends where it ends.
pub fn is_whole_word<W: WordClass>(matcher: &LookMatcher<W>, haystack: &[u8], span: Span) -> bool
    requires start { span.start ≤ length haystack.now }
    requires end { span.end ≤ length haystack.now }
    ensures { IsTrue result ↔ (Holds Look.WordStartUnicode matcher.now.0 (W.word_chars matcher.now.1) haystack.now span.start
        × Holds Look.WordEndUnicode matcher.now.0 (W.word_chars matcher.now.1) haystack.now span.end) }
{
    matcher.matches(Look::WordStartUnicode, haystack, span.start)
        && matcher.matches(Look::WordEndUnicode, haystack, span.end)
}

/// The positions at which an assertion holds: all of them, ascending.
pub fn positions<W: WordClass>(
    alloc: Global,
    matcher: &LookMatcher<W>,
    look: Look,
    haystack: &[u8],
) -> Result<Vec<usize>, AllocError>
    ensures { IfOk result (λ found.
        IsListed (Holds look matcher.now.0 (W.word_chars matcher.now.1) haystack.now) (length haystack.now + 1) found.items) }
{
    let mut found = Vec::new(alloc);
    for at in 0..haystack.len() + 1 {
        if matcher.matches(look, haystack, at) {
            found.push(at)?;
        }
    }
    Ok(found)
}

/// The positions at which a line ends, by the matcher's line terminator.
pub fn line_ends<W: WordClass>(
    alloc: Global,
    matcher: &LookMatcher<W>,
    haystack: &[u8],
) -> Result<Vec<usize>, AllocError>
    ensures { IfOk result (λ ends.
        IsListed (Holds Look.EndLF matcher.now.0 (W.word_chars matcher.now.1) haystack.now) (length haystack.now + 1) ends.items) }
{
    positions(alloc, matcher, Look::EndLF, haystack)
}

/// Whether one assertion holds, asked as a set of one.
pub fn holds_as_a_set<W: WordClass>(
    matcher: &LookMatcher<W>,
    look: Look,
    haystack: &[u8],
    at: usize,
) -> bool
    requires { at ≤ length haystack.now }
    ensures { IsTrue result ↔ Holds look matcher.now.0 (W.word_chars matcher.now.1) haystack.now at }
{
    laws::members_of_grown_sets();
    matcher.matches_set(LookSet::singleton(look), haystack, at)
}

/// Whether each assertion that the iterator gives is a member: each is.
pub fn each_is_member(set: LookSet) -> bool
    ensures { IsTrue result }
{
    for look in set.iter() {
        if !set.contains(look) {
            return false;
        }
    }
    true
}

/// How many assertions the iterator gives: one for each member.
pub fn count_members(set: LookSet) -> usize
    ensures { result ≡ length (members set) }
{
    set.iter().count()
}

/// Whether an assertion that is taken out again is gone, and another one is not: so it is.
pub fn insert_and_remove(look: Look, other: Look) -> bool
    requires { ¬ (look ≡ other) }
    ensures { IsTrue result }
{
    let set = LookSet::singleton(look).insert(other).remove(other);
    set.contains(look) && !set.contains(other)
}

/// The classes of two line assertions, for any word predicate.
pub fn line_classes<W: WordClass>(matcher: &LookMatcher<W>) -> ByteClasses
    ensures { IsCoarsestMap result (Look.StartLF ∷ Look.EndCRLF ∷ []) matcher.now.0 (W.word_chars matcher.now.1) }
{
    matcher.classes_of(&[Look::StartLF, Look::EndCRLF])
}

/// The classes of any list, for Unicode's word characters: below 128 they are the word bytes, as `classes_of` asks of them.
pub fn unicode_classes(matcher: &LookMatcher<UnicodeWord>, looks: &[Look]) -> ByteClasses
    ensures { IsCoarsestMap result looks.now matcher.now.0 (⟦<UnicodeWord as WordClass>⟧.word_chars matcher.now.1) }
{
    laws::words_agree_with_ascii();
    matcher.classes_of(looks)
}

/// Word characters of one's own: the letters of ASCII and the apostrophe, so that `don't` is a word.
#[derive(Clone, Copy, Debug, Default)]
pub struct Letters;

impl WordClass for Letters {
    ghost word_chars = { λ _ c. is_in_range 0x41 0x5A c || is_in_range 0x61 0x7A c || (c == 0x27) };

    fn is_word(&self, c: char) -> bool {
        matches!(c, 'A'..='Z' | 'a'..='z' | '\'')
    }
}

/// They don't agree with the word bytes, so of their classes `classes_of` says nothing where a Unicode assertion is listed.
pub fn letters_do_not_agree()
    ensures { (letters : Letters) → ¬ (AgreesWithAscii (⟦<Letters as WordClass>⟧.word_chars letters)) }
{}

/// The classes of a list that has no Unicode assertion: nothing is asked of the word characters.
pub fn byte_classes_of<W: WordClass>(matcher: &LookMatcher<W>, looks: &[Look]) -> ByteClasses
    requires { All (λ l. is_unicode l ≡ false) looks.now }
    ensures { IsCoarsestMap result looks.now matcher.now.0 (W.word_chars matcher.now.1) }
{
    matcher.classes_of(looks)
}

/// One partition for ranges and for assertions, as an automaton needs it: it keeps the assertions, and for a Unicode one it parts ASCII from the
/// other bytes, at which a table stops.
pub fn alphabet_of<W: WordClass>(
    matcher: &LookMatcher<W>,
    ranges: &[(u8, u8)],
    looks: &[Look],
) -> ByteClassSet
    requires ranges { All (λ r. r.0 ≤ r.1) ranges.now }
    requires words { AgreesWhereAsked (W.word_chars matcher.now.1) looks.now }
    ensures keeps { Keeps (sets.contains result) looks.now matcher.now.0 (W.word_chars matcher.now.1) }
    ensures stops { list_any is_unicode looks.now ≡ true → sets.contains result 127 ≡ true }
{
    laws::kept_lists_are_joined();
    let mut set = ByteClassSet::empty();
    for &(start, end) in ranges {
        set.set_range(start, end);
    }
    set.add_set(&matcher.quit_bytes(looks));
    for look in looks {
        matcher.add_to_byteset(*look, &mut set);
    }
    set
}

/// Whether an assertion about bytes holds at one position of both of two haystacks whose bytes have the same classes: it
/// holds in both or in neither.
pub fn agree<W: WordClass>(
    matcher: &LookMatcher<W>,
    map: &ByteClasses,
    look: Look,
    haystack: &[u8],
    other: &[u8],
    at: usize,
) -> bool
    requires map { IsCoarsestMap map.now (look ∷ []) matcher.now.0 (W.word_chars matcher.now.1) }
    requires bytes { is_unicode look ≡ false }
    requires len { length haystack.now ≡ length other.now }
    requires at { at ≤ length haystack.now }
    requires one_class { (i : ℕ) → i < length haystack.now →
        slice_index map.now (slice_index haystack.now i) ≡ slice_index map.now (slice_index other.now i) }
    ensures { IsTrue result }
{
    laws::same_classes_change_nothing();
    matcher.matches(look, haystack, at) == matcher.matches(look, other, at)
}

/// Whether a word starts at a position, and whether a line does: each side of the position is read once.
pub fn starts<W: WordClass>(matcher: &LookMatcher<W>, haystack: &[u8], at: usize) -> (bool, bool)
    requires { at ≤ length haystack.now }
    ensures word { IsTrue result.0 ↔ Holds Look.WordStartUnicode matcher.now.0 (W.word_chars matcher.now.1) haystack.now at }
    ensures line { IsTrue result.1 ↔ Holds Look.StartLF matcher.now.0 (W.word_chars matcher.now.1) haystack.now at }
{
    let holding = matcher.holding(haystack, at);
    (
        holding.contains(Look::WordStartUnicode),
        holding.contains(Look::StartLF),
    )
}

/// Whether all assertions of one set hold at a position, and whether all of another do: each side of the position is read once.
pub fn hold_all<W: WordClass>(
    matcher: &LookMatcher<W>,
    one: LookSet,
    other: LookSet,
    haystack: &[u8],
    at: usize,
) -> (bool, bool)
    requires { at ≤ length haystack.now }
    ensures one { IsTrue result.0 ↔ ((look : Look) → sets.contains one look ≡ true →
        Holds look matcher.now.0 (W.word_chars matcher.now.1) haystack.now at) }
    ensures other { IsTrue result.1 ↔ ((look : Look) → sets.contains other look ≡ true →
        Holds look matcher.now.0 (W.word_chars matcher.now.1) haystack.now at) }
{
    let holding = matcher.holding(haystack, at);
    (one.is_subset_of(holding), other.is_subset_of(holding))
}

/// What an entry of a table says of an assertion about bytes: whether it holds after the byte of the row, before the unit of the column.
pub fn holds_in_entry<W: WordClass>(
    matcher: &LookMatcher<W>,
    look: Look,
    row: Option<u8>,
    column: Unit,
) -> bool
    ensures { result ≡ holds_at_bytes look matcher.now.0 row (byte_of column) }
{
    matcher.holding_between(row, column).contains(look)
}

/// Whether an assertion holds between ASCII neighbours, asked of its ASCII counterpart.
pub fn holds_beside_ascii<W: WordClass>(
    matcher: &LookMatcher<W>,
    look: Look,
    haystack: &[u8],
    at: usize,
) -> bool
    requires at { at ≤ length haystack.now }
    requires agrees { AgreesWithAscii (W.word_chars matcher.now.1) }
    requires before { IfSome (byte_before haystack.now at) (λ b. b < 128) }
    requires after { IfSome (byte_after haystack.now at) (λ b. b < 128) }
    ensures { IsTrue result ↔ Holds look matcher.now.0 (W.word_chars matcher.now.1) haystack.now at }
{
    laws::ascii_neighbours_suffice();
    matcher.matches(look.ascii_counterpart(), haystack, at)
}

/// Whether a table for a list of assertions must stop at a byte.
pub fn must_stop<W: WordClass>(matcher: &LookMatcher<W>, looks: &[Look], byte: u8) -> bool
    ensures { result ≡ (list_any is_unicode looks.now && nat_le 128 byte) }
{
    matcher.quit_bytes(looks).contains(byte)
}

/// The number that stands for an assertion, by a cast: the one that [`Look::as_repr`] returns.
pub fn number_by_cast(look: Look) -> u32
    ensures { result ≡ repr_of look }
{
    look as u32
}
