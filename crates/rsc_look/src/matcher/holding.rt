//! The assertions that hold at a position, all of them at once: each side is read once.
ghost use Rattle.std.specs.Prelude.{◌≡◌, ◌≤◌, ◌↔◌, ◌||◌, true, IsTrue, length, if◌then◌else◌};
ghost use Rattle.std.specs.FinSet as sets;
ghost use Rattle.rsc_alphabet.specs.Symbols.{byte_of};
ghost use Rattle.rsc_look.specs.declared.assertion.Look.{Look};
ghost use Rattle.rsc_look.specs.LookSets.{Looks};
ghost use Rattle.rsc_look.specs.LookSetLayout.{is_same};
ghost use Rattle.rsc_look.specs.Holds.{HoldsFor, IsBefore, IsAfter, holds_at_bytes, holds_at_sides};
ghost use Rattle.rsc_look.specs.HoldingLayout.{holds_at_words, is_within_line};

use crate::matcher::{CARRIAGE_RETURN, LINE_FEED};
use crate::side::{Side, byte_after, byte_before, is_byte, is_word_neighbor};
use crate::{Look, LookMatcher, LookSet, WordClass};
use rsc_alphabet::Unit;

impl<W: WordClass> LookMatcher<W> {
    /// The assertions that hold at a position of a haystack. The original lacks it.
    ///
    /// It reads each side once, so an engine that asks several sets of assertions at one position need not ask each of them: every assertion of
    /// a set holds, as by [`LookMatcher::matches_set`], exactly if the set is a subset of this one.
    ///
    /// # Examples
    ///
    /// ```
    /// let matcher = LookMatcher::new(UnicodeWord);
    /// let holding = matcher.holding("aδ b".as_bytes(), 3);
    /// assert!(rt; holding.contains(Look::WordEndUnicode) && !holding.contains(Look::End));
    /// // `δ` is no word byte.
    /// assert!(rt; !holding.contains(Look::WordEndAscii));
    /// ```
    #[inline]
    pub fn holding(&self, haystack: &[u8], at: usize) -> LookSet
        requires { at ≤ length haystack.now }
        ensures members { (look : Look) → (sets.contains result look ≡ true) ↔ HoldsFor W.word_chars look self.now haystack.now at }
        ensures subsets { (set : Looks) → ((look : Look) → sets.contains set look ≡ true → sets.contains result look ≡ true) ↔
            ((look : Look) → sets.contains set look ≡ true → HoldsFor W.word_chars look self.now haystack.now at) }
    {
        let bytes = holding_at_bytes(
            self.line_terminator,
            byte_before(haystack, at),
            byte_after(haystack, at),
        );
        let characters = holding_at_sides(
            self.near_side_before(haystack, at),
            self.near_side_after(haystack, at),
        );
        bytes.union(characters)
    }

    /// The assertions about bytes that hold between a byte, or the start of the haystack, and a unit. No Unicode assertion is among them.
    /// The original lacks it.
    ///
    /// This is what a table over units is filled by: a row knows the byte before, and a column is a unit.
    ///
    /// # Examples
    ///
    /// ```
    /// let matcher = LookMatcher::new(AsciiWord);
    /// let holding = matcher.holding_between(Some(b'a'), Unit::eoi(3));
    /// assert!(rt; holding.contains(Look::End) && holding.contains(Look::WordEndAscii));
    /// assert!(rt; !holding.contains(Look::WordEndUnicode));
    /// ```
    #[inline]
    pub fn holding_between(&self, before: Option<u8>, after: Unit) -> LookSet
        ensures { (look : Look) → sets.contains result look ≡ holds_at_bytes look self.now.0 before (byte_of after) }
    {
        holding_at_bytes(self.line_terminator, before, after.as_u8())
    }

    // What is before a position. A byte below 128 is read here, without a jump: where words of ASCII begin and end can't be predicted.
    #[inline(always)]
    fn near_side_before(&self, haystack: &[u8], at: usize) -> Side
        requires { at ≤ length haystack.now }
        ensures { IsBefore (W.word_chars self.now.1) haystack.now at result }
    {
        match byte_before(haystack, at) {
            Some(byte) if byte < 0x80 => self.side_of(char::from(byte)),
            _ => self.far_side_before(haystack, at),
        }
    }

    // What is after a position, in the same way.
    #[inline(always)]
    fn near_side_after(&self, haystack: &[u8], at: usize) -> Side
        requires { at ≤ length haystack.now }
        ensures { IsAfter (W.word_chars self.now.1) haystack.now at result }
    {
        match byte_after(haystack, at) {
            Some(byte) if byte < 0x80 => self.side_of(char::from(byte)),
            _ => self.far_side_after(haystack, at),
        }
    }

    #[inline(never)]
    fn far_side_before(&self, haystack: &[u8], at: usize) -> Side
        requires { at ≤ length haystack.now }
        ensures { IsBefore (W.word_chars self.now.1) haystack.now at result }
    {
        self.side_before(haystack, at)
    }

    #[inline(never)]
    fn far_side_after(&self, haystack: &[u8], at: usize) -> Side
        requires { at ≤ length haystack.now }
        ensures { IsAfter (W.word_chars self.now.1) haystack.now at result }
    {
        self.side_after(haystack, at)
    }
}

// A set with an assertion as one more member, if it holds.
#[inline(always)]
fn with(set: LookSet, look: Look, holds: bool) -> LookSet
    ensures { (m : Look) → sets.contains result m ≡ (if is_same look m then sets.contains set m || holds else sets.contains set m) }
{
    if holds { set.insert(look) } else { set }
}

// The assertions about bytes that hold between two neighbours.
#[inline]
fn holding_at_bytes(terminator: u8, before: Option<u8>, after: Option<u8>) -> LookSet
    ensures { (look : Look) → sets.contains result look ≡ holds_at_bytes look terminator before after }
{
    let about_words = holding_at_words(is_word_neighbor(before), is_word_neighbor(after));
    if is_within_line(terminator, before) & is_within_line(terminator, after) {
        return about_words;
    }
    let starts = before.is_none()
        | is_byte(LINE_FEED, before)
        | (is_byte(CARRIAGE_RETURN, before) & !is_byte(LINE_FEED, after));
    let ends = after.is_none()
        | is_byte(CARRIAGE_RETURN, after)
        | (is_byte(LINE_FEED, after) & !is_byte(CARRIAGE_RETURN, before));
    let set = with(about_words, Look::Start, before.is_none());
    let set = with(set, Look::End, after.is_none());
    let set = with(
        set,
        Look::StartLF,
        before.is_none() | is_byte(terminator, before),
    );
    let set = with(
        set,
        Look::EndLF,
        after.is_none() | is_byte(terminator, after),
    );
    let set = with(set, Look::StartCRLF, starts);
    with(set, Look::EndCRLF, ends)
}

// Whether a neighbour is there, and no line begins or ends beside it. Between two of them only assertions about words hold.
#[inline(always)]
fn is_within_line(terminator: u8, neighbor: Option<u8>) -> bool
    ensures { result ≡ is_within_line terminator neighbor }
{
    match neighbor {
        Some(byte) => (byte != terminator) & (byte != LINE_FEED) & (byte != CARRIAGE_RETURN),
        None => false,
    }
}

// The assertions about words of ASCII, by whether a word byte is before, and whether one is after: the sums of their numbers.
static AT_WORDS: [u32; 4] = [
    // Neither: the negation and both half assertions.
    1 << 7 | 1 << 14 | 1 << 15,
    // A word starts.
    1 << 6 | 1 << 10 | 1 << 14,
    // A word ends.
    1 << 6 | 1 << 11 | 1 << 15,
    // Within a word.
    1 << 7,
];

// The assertions about words of ASCII that hold between two bytes, or ends, of which each is a word byte or not.
#[inline(always)]
fn holding_at_words(before: bool, after: bool) -> LookSet
    ensures { (look : Look) → sets.contains result look ≡ holds_at_words look before after }
{
    LookSet::of_bits(AT_WORDS[usize::from(before) * 2 + usize::from(after)])
}

// No word character is beside the position: the negation and both half assertions.
const NO_WORD_CHARACTER: u32 = 1 << 9 | 1 << 16 | 1 << 17;

// A word starts, and ends.
const STARTS: u32 = 1 << 8 | 1 << 12;

const ENDS: u32 = 1 << 8 | 1 << 13;

// The half assertions: what is before, or after, is no word character, and not invalid.
const START_HALF: u32 = 1 << 16;

const END_HALF: u32 = 1 << 17;

// The assertions about characters, by the side before and the side after: absent, invalid, a word character, another character.
static AT_SIDES: [u32; 16] = [
    NO_WORD_CHARACTER,
    START_HALF,
    STARTS | START_HALF,
    NO_WORD_CHARACTER,
    END_HALF,
    0,
    STARTS,
    END_HALF,
    ENDS | END_HALF,
    ENDS,
    1 << 9,
    ENDS | END_HALF,
    NO_WORD_CHARACTER,
    START_HALF,
    STARTS | START_HALF,
    NO_WORD_CHARACTER,
];

// The assertions about characters that hold between two sides.
#[inline(always)]
fn holding_at_sides(before: Side, after: Side) -> LookSet
    ensures { (look : Look) → sets.contains result look ≡ holds_at_sides look before after }
{
    LookSet::of_bits(AT_SIDES[before.index() * 4 + after.index()])
}
