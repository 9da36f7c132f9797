//! Laws of assertions that a caller can cite: functions whose contracts are the laws.
ghost use Rattle.std.specs.Prelude.{true, false, ◌≡◌, ◌↔◌, ◌⊎◌, ◌||◌, ◌+◌, ◌<◌, ◌≤◌, ◌++◌, [], ◌∷◌, ℕ, Bool, List, length, slice_index, IsTrue, IfSome};
ghost use Rattle.std.specs.List.{Contains};
ghost use Rattle.std.specs.FinSet as sets;
ghost use Rattle.rsc_primitives.specs.Utf8.{is_word_byte};
ghost use Rattle.rsc_alphabet.specs.Partitions.{HasBoundariesOf};
ghost use Rattle.rsc_look.specs.declared.assertion.Look.{Look};
ghost use Rattle.rsc_look.specs.declared.side.Side.{Side};
ghost use Rattle.rsc_look.specs.Looks.{is_unicode, ascii_counterpart, line_feed};
ghost use Rattle.rsc_look.specs.LookSets.{Looks};
ghost use Rattle.rsc_look.specs.Holds.{Holds, IsBefore, IsAfter, byte_before, byte_after};
ghost use Rattle.rsc_look.specs.Boundaries.{boundaries_of_look};
ghost use Rattle.rsc_look.specs.Keeping.{IsHaystack, DifferInAscii, Keeps, AgreesWithAscii, IsCoarsest, IsCoarsestMap, HasNeededBoundaries};
ghost use Rattle.rsc_look.specs.Words.{is_unicode_word};

use crate::{
    AsciiWord, Look, LookMatcher, LookSet, LookSetIter, UnicodeWord, UnicodeWordBoundaryError,
    WordClass,
};

/// A list of assertions has at most one coarsest partition.
pub fn at_most_one_coarsest()
    ensures { (p q : ℕ → Bool) (looks : List Look) (t : ℕ) (chars : ℕ → Bool) →
        IsCoarsest p looks t chars → IsCoarsest q looks t chars → (b : ℕ) → b < 255 → p b ≡ q b }
{}

/// What `classes_of` promises, over the class map alone: if two haystacks of one length have the same classes of a coarsest class map at each position,
/// each listed assertion holds at the same positions of both; a Unicode one only if they differ in ASCII alone.
pub fn same_classes_change_nothing()
    ensures bytes { (m : List ℕ) (looks : List Look) (t : ℕ) (chars : ℕ → Bool) → IsCoarsestMap m looks t chars →
        (l : Look) → Contains looks l → is_unicode l ≡ false → (h k : List ℕ) → IsHaystack h → IsHaystack k → length h ≡ length k →
        ((i : ℕ) → i < length h → slice_index m (slice_index h i) ≡ slice_index m (slice_index k i)) →
        (i : ℕ) → i ≤ length h → Holds l t chars h i ↔ Holds l t chars k i }
    ensures characters { (m : List ℕ) (looks : List Look) (t : ℕ) (chars : ℕ → Bool) → IsCoarsestMap m looks t chars →
        (l : Look) → Contains looks l → is_unicode l ≡ true → (h k : List ℕ) → IsHaystack h → IsHaystack k → length h ≡ length k →
        ((i : ℕ) → i < length h → slice_index m (slice_index h i) ≡ slice_index m (slice_index k i)) → DifferInAscii h k →
        (i : ℕ) → i ≤ length h → Holds l t chars h i ↔ Holds l t chars k i }
{
    rsc_alphabet::laws::one_class_is_together();
}

/// A partition with the boundaries of an assertion keeps it, and each of them is needed, for a Unicode assertion if the word characters
/// agree with ASCII: what [`crate::LookMatcher::add_to_byteset`] says of the set that it leaves.
#[tactic(auto, using(crate::proofs::KeepingLemmas::HasNeededBoundaries_own))]
pub fn boundaries_are_exact()
    ensures { (l : Look) (t : ℕ) (chars : ℕ → Bool) → (is_unicode l ≡ true → AgreesWithAscii chars) →
        HasNeededBoundaries (sets.contains (boundaries_of_look l t)) l t chars }
{}

/// A partition that keeps two lists keeps the one after the other, and it keeps the empty list.
pub fn kept_lists_are_joined()
    ensures empty { (p : ℕ → Bool) (t : ℕ) (chars : ℕ → Bool) → Keeps p [] t chars }
    ensures both { (p : ℕ → Bool) (some others : List Look) (t : ℕ) (chars : ℕ → Bool) →
        Keeps p some t chars → Keeps p others t chars → Keeps p (some ++ others) t chars }
{}

/// A partition with the boundaries of one that keeps a list keeps it too. The coarsest partition of two lists together has the boundaries of the
/// coarsest of each, and no others.
pub fn coarsest_lists_are_joined()
    ensures finer_keeps { (p q : ℕ → Bool) (looks : List Look) (t : ℕ) (chars : ℕ → Bool) →
        HasBoundariesOf q p → Keeps p looks t chars → Keeps q looks t chars }
    ensures both { (p q : ℕ → Bool) (some others : List Look) (t : ℕ) (chars : ℕ → Bool) →
        IsCoarsest p some t chars → IsCoarsest q others t chars → IsCoarsest (λ b. p b || q b) (some ++ others) t chars }
{}

/// A position has exactly one side before it, and exactly one after it.
pub fn each_position_has_two_sides()
    ensures before { (chars : ℕ → Bool) (h : List ℕ) (i : ℕ) → (s : Side) × IsBefore chars h i s }
    ensures one_before { (chars : ℕ → Bool) (h : List ℕ) (i : ℕ) (s u : Side) → IsBefore chars h i s → IsBefore chars h i u → s ≡ u }
    ensures after { (chars : ℕ → Bool) (h : List ℕ) (i : ℕ) → i ≤ length h → (s : Side) × IsAfter chars h i s }
    ensures one_after { (chars : ℕ → Bool) (h : List ℕ) (i : ℕ) (s u : Side) → IsAfter chars h i s → IsAfter chars h i u → s ≡ u }
{}

/// Between neighbours that are absent or below 128, a Unicode assertion holds exactly where its ASCII counterpart does, if the word characters
/// below 128 are the word bytes. So a table over bytes that stops at a byte from 128 on answers for Unicode assertions too.
#[tactic(auto, using(crate::proofs::MatcherLemmas::ascii_suffices))]
pub fn ascii_neighbours_suffice()
    ensures { (l : Look) (t : ℕ) (chars : ℕ → Bool) (h : List ℕ) (i : ℕ) → i ≤ length h → AgreesWithAscii chars →
        IfSome (byte_before h i) (λ b. b < 128) → IfSome (byte_after h i) (λ b. b < 128) →
        Holds l t chars h i ↔ Holds (ascii_counterpart l) t chars h i }
{}

/// Below 128 the word characters of [`AsciiWord`] and of [`UnicodeWord`] are the word bytes, which is what
/// [`LookMatcher::classes_of`] asks where a Unicode assertion is listed.
pub fn words_agree_with_ascii()
    ensures ascii { AgreesWithAscii (λ c. is_word_byte c) }
    ensures unicode { AgreesWithAscii is_unicode_word }
    ensures ascii_word { (w : AsciiWord) → AgreesWithAscii (⟦<AsciiWord as WordClass>⟧.word_chars w) }
    ensures unicode_word { (w : UnicodeWord) → AgreesWithAscii (⟦<UnicodeWord as WordClass>⟧.word_chars w) }
{}

/// The empty set has no member; a set with one more member has that one and its own.
#[tactic(auto, using(crate::proofs::LookSetsLemmas::grown, crate::proofs::LookSetLayoutLemmas::looks_of_none, crate::proofs::LookSetLayoutLemmas::contains_looks_of))]
pub fn members_of_grown_sets()
    ensures empty { (l : Look) → sets.contains (let s : Looks = sets.empty in s) l ≡ false }
    ensures grown { (s : Looks) (l m : Look) → (sets.contains (sets.insert s l) m ≡ true) ↔ ((l ≡ m) ⊎ (sets.contains s m ≡ true)) }
{}

/// A clone is its source, and none is refused.
pub fn clones_are_their_sources()
    ensures look { (l m : Look) → ⟦<Look as Clone>⟧.is_clone l m → m ≡ l }
    ensures look_accepted { (l : Look) → ⟦<Look as Clone>⟧.is_infallible l }
    ensures set { (s u : Looks) → ⟦<LookSet as Clone>⟧.is_clone s u → u ≡ s }
    ensures set_accepted { (s : Looks) → ⟦<LookSet as Clone>⟧.is_infallible s }
    ensures iter { (s u : List Look) → ⟦<LookSetIter as Clone>⟧.is_clone s u → u ≡ s }
    ensures iter_accepted { (s : List Look) → ⟦<LookSetIter as Clone>⟧.is_infallible s }
    ensures ascii_word { (w v : AsciiWord) → ⟦<AsciiWord as Clone>⟧.is_clone w v → v ≡ w }
    ensures ascii_word_accepted { (w : AsciiWord) → ⟦<AsciiWord as Clone>⟧.is_infallible w }
    ensures unicode_word { (w v : UnicodeWord) → ⟦<UnicodeWord as Clone>⟧.is_clone w v → v ≡ w }
    ensures unicode_word_accepted { (w : UnicodeWord) → ⟦<UnicodeWord as Clone>⟧.is_infallible w }
    ensures error { (e f : UnicodeWordBoundaryError) → ⟦<UnicodeWordBoundaryError as Clone>⟧.is_clone e f → f ≡ e }
    ensures error_accepted { (e : UnicodeWordBoundaryError) → ⟦<UnicodeWordBoundaryError as Clone>⟧.is_infallible e }
{}

/// Two assertions are equal exactly if they are the same one, and two sets exactly if they have the same members.
pub fn equality_is_of_the_value()
    ensures look { (l m : Look) → (⟦<Look as PartialEq>⟧.eq l m ≡ true) ↔ (l ≡ m) }
    ensures set { (s u : Looks) → (⟦<LookSet as PartialEq>⟧.eq s u ≡ true) ↔ (s ≡ u) }
{}

/// The default set has no member, and the default matcher has the line terminator `\n` and the word characters of Unicode.
pub fn defaults()
    ensures set { (s : Looks) → ⟦<LookSet as Default>⟧.is_default s → s ≡ sets.empty }
    ensures terminator { (m : ℕ × UnicodeWord) → ⟦<LookMatcher<UnicodeWord> as Default>⟧.is_default m → m.0 ≡ line_feed }
    ensures words { (w : UnicodeWord) (c : ℕ) → ⟦<UnicodeWord as WordClass>⟧.word_chars w c ≡ is_unicode_word c }
{}
