//! The classes of bytes for assertions and ranges, and how large a table is by them.
ghost use Rattle.std.specs.Prelude.{◌≡◌, ◌≤◌, ◌<◌, ◌⊎◌, [], ℕ, true, ◌^◌};
ghost use Rattle.std.specs.FinSet as sets;
ghost use Rattle.rsc_alphabet.specs.Iterators.{symbol_count};
ghost use Rattle.rsc_look.specs.Keeping.{IsCoarsestMap, Keeps};
ghost use Rattle.rsc_show.specs.Chosen.{chosen_word_chars};
ghost use Rattle.rsc_show.specs.Ranges.{HasBoundary, IsCoarsestParting, IsOfLook, PartsRanges};

use crate::choices::{WordPredicate, word_predicates_agree};
use rsc_alphabet::laws::boundaries_part_a_range;
use rsc_alphabet::{ByteClassSet, ByteClasses};
use rsc_look::laws::{boundaries_are_exact, kept_lists_are_joined};
use rsc_look::{Look, LookMatcher};

/// The classes of bytes that neither a listed assertion nor a listed range tells apart.
pub fn classes_of(
    matcher: &LookMatcher<WordPredicate>,
    looks: &[Look],
    ranges: &[(u8, u8)],
) -> ByteClasses
    ensures parting { IsCoarsestParting result ranges.now looks.now matcher.now.0 (chosen_word_chars matcher.now.1) }
    ensures coarsest { ranges.now ≡ [] → IsCoarsestMap result looks.now matcher.now.0 (chosen_word_chars matcher.now.1) }
{
    word_predicates_agree();
    boundaries_are_exact();
    alphabet_of(matcher, looks, ranges).byte_classes()
}

// A partition that keeps the assertions and parts the ranges, with no boundary but theirs.
fn alphabet_of(
    matcher: &LookMatcher<WordPredicate>,
    looks: &[Look],
    ranges: &[(u8, u8)],
) -> ByteClassSet
    ensures keeps { Keeps (sets.contains result) looks.now matcher.now.0 (chosen_word_chars matcher.now.1) }
    ensures parts { PartsRanges (sets.contains result) ranges.now }
    ensures only { (b : ℕ) → b < 255 → sets.contains result b ≡ true → HasBoundary b ranges.now ⊎ IsOfLook b looks.now matcher.now.0 }
{
    word_predicates_agree();
    kept_lists_are_joined();
    let mut set = set_of(ranges);
    for look in looks {
        matcher.add_to_byteset(*look, &mut set);
    }
    set
}

// The boundaries of ranges.
fn set_of(ranges: &[(u8, u8)]) -> ByteClassSet
    ensures parts { PartsRanges (sets.contains result) ranges.now }
    ensures only { (b : ℕ) → b < 255 → sets.contains result b ≡ true → HasBoundary b ranges.now }
{
    boundaries_part_a_range();
    let mut set = ByteClassSet::empty();
    for (start, end) in ranges {
        if *start <= *end {
            set.set_range(*start, *end);
        }
    }
    set
}

/// How many symbols there are, and how many entries a row of a dense table has.
#[derive(Clone, Copy, Drop)]
pub struct Sizes {
    /// The classes, and the end of the input.
    pub symbols: usize,
    /// The exponent of the entries.
    pub exponent: usize,
    /// The least power of two that is not below the symbols.
    pub entries: usize,
}

/// The sizes that go with a map from bytes to classes.
pub fn sizes_of(classes: &ByteClasses) -> Sizes
    ensures symbols { result.symbols ≡ symbol_count classes.now }
    ensures entries { result.entries ≡ 2 ^ result.exponent }
    ensures enough { result.symbols ≤ result.entries }
    ensures least { (k : ℕ) → result.symbols ≤ 2 ^ k → result.exponent ≤ k }
{
    let exponent = classes.stride2();
    Sizes {
        symbols: classes.alphabet_len(),
        exponent,
        entries: 1 << exponent,
    }
}
