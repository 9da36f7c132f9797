//! Laws of sets, partitions, class maps and trait impls that a caller can cite: functions whose contracts are the laws.
ghost use Rattle.std.specs.Prelude.{true, ◌≡◌, ◌↔◌, ◌⊎◌, ◌+◌, ◌*◌, ◌<◌, ◌≤◌, ◌∷◌, ℕ, Bool, List, length, slice_index, slice_get, Some, All, IsTrue, ◌==◌, ◌&&◌, ◌||◌, nat_lt};
ghost use Rattle.std.specs.List.{Contains, AllAdjacentBelow, list_any};
ghost use Rattle.std.specs.List.Sorted.{IsStrictlyIncreasing};
ghost use Rattle.std.specs.FinSet as sets;
ghost use Rattle.std.specs.declared.ops.Bound.{Bound};
ghost use Rattle.std.specs.declared.ops.Bound.TheVariants.{Unbounded};
ghost use Rattle.std.specs.Range.Bound.{start_index, end_index};
ghost use Rattle.rsc_alphabet.specs.Bytes.{bytes};
ghost use Rattle.rsc_alphabet.specs.ByteSets.{Numbers, members, runs, IsMaximalRun};
ghost use Rattle.rsc_alphabet.specs.Partitions.{LastClassIsGreatest, HasBoundariesOf, AreTogether, class_map, boundaries_of_range, boundaries_of_ranges, is_boundary_of_set};
ghost use Rattle.rsc_alphabet.specs.Ranges.{holds, are_alike, are_among};
ghost use Rattle.rsc_alphabet.specs.Symbols.{Symbol, byte, symbol_cmp};
ghost use Rattle.rsc_alphabet.specs.Iterators.{end_symbol, symbols, symbol_count, representatives_of};

use crate::{ByteClassSet, ByteClasses, ByteSet, Unit};

/// Two bytes have one class exactly if they are together: with a class map nobody need count boundaries.
#[tactic(auto, using(crate::proofs::CitedLaws::class_map_together))]
pub fn one_class_is_together()
    ensures { (p : ℕ → Bool) (b c : ℕ) → b < 256 → c < 256 →
        (slice_index (class_map p) b ≡ slice_index (class_map p) c) ↔ AreTogether p b c }
{}

/// The classes of a partition start at 0 and rise, by at most 1 from a byte to the next, so that of the byte 255 is the greatest.
#[tactic(auto, using(crate::proofs::CitedLaws::last_class_is_greatest, crate::proofs::CitedLaws::class_map_rises, crate::proofs::CitedLaws::first_class, crate::proofs::CitedLaws::next_class))]
pub fn classes_rise_by_one()
    ensures bounded { (p : ℕ → Bool) → LastClassIsGreatest (class_map p) }
    ensures rise { (p : ℕ → Bool) (b c : ℕ) → b ≤ c → c < 256 → slice_index (class_map p) b ≤ slice_index (class_map p) c }
    ensures first { (p : ℕ → Bool) → slice_index (class_map p) 0 ≡ 0 }
    ensures next { (p : ℕ → Bool) (b : ℕ) → b < 255 →
        (slice_index (class_map p) (b + 1) ≡ slice_index (class_map p) b)
        ⊎ (slice_index (class_map p) (b + 1) ≡ slice_index (class_map p) b + 1) }
{}

/// The iterator over the classes of a partition gives each class of a byte once, as the unit of its number, at that index, and then the
/// end of the input.
#[tactic(auto, using(crate::proofs::IteratorsLemmas::slice_get_symbols, crate::proofs::IteratorsLemmas::end_comes_last, crate::proofs::IteratorsLemmas::length_symbols, crate::proofs::CitedLaws::class_within, crate::proofs::CitedLaws::class_reached))]
pub fn each_class_comes_once()
    ensures index { (classes : List ℕ) (c : ℕ) → c ≤ slice_index classes 255 → slice_get (symbols classes) c ≡ Some (byte c) }
    ensures end { (classes : List ℕ) → slice_get (symbols classes) (slice_index classes 255 + 1) ≡ Some (end_symbol classes) }
    ensures count { (classes : List ℕ) → length (symbols classes) ≡ symbol_count classes }
    ensures bounded { (p : ℕ → Bool) (b : ℕ) → b < 256 → slice_index (class_map p) b ≤ slice_index (class_map p) 255 }
    ensures reached { (p : ℕ → Bool) (c : ℕ) → c ≤ slice_index (class_map p) 255 →
        (b : ℕ) × ((b < 256) × (slice_index (class_map p) b ≡ c)) }
{}

/// In a table whose rows have `width` entries, a column for each class, the entry of a row and a column is at `row * width + column`: the
/// entries of different rows or columns are at different indices, and those of the rows before `rows` below `rows * width`. The class of a
/// byte is such a column if the rows are as long as there are symbols, as those of `1 << stride2` entries by [`crate::ByteClasses::stride2`].
pub fn entries_of_a_table_are_apart()
    ensures column { (classes : List ℕ) (width b : ℕ) → LastClassIsGreatest classes → symbol_count classes ≤ width → b < 256 →
        slice_index classes b < width }
    ensures within { (width rows row column : ℕ) → row < rows → column < width → row * width + column < rows * width }
    ensures distinct { (width row column row2 column2 : ℕ) → column < width → column2 < width →
        row * width + column ≡ row2 * width + column2 → (row ≡ row2) × (column ≡ column2) }
{}

/// The first byte of a range that isn't empty is always a representative, and comes first.
#[tactic(auto, using(crate::proofs::IteratorsLemmas::first_representative))]
pub fn first_byte_is_representative()
    ensures { (classes : List ℕ) (from to : Bound ℕ) → start_index from < end_index to 256 →
        (rest : List Symbol) × (representatives_of classes from to ≡ byte (start_index from) ∷ rest) }
{}

/// The representatives of all bytes are bytes and the end of the input, and each byte has the class of one of them: looking at the
/// representatives alone shows every class.
pub fn each_class_is_represented()
    ensures reached { (classes : List ℕ) (b : ℕ) → b < 256 →
        (r : ℕ) × ((r < 256) × Contains (representatives_of classes Unbounded Unbounded) (byte r) × (slice_index classes r ≡ slice_index classes b)) }
    ensures end { (classes : List ℕ) → Contains (representatives_of classes Unbounded Unbounded) (end_symbol classes) }
    ensures only { (classes : List ℕ) (u : Symbol) → Contains (representatives_of classes Unbounded Unbounded) u →
        ((b : ℕ) × ((b < 256) × (u ≡ byte b))) ⊎ (u ≡ end_symbol classes) }
{}

/// The boundaries of a set's maximal runs are where membership changes from one byte to the next.
#[tactic(auto, using(crate::proofs::PartitionsLemmas::boundaries_of_runs_are))]
pub fn a_set_has_the_boundaries_of_its_runs()
    ensures { (s : Numbers) (k : ℕ) → sets.contains (boundaries_of_ranges (runs s)) k ≡ is_boundary_of_set s k }
{}

/// The members that [`crate::ByteSet::iter`] gives are all members below 256, ascending.
#[tactic(auto, using(crate::proofs::ByteSetsLemmas::members_exactly, crate::proofs::ByteSetsLemmas::members_ascending))]
pub fn members_are_exact()
    ensures exactly { (s : Numbers) (b : ℕ) → b < 256 → Contains (members s) b ↔ (sets.contains s b ≡ true) }
    ensures ascending { (s : Numbers) → IsStrictlyIncreasing (members s) }
{}

/// The pairs that [`crate::ByteSet::iter_ranges`] gives are exactly the maximal runs, each of which ends two bytes or more
/// before the next begins.
pub fn runs_are_maximal()
    ensures exactly { (s : Numbers) (r : ℕ × ℕ) → Contains (runs s) r ↔ IsMaximalRun s r }
    ensures apart { (s : Numbers) → AllAdjacentBelow (λ r q. r.1 + 1 < q.0) (runs s) (length (runs s)) }
{}

/// The boundaries of a range are those before its first byte and after its last; and two bytes that are together for a
/// partition with them are both in the range or both outside it.
pub fn boundaries_part_a_range()
    ensures members { (start end k : ℕ) → sets.contains (boundaries_of_range (start, end)) k ≡ (k + 1 == start || (k == end && nat_lt end 255)) }
    ensures boundary { (r : ℕ × ℕ) (k : ℕ) → k < 255 → (sets.contains (boundaries_of_range r) k ≡ true) ↔ ((k + 1 ≡ r.0) ⊎ (k ≡ r.1)) }
    ensures together { (p : ℕ → Bool) (r : ℕ × ℕ) (b c : ℕ) → b < 256 → c < 256 →
        HasBoundariesOf p (sets.contains (boundaries_of_range r)) → AreTogether p b c → holds r b ≡ holds r c }
{}

/// Two bytes that are together for a partition with the boundaries of each of several ranges, whose first bytes are at most their last, are
/// alike for the ranges.
pub fn together_is_alike()
    ensures { (p : ℕ → Bool) (ranges : List (ℕ × ℕ)) → All (λ r. r.0 ≤ r.1) ranges →
        ((r : ℕ × ℕ) → Contains ranges r → HasBoundariesOf p (sets.contains (boundaries_of_range r))) →
        (b c : ℕ) → b < 256 → c < 256 → AreTogether p b c → IsTrue (are_alike ranges b c) }
{}

/// Bytes that are alike for a list of ranges are in the same of them: each range holds both or neither, and so does each list of some of the
/// ranges. `are_among` tests that they are some of them, and so answers by `refl` for literals. For neighbours the converse holds too.
/// [`crate::classes_of_ranges`] gives bytes one class exactly if they are alike.
#[tactic(auto, using(crate::proofs::RangesLemmas::alike_each, crate::proofs::RangesLemmas::alike_some, crate::proofs::RangesLemmas::alike_among, crate::proofs::RangesLemmas::alike_neighbours))]
pub fn alike_bytes_share_their_ranges()
    ensures each { (ranges : List (ℕ × ℕ)) (b c : ℕ) → IsTrue (are_alike ranges b c) → (r : ℕ × ℕ) → Contains ranges r → holds r b ≡ holds r c }
    ensures any { (ranges part : List (ℕ × ℕ)) (b c : ℕ) → IsTrue (are_alike ranges b c) → ((r : ℕ × ℕ) → Contains part r → Contains ranges r) →
        list_any (λ r. holds r b) part ≡ list_any (λ r. holds r c) part }
    ensures among { (ranges part : List (ℕ × ℕ)) (b c : ℕ) → IsTrue (are_alike ranges b c) → IsTrue (are_among part ranges) →
        list_any (λ r. holds r b) part ≡ list_any (λ r. holds r c) part }
    ensures neighbours { (ranges : List (ℕ × ℕ)) (b : ℕ) → ((r : ℕ × ℕ) → Contains ranges r → holds r b ≡ holds r (b + 1)) →
        IsTrue (are_alike ranges b (b + 1)) }
{}

/// A clone is its source, and none is refused.
pub fn clones_are_their_sources()
    ensures unit { (u v : Symbol) → ⟦<Unit as Clone>⟧.is_clone u v → v ≡ u }
    ensures unit_accepted { (u : Symbol) → ⟦<Unit as Clone>⟧.is_infallible u }
    ensures byte_set { (s t : Numbers) → ⟦<ByteSet as Clone>⟧.is_clone s t → t ≡ s }
    ensures byte_set_accepted { (s : Numbers) → ⟦<ByteSet as Clone>⟧.is_infallible s }
    ensures byte_class_set { (s t : Numbers) → ⟦<ByteClassSet as Clone>⟧.is_clone s t → t ≡ s }
    ensures byte_class_set_accepted { (s : Numbers) → ⟦<ByteClassSet as Clone>⟧.is_infallible s }
    ensures byte_classes { (m n : List ℕ) → ⟦<ByteClasses as Clone>⟧.is_clone m n → n ≡ m }
    ensures byte_classes_accepted { (m : List ℕ) → ⟦<ByteClasses as Clone>⟧.is_infallible m }
{}

/// Equality of units is that of their values; equality of sets of bytes is that of their members.
#[tactic(auto, using(crate::proofs::CitedLaws::same_from, crate::proofs::CitedLaws::same_to, crate::proofs::CitedLaws::total, crate::proofs::CitedLaws::exact))]
pub fn equality_is_of_the_value()
    ensures unit { (u v : Symbol) → (⟦<Unit as PartialEq>⟧.eq u v ≡ true) ↔ (u ≡ v) }
    ensures byte_set { (s t : Numbers) → (⟦<ByteSet as PartialEq>⟧.eq s t ≡ true) ↔ (s ≡ t) }
{}

/// The order of units: all bytes come before all ends of input, and within each the number decides.
pub fn order_of_units()
    ensures { (u v : Symbol) → ⟦<Unit as Ord>⟧.cmp u v ≡ symbol_cmp u v }
{}

/// The default of a set of bytes and of a partition is the empty one, and that of a class map gives each byte a class of its own.
#[tactic(auto, using(crate::proofs::IteratorsLemmas::bytes_own))]
pub fn defaults()
    ensures byte_set { (s : Numbers) → ⟦<ByteSet as Default>⟧.is_default s → s ≡ sets.empty }
    ensures byte_class_set { (s : Numbers) → ⟦<ByteClassSet as Default>⟧.is_default s → s ≡ sets.empty }
    ensures byte_classes { (m : List ℕ) → ⟦<ByteClasses as Default>⟧.is_default m → m ≡ bytes }
    ensures own { (b : ℕ) → b < 256 → slice_index bytes b ≡ b }
{}
