//! The bits of the numbers that hold a set of bytes.
ghost use Rattle.std.specs.Prelude.{◌≡◌, ◌==◌, ◌&&◌, ◌||◌, ◌↔◌, ℕ, ◌+◌, ◌-◌, ◌%◌, ◌<◌, ◌≤◌, nat_le, true, false, not, IsTrue};
ghost use Rattle.std.specs.Int.{bit_at};
ghost use Rattle.rsc_primitives.specs.Bits.{has_bit};
ghost use Rattle.rsc_alphabet.specs.Partitions.{class_of};

// Whether a bit is 1. One block is shifted, which takes less time than two, and no branch hangs on the bit.
#[tactic(auto, using(std::proofs::lemmas::Nat::Bits::shr_and_one))]
#[inline(always)]
pub(crate) fn has_bit(mask: u128, bit: u8) -> bool
    requires { bit < 128 }
    ensures { result ≡ has_bit mask bit }
{
    (block_with_bit(mask, bit) >> (bit % 64)) & 1 == 1
}

#[inline(always)]
fn block_with_bit(mask: u128, bit: u8) -> u64
    requires { bit < 128 }
    ensures { has_bit result (bit % 64) ≡ has_bit mask bit }
{
    if bit < 64 {
        lower_block(mask)
    } else {
        upper_block(mask)
    }
}

#[tactic(auto, using(crate::proofs::ByteSetLayoutLemmas::has_bit_either))]
#[inline(always)]
pub(crate) fn with_bit(mask: u128, bit: u8) -> u128
    requires { bit < 128 }
    ensures { (i : ℕ) → has_bit result i ≡ (i == bit || has_bit mask i) }
{
    one_bit(bit) | mask
}

// The number of which this bit alone is 1. One block is shifted, which takes less time than two.
#[inline(always)]
fn one_bit(bit: u8) -> u128
    requires { bit < 128 }
    ensures { (i : ℕ) → has_bit result i ≡ (i == bit) }
{
    let block = 1 << (bit % 64);
    if bit < 64 {
        joined(block, 0)
    } else {
        joined(0, block)
    }
}

#[inline(always)]
pub(crate) fn without_bit(mask: u128, bit: u8) -> u128
    requires { bit < 128 }
    ensures { (i : ℕ) → i < 128 → has_bit result i ≡ (not (i == bit) && has_bit mask i) }
{
    !(1 << bit) & mask
}

#[inline(always)]
pub(crate) fn has_bits(mask: u128, start: u8, end: u8) -> bool
    requires { (start ≤ end) × (end < 128) }
    ensures { IsTrue result ↔ ((i : ℕ) → start ≤ i → i ≤ end → has_bit mask i ≡ true) }
{
    run_of_bits(start, end) & !mask == 0
}

#[inline(always)]
fn run_of_bits(start: u8, end: u8) -> u128
    requires { (start ≤ end) × (end < 128) }
    ensures { (i : ℕ) → has_bit result i ≡ (nat_le start i && nat_le i end) }
{
    (u128::MAX >> (127 - end)) & (u128::MAX << start)
}

#[tactic(auto, using(crate::proofs::ByteSetLayoutLemmas::has_bit_both))]
#[inline(always)]
pub(crate) fn within(mask: u128, start: u8, end: u8) -> u128
    requires { (start ≤ end) × (end < 128) }
    ensures { (i : ℕ) → has_bit result i ≡ (nat_le start i && nat_le i end && has_bit mask i) }
{
    run_of_bits(start, end) & mask
}

#[tactic(auto, using(crate::proofs::ByteSetLayoutLemmas::has_bit_both, crate::proofs::ByteSetLayoutLemmas::has_bit_not))]
#[inline(always)]
pub(crate) fn difference(mask: u128, other: u128) -> u128
    ensures { (i : ℕ) → i < 128 → has_bit result i ≡ (has_bit mask i && not (has_bit other i)) }
{
    mask & !other
}

#[tactic(auto, using(crate::proofs::ByteSetLayoutLemmas::has_bit_either))]
#[inline(always)]
pub(crate) fn either(mask: u128, other: u128) -> u128
    ensures { (i : ℕ) → has_bit result i ≡ (has_bit mask i || has_bit other i) }
{
    mask | other
}

// All bits shifted left by one. The lowest is the highest of `below`.
#[inline(always)]
pub(crate) fn shifted_left(mask: u128, below: u128) -> u128
    ensures first { has_bit result 0 ≡ has_bit below 127 }
    ensures others { (i : ℕ) → 0 < i → i < 128 → has_bit result i ≡ has_bit mask (i - 1) }
{
    (mask << 1) | (below >> 127)
}

// All bits shifted right by one. The highest is the lowest of `above`.
#[inline(always)]
pub(crate) fn shifted_right(mask: u128, above: u128) -> u128
    ensures last { has_bit result 127 ≡ has_bit above 0 }
    ensures others { (i : ℕ) → i < 127 → has_bit result i ≡ has_bit mask (i + 1) }
{
    (mask >> 1) | (above << 127)
}

#[inline(always)]
pub(crate) fn lower_block(mask: u128) -> u64
    ensures { (i : ℕ) → i < 64 → has_bit result i ≡ has_bit mask i }
{
    (mask & 0xFFFF_FFFF_FFFF_FFFF) as u64
}

#[inline(always)]
pub(crate) fn upper_block(mask: u128) -> u64
    ensures { (i : ℕ) → i < 64 → has_bit result i ≡ has_bit mask (64 + i) }
{
    (mask >> 64) as u64
}

#[inline(always)]
pub(crate) fn joined(lower: u64, upper: u64) -> u128
    ensures below { (i : ℕ) → i < 64 → has_bit result i ≡ has_bit lower i }
    ensures above { (i : ℕ) → has_bit result (64 + i) ≡ has_bit upper i }
{
    (u128::from(upper) << 64) | u128::from(lower)
}

// The index of the lowest bit that is 1.
#[inline(always)]
pub(crate) fn lowest_bit(block: u64) -> u8
    requires { 0 < block }
    ensures fits { result < 64 }
    ensures here { bit_at block result ≡ 1 }
    ensures below { (i : ℕ) → i < result → bit_at block i ≡ 0 }
{
    block.trailing_zeros() as u8
}

// All bits shifted left by one. The lowest is 0.
#[inline(always)]
pub(crate) fn block_shifted_left(block: u64) -> u64
    ensures first { has_bit result 0 ≡ false }
    ensures others { (i : ℕ) → 0 < i → i < 64 → has_bit result i ≡ has_bit block (i - 1) }
{
    block << 1
}

// The block, shifted right.
#[tactic(auto, using(crate::proofs::ByteSetLayoutLemmas::bit_at_shr))]
#[inline(always)]
pub(crate) fn block_shifted_right(block: u64, bits: u8) -> u64
    requires { bits < 64 }
    ensures { (i : ℕ) → bit_at result i ≡ bit_at block (bits + i) }
{
    block >> bits
}

// How many bits below a bit are 1.
#[tactic(auto, using(crate::proofs::ByteSetLayoutLemmas::ones_under, crate::proofs::CitedLaws::class_of_le))]
#[inline(always)]
pub(crate) fn ones_below(mask: u128, bit: u8) -> u8
    requires { bit < 128 }
    ensures value { result ≡ class_of (has_bit mask) bit }
    ensures most { result ≤ bit }
{
    (mask & ((1 << bit) - 1)).count_ones() as u8
}

// How many bits are 1.
#[tactic(auto, using(crate::proofs::ByteSetLayoutLemmas::ones_all))]
#[inline(always)]
pub(crate) fn ones(mask: u128) -> u8
    ensures value { result ≡ class_of (has_bit mask) 128 }
    ensures most { result ≤ 128 }
{
    mask.count_ones() as u8
}
