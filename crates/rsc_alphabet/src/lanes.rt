//! Comparisons of 64 bytes at once.
ghost use Rattle.std.specs.Prelude.{◌≡◌, ◌==◌, ℕ, ◌+◌, ◌-◌, ◌<◌, ◌≤◌, not, length, slice_index};
ghost use Rattle.rsc_primitives.specs.Bits.{has_bit};

use std::simd::prelude::*;

// The number whose bit i is 1 where the byte at `first + i` is `byte`.
#[tactic(auto, using(crate::proofs::ByteSetLayoutLemmas::equal_bits))]
#[inline(always)]
pub(crate) fn equal_to(bytes: &[u8], first: usize, byte: u8) -> u64
    requires { first + 64 ≤ length bytes.now }
    ensures { (i : ℕ) → i < 64 → has_bit result i ≡ (slice_index bytes.now (first + i) == byte) }
{
    let here = u8x64::from_slice(&bytes[first..]);
    here.simd_eq(u8x64::splat(byte)).to_bitmask()
}

// The number whose bit i is 1 where the byte at `first + i` isn't the one before it.
#[tactic(auto, using(crate::proofs::ByteSetLayoutLemmas::unlike_bits))]
#[inline(always)]
pub(crate) fn unlike_before(bytes: &[u8], first: usize) -> u64
    requires { (0 < first) × (first + 64 ≤ length bytes.now) }
    ensures { (i : ℕ) → i < 64 → has_bit result i ≡ not (slice_index bytes.now (first + i) == slice_index bytes.now (first + i - 1)) }
{
    let here = u8x64::from_slice(&bytes[first..]);
    let before = u8x64::from_slice(&bytes[first - 1..]);
    here.simd_ne(before).to_bitmask()
}
