//! Lists of `u64`s: bit `i` of block `b` is that of the number `64 * b + i`.
ghost use Rattle.std.specs.Prelude.{◌≡◌, ℕ, ◌+◌, ◌<◌, ◌≤◌, ◌==◌, ◌||◌, ◌&&◌, ◌↔◌, not, true, false, IsTrue, length, replicate};
ghost use Rattle.std.specs.Int.{trailing_zeros, w64};
ghost use Rattle.rsc_primitives.specs.Bits.{has_bit};
ghost use Rattle.rsc_search.specs.BlockLayout.{block_of, highest_bit, SameBits, IsWithout, IsRestFrom, IsRestTo, IsBlockFrom, IsBlockTo};

/// How many bits a block has.
pub(crate) const BITS: usize = 64;

/// Whether bit `i` is set.
#[inline(always)]
pub(crate) fn is_bit_set(block: u64, i: usize) -> bool
    requires { i < 64 }
    ensures { result ≡ has_bit block i }
{
    (block >> i) & 1 == 1
}

/// The block with bit `i` set: the same block where it was.
#[inline(always)]
#[tactic(auto, using(crate::proofs::BlockLayoutLemmas::bit_set, crate::proofs::BlockLayoutLemmas::bit_stays))]
pub(crate) fn with_bit(block: u64, i: usize) -> u64
    requires { i < 64 }
    ensures bits { (j : ℕ) → has_bit result j ≡ (j == i || has_bit block j) }
    ensures same { has_bit block i ≡ true → result ≡ block }
{
    block | (1 << i)
}

/// The block without its lowest set bit.
#[inline(always)]
#[tactic(auto, using(crate::proofs::BlockLayoutLemmas::lowest_taken))]
pub(crate) fn without_lowest(block: u64) -> u64
    requires { 0 < block }
    ensures { IsWithout block (trailing_zeros w64 block) result }
{
    block & (block - 1)
}

/// The bit of the highest set bit. `63 ^` compiles to the processor's instruction alone, which `63 -` doesn't.
#[inline(always)]
pub(crate) fn highest(block: u64) -> usize
    requires { 0 < block }
    ensures { result ≡ highest_bit block }
{
    block.leading_zeros() as usize ^ (BITS - 1)
}

/// The block without its highest set bit.
#[inline(always)]
pub(crate) fn without_highest(block: u64) -> u64
    requires { 0 < block }
    ensures { IsWithout block (highest_bit block) result }
{
    block ^ (1 << highest(block))
}

/// A block of the list, or zero past its end.
#[inline(always)]
pub(crate) fn block_at(blocks: &[u64], index: usize) -> u64
    ensures { result ≡ block_of blocks.now index }
{
    blocks.get(index).copied().unwrap_or(0)
}

/// Sets each block to zero. Up to four are set from both ends: any other way is compiled to a call, which takes longer than they do.
#[inline(always)]
pub(crate) fn clear_all(blocks: &mut [u64])
    ensures { blocks.new ≡ replicate (length blocks.old) 0 }
{
    let count = blocks.len();
    match count {
        0 => {}
        1 => blocks[0] = 0,
        2..=4 => {
            blocks[0] = 0;
            blocks[1] = 0;
            blocks[count - 2] = 0;
            blocks[count - 1] = 0;
        }
        _ => clear_many(blocks),
    }
}

// Apart, so that a caller saves registers only where the call is made.
#[inline(never)]
fn clear_many(blocks: &mut [u64])
    ensures { blocks.new ≡ replicate (length blocks.old) 0 }
{
    blocks.fill(0);
}

/// Whether two lists have as many blocks, and the same bits are set in both.
#[inline(always)]
pub(crate) fn have_same_bits(blocks: &[u64], others: &[u64]) -> bool
    ensures { IsTrue result ↔ SameBits blocks.now others.now }
{
    blocks == others
}

/// The first block that isn't zero, from the one of that number on, of which only `rest` is left: its number, and what is
/// left of it. Where each is zero, so is the answer.
#[inline(always)]
pub(crate) fn first_from(blocks: &[u64], index: usize, rest: u64) -> (usize, u64)
    requires { IsRestFrom blocks.now index rest }
    ensures { IsBlockFrom blocks.now index rest result.0 result.1 }
{
    if rest != 0 {
        return (index, rest);
    }
    let last = blocks.len().saturating_sub(1);
    let (mut found, mut block) = (index, rest);
    while block == 0 && found < last {
        found += 1;
        block = blocks[found];
    }
    (found, block)
}

/// The last block that isn't zero, down from the one of that number, of which only `rest` is left: its number, and what is
/// left of it. Where each is zero, so is the answer.
#[inline(always)]
pub(crate) fn last_until(blocks: &[u64], index: usize, rest: u64) -> (usize, u64)
    requires { IsRestTo blocks.now index rest }
    ensures { IsBlockTo blocks.now index rest result.0 result.1 }
{
    if rest != 0 {
        return (index, rest);
    }
    let (mut found, mut block) = (index, rest);
    while block == 0 && 0 < found {
        found -= 1;
        block = block_at(blocks, found);
    }
    (found, block)
}
