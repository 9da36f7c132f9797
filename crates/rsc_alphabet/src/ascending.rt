//! The members of a set of bytes from the lowest up, by the lowest bit that is 1.
ghost use Rattle.std.specs.Prelude.{◌≡◌};
ghost use Rattle.std.specs.Iterator.{YieldsFirst, item_count};
ghost use Rattle.rsc_alphabet.specs.ByteSets.{members};

use crate::ByteSet;
use crate::masks::{block_shifted_right, lowest_bit};
use std::marker::Model;

// An iterator over the members of a set, one `u64` after the other, which is twice as fast as a `u128`. A contract sees it as the list
// of the members that are left.
#[derive(Debug, Drop)]
pub(crate) struct Ascending {
    set: ByteSet,
    // All members from 64 * (`number` + 1) on are left.
    number: u8,
    // Bit i of the block is that of the byte `byte + i`, so a member that follows the last one has the lowest bit, and is found without
    // waiting for the index of the one before it.
    byte: usize,
    block: u64,
}

impl Model for Ascending {
    ghost use Rattle.std.specs.Prelude.{ℕ, List, ◌≡◌, ◌+◌, ◌<◌};
    ghost use Rattle.std.specs.Int.{bit_at};
    ghost use Rattle.rsc_alphabet.specs.ByteSetLayout.{members_left};

    ghost Value = { List ℕ };

    ghost view = { λ it. members_left it.set it.number it.byte it.block };

    ghost invariant = { λ it. (it.number < 4) × ((i : ℕ) → bit_at it.block i ≡ 1 → it.byte + i < 256) };
}

impl Ascending {
    #[inline]
    pub(crate) fn new(set: ByteSet) -> Self
        ensures { result ≡ members set }
    {
        Ascending {
            set,
            number: 0,
            byte: 0,
            block: set.block(0),
        }
    }
}

impl Iterator for Ascending {
    type Item = u8;

    ghost next_gives = { YieldsFirst (λ rest. rest) };

    ghost remaining = { item_count (λ rest. rest) };

    #[inline]
    fn next(&mut self) -> Option<u8> {
        if self.block & 1 == 1 {
            let member = self.byte as u8;
            self.byte += 1;
            self.block = block_shifted_right(self.block, 1);
            return Some(member);
        }
        while self.block == 0 {
            if self.number == 3 {
                return None;
            }
            self.number += 1;
            self.byte = 64 * usize::from(self.number);
            self.block = self.set.block(self.number);
        }
        let gap = lowest_bit(self.block);
        let member = self.byte + usize::from(gap);
        self.byte = member + 1;
        // In two steps, since `gap + 1` may be 64.
        self.block = block_shifted_right(block_shifted_right(self.block, gap), 1);
        Some(member as u8)
    }
}
