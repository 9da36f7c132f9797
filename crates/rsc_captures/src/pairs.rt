//! Where the groups of the pattern that matched have their slots. Captures keep it, so that no look-up asks the group info.
//!
//! Two slots make a pair: the slots 2i and 2i + 1, a group's start and end, are pair i. The first group of pattern p has pair p. After the first
//! groups of all patterns come the other groups, pattern by pattern, so that group i of a pattern, from 1 on, has the pair i plus a number that
//! is the same for all of them: `rest`. With one pattern group i has pair i.
ghost use Rattle.std.specs.Prelude.{◌≡◌, ℕ, ◌+◌, ◌*◌, ◌<◌, ◌≤◌, ◌⊎◌};
ghost use Rattle.rsc_primitives.specs.Indices.{max_index};
ghost use Rattle.rsc_captures.specs.Groups.{all_group_count, group_count};
ghost use Rattle.rsc_captures.specs.PairsLayout.{ArePairs, IsRest, slot_by_pairs};

use crate::group_info::GroupInfo;
use rsc_primitives::PatternID;
use std::alloc::Allocator;

/// The pairs of slots of a pattern's groups.
#[derive(Clone, Copy)]
pub(crate) struct Pairs {
    /// How many of the pattern's groups have both slots here. They are its first ones.
    pub(crate) count: usize,
    /// The pair of the first group.
    pub(crate) first: usize,
    /// What is added to the number of another group for its pair.
    pub(crate) rest: usize,
    ghost limit: { (first ≤ max_index) × (rest + count ≤ max_index + 1) },
}

impl Pairs {
    /// No group has a pair.
    #[inline]
    pub(crate) fn none() -> Pairs
        ensures { result.count ≡ 0 }
    {
        Pairs {
            count: 0,
            first: 0,
            rest: 0,
        }
    }

    /// Takes all groups' pairs out.
    #[inline]
    pub(crate) fn clear(&mut self)
        ensures { self.new.count ≡ 0 }
    {
        self.count = 0;
    }

    /// Those of a pattern, where there are that many slots. With one pattern in the group info its pairs are the answer, whatever pattern is given.
    #[tactic(auto, using(crate::proofs::PairsLayoutLemmas::pairs_of_none, crate::proofs::PairsLayoutLemmas::pairs_of_one, crate::proofs::PairsLayoutLemmas::pairs_of_many))]
    #[inline]
    pub(crate) fn of<A: Allocator + Clone + Drop>(
        group_info: &GroupInfo<A>,
        pid: Option<PatternID>,
        slots: usize,
    ) -> Pairs
        requires { slots ≤ 2 * all_group_count group_info.now }
        ensures { ArePairs group_info.now pid slots result.count result.first result.rest }
    {
        let Some(pid) = pid else {
            return Pairs::none();
        };
        // For the prover: there are no more slots than an index says.
        let _limit = group_info.slot_len();
        let pairs = slots / 2;
        if group_info.pattern_len() == 1 {
            return Pairs {
                count: pairs,
                first: 0,
                rest: 0,
            };
        }
        let first = pid.as_usize();
        let rest = rest_of(group_info, pid);
        Pairs {
            count: count_within(group_info.group_len(pid), first, rest, pairs),
            first,
            rest,
        }
    }

    /// The slot of a group's start, where both slots of the group are here.
    #[inline]
    pub(crate) fn slot(&self, index: usize) -> Option<usize>
        ensures { result ≡ slot_by_pairs self.now.count self.now.first self.now.rest index }
    {
        if index >= self.count {
            return None;
        }
        let pair = if index == 0 {
            self.first
        } else {
            self.rest + index
        };
        Some(2 * pair)
    }
}

// How many of that many groups have a pair below `pairs`. They are the first groups, since pairs rise with their groups.
#[inline]
fn count_within(count: usize, first: usize, rest: usize, pairs: usize) -> usize
    requires { 1 < count → first ≤ rest }
    ensures within { result ≤ count }
    ensures first { 0 < result → first < pairs }
    ensures all { (i : ℕ) → 0 < i → i < result → rest + i < pairs }
    ensures none { result ≡ 0 → count ≡ 0 ⊎ pairs ≤ first }
    ensures past { (i : ℕ) → 0 < i → result ≤ i → i < count → pairs ≤ rest + i }
{
    if first >= pairs {
        return 0;
    }
    let others = pairs.saturating_sub(rest);
    if others == 0 {
        count.min(1)
    } else {
        count.min(others)
    }
}

// What is added to the number of a group of the pattern for its pair, from the second group on.
#[tactic(auto, using(crate::proofs::PairsLayoutLemmas::rest_by_slot, crate::proofs::PairsLayoutLemmas::rest_of_none))]
#[inline]
fn rest_of<A: Allocator + Clone + Drop>(group_info: &GroupInfo<A>, pid: PatternID) -> usize
    ensures rest { IsRest group_info.now pid result }
    ensures first { 1 < group_count group_info.now pid → pid ≤ result }
    ensures limit { result + group_count group_info.now pid ≤ max_index + 1 }
{
    // For the prover: there are no more slots than an index says.
    let _limit = group_info.slot_len();
    match group_info.slot(pid, 1) {
        Some(slot) => slot / 2 - 1,
        None => 0,
    }
}
