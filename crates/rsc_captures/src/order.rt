//! The groups of a pattern in the order of their names.
ghost use Rattle.std.specs.Prelude.{◌≡◌, ℕ, ◌+◌, ◌<◌, ◌≤◌, ◌++◌, length, take, drop, OnOk, slice_index_or, None};
ghost use Rattle.std.specs.List.{Contains, range_with_len};
ghost use Rattle.std.specs.List.Sorted.{IsPermutation};
ghost use Rattle.rsc_captures.specs.Groups.{groups_in};
ghost use Rattle.rsc_primitives.specs.Indices.{max_index};
ghost use Rattle.rsc_captures.specs.OrderLayout.{IsSortedByName, IsOrder};

use std::alloc::{AllocError, Allocator};

/// The name of a group, if it has one.
#[inline]
pub(crate) fn name_at<'a>(groups: &[Option<&'a str>], g: usize) -> Option<&'a str>
    ensures { result ≡ slice_index_or groups.now g None }
{
    match groups.get(g) {
        Some(group) => *group,
        None => None,
    }
}

/// Fills the list with the numbers of the groups from `from` on, in the order of their names.
pub(crate) fn put_in_order(groups: &[Option<&str>], from: usize, order: &mut [u32])
    requires { from + length order.old ≤ max_index + 1 }
    ensures complete { (g : ℕ) → from ≤ g → g < from + length order.old → Contains order.new g }
    ensures sorted { IsSortedByName order.new (groups_in groups.now) }
    ensures len { length order.new ≡ length order.old }
{
    number(from, order);
    sort_by_name(groups, order);
}

/// Adds the numbers of a pattern's groups, in the order of their names.
pub(crate) fn add_order<A: Allocator>(
    order: &mut Vec<u32, A>,
    groups: &[Option<&str>],
) -> Result<(), AllocError>
    requires { length groups.now ≤ max_index }
    ensures kept { OnOk result (take (length order.old.items) order.new.items ≡ order.old.items) }
    ensures len { OnOk result (length order.new.items ≡ length order.old.items + length groups.now) }
    ensures order { OnOk result (IsOrder (drop (length order.old.items) order.new.items) (groups_in groups.now)) }
{
    let first = order.len();
    order.resize(first + groups.len(), 0)?;
    put_in_order(groups, 0, &mut order.as_mut_slice()[first..]);
    Ok(())
}

// Fills the list with the numbers from `from` on.
fn number(from: usize, order: &mut [u32])
    requires { from + length order.old ≤ max_index + 1 }
    ensures { order.new ≡ range_with_len from (length order.old) }
{
    for i in 0..order.len() {
        order[i] = (from + i) as u32;
    }
}

// Puts groups in the order of their names, and those of one name in the order of their numbers. A group without a name comes first.
fn sort_by_name(groups: &[Option<&str>], order: &mut [u32])
    ensures permutation { IsPermutation order.old order.new }
    ensures sorted { IsSortedByName order.new (groups_in groups.now) }
{
    order.sort_unstable_by_key(|g| (name_at(groups, *g as usize), *g));
}
