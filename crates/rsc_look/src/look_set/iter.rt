//! The iterator over the members of a set.
ghost use Rattle.std.specs.Iterator.{YieldsFirst, item_count};

use crate::{Look, LookSet};
use std::marker::Model;

/// The iterator over a set's members, made by [`LookSet::iter`]. A contract sees it as the list of what is left.
///
/// # Examples
///
/// ```
/// let mut looks = LookSet::singleton(Look::End).insert(Look::Start).iter();
/// assert!(rt; looks.next() == Some(Look::Start));
/// assert!(rt; looks.next() == Some(Look::End));
/// assert!(rt; looks.next() == None);
/// ```
#[derive(Clone, Debug, Drop)]
pub struct LookSetIter {
    pub(super) set: LookSet,
}

impl Model for LookSetIter {
    ghost use Rattle.std.specs.Prelude.{List};
    ghost use Rattle.rsc_look.specs.declared.assertion.Look.{Look};
    ghost use Rattle.rsc_look.specs.LookSets.{members};

    ghost Value = { List Look };

    ghost view = { λ it. members it.set };
}

impl Iterator for LookSetIter {
    type Item = Look;

    ghost next_gives = { YieldsFirst (λ rest. rest) };

    ghost remaining = { item_count (λ rest. rest) };

    #[inline]
    fn next(&mut self) -> Option<Look> {
        let (look, rest) = self.set.first_member_and_rest()?;
        self.set = rest;
        Some(look)
    }
}
