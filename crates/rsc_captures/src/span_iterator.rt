//! The iterator over the spans of a match's groups.
ghost use Rattle.std.specs.Prelude.{◌≡◌, length, Some, IfSome};
ghost use Rattle.std.specs.Iterator.{YieldsFirst, UpTo, item_count};
ghost use Rattle.std.specs.Iterator.SizeHint.{IsWithinCount};

use crate::captures::Captures;
use rsc_search::Span;
use std::alloc::{Allocator, Global};
use std::fmt;
use std::marker::Model;

/// The iterator over the groups of the pattern that matched, made by [`Captures::iter`]. A contract sees it as the list of the
/// spans that are left.
#[derive(Drop)]
#[derive_where(Clone)]
pub struct CapturesPatternIter<'a, A: Allocator = Global> {
    pub(crate) captures: &'a Captures<A>,
    pub(crate) next_group: usize,
}

impl<'a, A: Allocator> Model for CapturesPatternIter<'a, A> {
    ghost use Rattle.std.specs.Prelude.{List, Option};
    ghost use Rattle.rsc_search.specs.declared.span.Span.{Span};
    ghost use Rattle.rsc_captures.specs.CapturedLayout.{spans_from};

    ghost Value = { List (Option Span) };

    ghost view = { λ it. spans_from it.captures.now it.next_group };
}

impl<'a, A: Allocator + Clone + Drop> CapturesPatternIter<'a, A> {
    /// How many groups are left.
    #[tactic(auto, using(crate::proofs::CapturedLemmas::spans_counted))]
    #[inline]
    pub fn len(&self) -> usize
        ensures { result ≡ length self.now }
    {
        self.captures.group_len().saturating_sub(self.next_group)
    }
}

impl<'a, A: Allocator + Clone + Drop> Iterator for CapturesPatternIter<'a, A> {
    type Item = Option<Span>;

    ghost next_gives = { YieldsFirst (λ rest. rest) };

    ghost remaining = { item_count (λ rest. rest) };

    #[tactic(auto, using(crate::proofs::CapturedLemmas::spans_from_first))]
    #[inline]
    fn next(&mut self) -> Option<Option<Span>> {
        let group = self.next_group;
        if group >= self.captures.group_len() {
            return None;
        }
        self.next_group += 1;
        Some(self.captures.get_group(group))
    }

    fn size_hint(&self) -> (usize, Option<usize>)
        ensures lower { IsWithinCount result.0 (item_count (λ rest. rest) self.now) }
        ensures upper { IfSome result.1 (UpTo (item_count (λ rest. rest) self.now)) }
        ensures value { result ≡ (length self.now, Some (length self.now)) }
    {
        let left = self.len();
        (left, Some(left))
    }
}

impl<'a, A: Allocator + Clone + Drop> fmt::Debug for CapturesPatternIter<'a, A> {
    fn fmt<W: fmt::Write>(&self, f: &mut fmt::Formatter<W>) -> fmt::Result {
        let left = self.len();
        write!(f, "CapturesPatternIter({left})")
    }
}
