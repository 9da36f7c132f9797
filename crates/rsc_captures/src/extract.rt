//! The parts of the haystack that the groups of a match span, without copying.
ghost use Rattle.std.specs.Prelude.{◌≡◌, ℕ, List, Option, ◌+◌, ◌∷◌, [], map, MatchOption};
ghost use Rattle.std.specs.Option.{option_map};
ghost use Rattle.rsc_search.specs.Spans.{cut, cut_text};
ghost use Rattle.rsc_search.specs.declared.span.Span.{Span};
ghost use Rattle.rsc_captures.specs.Captured.{matched_group_count, participating_spans, pieces};
ghost use Rattle.rsc_captures.specs.CapturedLayout.{participating_from};

use crate::captures::Captures;
use rsc_search::Span;
use std::alloc::Allocator;

/// Text or bytes that a span may cut.
pub trait Haystack: Copy + Drop {
    ghost bytes: { Self → List ℕ };

    ghost cut_of: { List ℕ → Span → Option (List ℕ) };

    /// What the span cuts out, or `None` where it doesn't cut.
    fn cut(self, span: Span) -> Option<Self>
        ensures { option_map bytes result ≡ cut_of (bytes self) span };
}

impl Haystack for &str {
    ghost bytes = { λ s. s.now };

    ghost cut_of = { cut_text };

    #[inline]
    fn cut(self, span: Span) -> Option<Self> {
        span.get_str(self)
    }
}

impl Haystack for &[u8] {
    ghost bytes = { λ s. s.now };

    ghost cut_of = { cut };

    #[inline]
    fn cut(self, span: Span) -> Option<Self> {
        span.get(self)
    }
}

impl<A: Allocator + Clone + Drop> Captures<A> {
    // The first group from `from` on that participates, and the group after it.
    #[tactic(auto, using(crate::proofs::CapturedLemmas::participating_step))]
    #[inline(always)]
    fn next_participating(&self, from: usize, group_len: usize) -> Option<(Span, usize)>
        requires { group_len ≡ matched_group_count self.now }
        ensures { MatchOption result (participating_from self.now from ≡ [])
            (λ found. participating_from self.now from ≡ found.0 ∷ participating_from self.now found.1) }
    {
        for index in from..group_len {
            if let Some(span) = self.get_group(index) {
                return Some((span, index + 1));
            }
        }
        None
    }

    /// The parts of a text or of bytes that the participating groups span: the first, the whole match if it has a span, and
    /// the next `N`. Any after them are not looked at. `None` exactly if there are fewer than `N + 1` of them, or one of
    /// those doesn't cut the haystack. The parts live as long as the haystack.
    ///
    /// The checker follows `let (whole, [key, value]) = captures.extract_from::<&str, 2>(text)?;` in a function of its own, and not an array
    /// pattern in `if let`.
    ///
    /// # Examples
    ///
    /// ```
    /// assert!(rt; captures.extract_from::<&str, 1>("abc") == Some(("abc", ["b"])));
    /// // Two groups participate, and three are asked for.
    /// assert!(rt; captures.extract_from::<&str, 2>("abc") == None);
    /// ```
    #[inline]
    pub fn extract_from<H: Haystack, const N: usize>(&self, haystack: H) -> Option<(H, [H; N])>
        ensures { option_map (λ parts. H.bytes parts.0 ∷ map H.bytes parts.1) result
            ≡ pieces (H.cut_of (H.bytes haystack)) (N + 1) (participating_spans self.now) }
    {
        let group_len = self.group_len();
        let (span, mut next) = self.next_participating(0, group_len)?;
        let whole = haystack.cut(span)?;
        let mut parts = [whole; N];
        for k in 0..N {
            let (span, after) = self.next_participating(next, group_len)?;
            parts[k] = haystack.cut(span)?;
            next = after;
        }
        Some((whole, parts))
    }
}

impl Captures {
    // `extract_from` over the usual allocator.
    #[inline]
    fn extract_parts<H: Haystack, const N: usize>(&self, haystack: H) -> Option<(H, [H; N])>
        ensures { option_map (λ parts. H.bytes parts.0 ∷ map H.bytes parts.1) result
            ≡ pieces (H.cut_of (H.bytes haystack)) (N + 1) (participating_spans self.now) }
    {
        self.extract_from::<H, N>(haystack)
    }

    /// The parts of a text that the participating groups span: the first, the whole match if it has a span, and the next
    /// `N`, as by [`Captures::extract_from`].
    #[inline]
    pub fn extract<'h, const N: usize>(&self, haystack: &'h str) -> Option<(&'h str, [&'h str; N])>
        ensures { option_map (λ parts. parts.0.now ∷ map (λ p. p.now) parts.1) result
            ≡ pieces (cut_text haystack.now) (N + 1) (participating_spans self.now) }
    {
        self.extract_parts::<&str, N>(haystack)
    }

    /// The parts of bytes that the participating groups span: the first, the whole match if it has a span, and the next `N`,
    /// as by [`Captures::extract_from`].
    #[inline]
    pub fn extract_bytes<'h, const N: usize>(
        &self,
        haystack: &'h [u8],
    ) -> Option<(&'h [u8], [&'h [u8]; N])>
        ensures { option_map (λ parts. parts.0.now ∷ map (λ p. p.now) parts.1) result
            ≡ pieces (cut haystack.now) (N + 1) (participating_spans self.now) }
    {
        self.extract_parts::<&[u8], N>(haystack)
    }
}
