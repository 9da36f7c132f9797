//! What a search is given: a haystack, the span of it to search, and how.
ghost use Rattle.std.specs.Prelude.{◌≡◌, ◌+◌, ◌^◌, ◌<◌, ◌≤◌, ◌↔◌, ◌⊎◌, ℕ, List, IsTrue, length};
ghost use Rattle.rsc_search.specs.Inputs.{whole, IsSpanWithin, span_between};
ghost use Rattle.rsc_primitives.specs.Utf8.{BeginsAt, EncodesAll};
ghost use Rattle.rsc_primitives.specs.Decoding.{IsCharBoundary};

use crate::{Anchored, Span};
use rsc_primitives::escape::DebugHaystack;
use rsc_primitives::utf8;
use std::fmt;
use std::marker::Model;
use std::ops::{Bound, Range};

/// What a search is given: a haystack, the span of it to search, where a match may begin, and whether the first match
/// found will do.
///
/// The span's end is at most the haystack's length, and its start at most its end and one: so that a search can say
/// by a start above the end that it is done.
///
/// # Examples
///
/// ```
/// let mut input = Input::new(b"ab");
/// assert!(rt; input.start() == 0 && input.end() == 2);
/// // After a match that ends at 2 an empty one may still be there; after that one the search is done.
/// input.set_start(2);
/// assert!(rt; !input.is_done());
/// input.set_start(3);
/// assert!(rt; input.is_done());
/// ```
#[derive(Clone, Drop)]
pub struct Input<'h> {
    haystack: &'h [u8],
    span: Span,
    anchored: Anchored,
    earliest: bool,
}

impl<'h> Model for Input<'h> {
    ghost use Rattle.rsc_search.specs.Inputs.{InputParts, IsSpanWithin};

    ghost Value = { InputParts };

    ghost view = { λ i. record { haystack = i.haystack.now; span = i.span; anchored = i.anchored; earliest = i.earliest } };

    ghost invariant = { λ i. IsSpanWithin i.haystack.now i.span };
}

/// An input that searches a whole haystack, as [`Input::new`] makes it.
impl<'h> From<&'h [u8]> for Input<'h> {
    ghost use Rattle.std.specs.Prelude.{◌≡◌};
    ghost use Rattle.rsc_search.specs.Inputs.{whole};

    ghost from_gives = { λ haystack input. input ≡ whole haystack.now };

    fn from(haystack: &'h [u8]) -> Input<'h> {
        Input::new(haystack)
    }
}

impl<'h> Input<'h> {
    /// The input that searches a whole haystack, unanchored and not for the earliest match.
    #[inline]
    pub fn new(haystack: &'h [u8]) -> Input<'h>
        ensures { result ≡ whole haystack.now }
    {
        Input {
            haystack,
            span: Span {
                start: 0,
                end: haystack.len(),
            },
            anchored: Anchored::No,
            earliest: false,
        }
    }

    /// This input with another span, whose end is a position of the haystack, and whose start is at most its end and one.
    #[inline]
    pub fn span(mut self, span: Span) -> Input<'h>
        requires { IsSpanWithin self.haystack span }
        ensures { result ≡ record self.entry { span = span } }
    {
        self.set_span(span);
        self
    }

    /// This input with the span between two bounds: an excluded start or an included end is its number plus 1, an unbounded start
    /// is 0, and an unbounded end the haystack's length.
    ///
    /// The span's end has to be a position of the haystack, and its start at most its end and one.
    ///
    /// # Examples
    ///
    /// ```
    /// let input = Input::new(b"abcd").range(Bound::Excluded(0), Bound::Included(2));
    /// assert!(rt; input.get_span() == Span { start: 1, end: 3 });
    /// ```
    #[inline]
    pub fn range(mut self, start: Bound<usize>, end: Bound<usize>) -> Input<'h>
        requires { IsSpanWithin self.haystack (span_between start end (length self.haystack)) }
        ensures { result ≡ record self.entry { span = span_between start end (length self.entry.haystack) } }
    {
        self.set_range(start, end);
        self
    }

    /// This input with another mode of where a match may begin.
    #[inline]
    pub fn anchored(mut self, mode: Anchored) -> Input<'h>
        ensures { result ≡ record self.entry { anchored = mode } }
    {
        self.set_anchored(mode);
        self
    }

    /// This input, which says whether the first match found will do.
    #[inline]
    pub fn earliest(mut self, earliest: bool) -> Input<'h>
        ensures { result ≡ record self.entry { earliest = earliest } }
    {
        self.set_earliest(earliest);
        self
    }

    /// Sets the span, to one whose end is a position of the haystack, and whose start is at most its end and one.
    #[inline]
    pub fn set_span(&mut self, span: Span)
        requires { IsSpanWithin self.old.haystack span }
        ensures { self.new ≡ record self.old { span = span } }
    {
        self.span = span;
    }

    /// Sets the span to the one between two bounds, as [`Input::range`] does, and under its condition.
    #[inline]
    pub fn set_range(&mut self, start: Bound<usize>, end: Bound<usize>)
        requires { IsSpanWithin self.old.haystack (span_between start end (length self.old.haystack)) }
        ensures { self.new ≡ record self.old { span = span_between start end (length self.old.haystack) } }
    {
        let len = self.haystack.len();
        let start = match start {
            Bound::Included(at) => at,
            Bound::Excluded(before) => before + 1,
            Bound::Unbounded => 0,
        };
        let end = match end {
            Bound::Included(last) => last + 1,
            Bound::Excluded(at) => at,
            Bound::Unbounded => len,
        };
        self.set_span(Span { start, end });
    }

    /// Sets the span's start, to at most its end and one.
    #[inline]
    pub fn set_start(&mut self, start: usize)
        requires { start ≤ self.old.span.end + 1 }
        ensures { self.new ≡ record self.old { span = record self.old.span { start = start } } }
    {
        self.span.start = start;
    }

    /// Sets the span's end: a position of the haystack, and at least the start minus 1.
    #[inline]
    pub fn set_end(&mut self, end: usize)
        requires within { end ≤ length self.old.haystack }
        requires order { self.old.span.start ≤ end + 1 }
        ensures { self.new ≡ record self.old { span = record self.old.span { end = end } } }
    {
        self.span.end = end;
    }

    /// Sets where a match may begin.
    #[inline]
    pub fn set_anchored(&mut self, mode: Anchored)
        ensures { self.new ≡ record self.old { anchored = mode } }
    {
        self.anchored = mode;
    }

    /// Sets whether the first match found will do.
    #[inline]
    pub fn set_earliest(&mut self, earliest: bool)
        ensures { self.new ≡ record self.old { earliest = earliest } }
    {
        self.earliest = earliest;
    }

    /// The haystack. It is lent for as long as it lives, and so beyond this input.
    #[inline]
    pub fn haystack(&self) -> &'h [u8]
        ensures value { result.now ≡ self.now.haystack }
        ensures within { self.now.span.end ≤ length self.now.haystack }
        ensures order { self.now.span.start ≤ self.now.span.end + 1 }
        ensures most { self.now.span.end + 1 < 2 ^ 64 }
    {
        self.haystack
    }

    /// The position where the search begins.
    #[inline]
    pub fn start(&self) -> usize
        ensures value { result ≡ self.now.span.start }
        ensures order { result ≤ self.now.span.end + 1 }
        ensures within { self.now.span.end ≤ length self.now.haystack }
        ensures most { self.now.span.end + 1 < 2 ^ 64 }
    {
        self.span.start
    }

    /// The position where the search ends.
    #[inline]
    pub fn end(&self) -> usize
        ensures value { result ≡ self.now.span.end }
        ensures within { result ≤ length self.now.haystack }
        ensures order { self.now.span.start ≤ result + 1 }
        ensures most { result + 1 < 2 ^ 64 }
    {
        self.span.end
    }

    /// The span that is searched.
    #[inline]
    pub fn get_span(&self) -> Span
        ensures value { result ≡ self.now.span }
        ensures within { IsSpanWithin self.now.haystack result }
        ensures most { result.end + 1 < 2 ^ 64 }
    {
        self.span
    }

    /// The span that is searched, as a range of positions.
    #[inline]
    pub fn get_range(&self) -> Range<usize>
        ensures start { result.start ≡ self.now.span.start }
        ensures end { result.end ≡ self.now.span.end }
        ensures within { result.end ≤ length self.now.haystack }
        ensures order { result.start ≤ result.end + 1 }
        ensures most { result.end + 1 < 2 ^ 64 }
    {
        self.span.range()
    }

    /// Where a match may begin.
    #[inline]
    pub fn get_anchored(&self) -> Anchored
        ensures { result ≡ self.now.anchored }
    {
        self.anchored
    }

    /// Whether the first match found will do.
    #[inline]
    pub fn get_earliest(&self) -> bool
        ensures { result ≡ self.now.earliest }
    {
        self.earliest
    }

    /// Whether a position is a character boundary: the haystack's length, or the position of a byte that continues no
    /// character. Any number is allowed; above the length it is false. In valid UTF-8 it is true exactly where a
    /// character begins and at the end.
    #[inline]
    pub fn is_char_boundary(&self, at: usize) -> bool
        ensures value { IsTrue result ↔ IsCharBoundary self.now.haystack at }
        ensures text { (chars : List ℕ) → EncodesAll self.now.haystack chars →
            IsTrue result ↔ (((c : ℕ) × BeginsAt self.now.haystack at c) ⊎ (at ≡ length self.now.haystack)) }
    {
        utf8::is_boundary(self.haystack, at)
    }

    /// Whether there is nothing left to search: the span's start is above its end. Where they are equal an empty
    /// match may still be found.
    #[inline]
    pub fn is_done(&self) -> bool
        ensures value { IsTrue result ↔ (self.now.span.end < self.now.span.start) }
        ensures within { self.now.span.end ≤ length self.now.haystack }
        ensures order { self.now.span.start ≤ self.now.span.end + 1 }
        ensures most { self.now.span.end + 1 < 2 ^ 64 }
    {
        self.span.start > self.span.end
    }
}

impl fmt::Debug for Input<'_> {
    fn fmt<W: fmt::Write>(&self, f: &mut fmt::Formatter<W>) -> fmt::Result {
        f.debug_struct("Input")
            .field("haystack", &DebugHaystack(self.haystack))
            .field("span", &self.span)
            .field("anchored", &self.anchored)
            .field("earliest", &self.earliest)
            .finish()
    }
}
