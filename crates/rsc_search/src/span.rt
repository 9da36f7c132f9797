//! A part of a haystack, by its start and its end.
ghost use Rattle.std.specs.Prelude.{◌≡◌, ◌+◌, ◌-◌, ◌^◌, ◌<◌, ◌≤◌, ◌↔◌, IsTrue};
ghost use Rattle.std.specs.Option.{option_copied, option_copied_mut};
ghost use Rattle.std.specs.Borrow.{sem};
ghost use Rattle.rsc_search.specs.Spans.{cut, cut_text};
ghost use Rattle.rsc_search.specs.Lending.{LendsCut};

use std::fmt;
use std::ops::Range;

/// A part of a haystack: from the byte at `start` up to, and without, the byte at `end`.
///
/// Both are positions in bytes. Nothing is asked of their order: a span whose start is above its end is empty.
///
/// # Examples
///
/// ```
/// let span = Span { start: 1, end: 3 };
/// assert!(rt; span.len() == 2 && !span.is_empty());
/// assert!(rt; span.contains(3) && !span.contains(4));
/// ```
#[derive(Clone, Copy, Hash)]
pub struct Span {
    /// The position of the first byte.
    pub start: usize,
    /// The position after the last byte.
    pub end: usize,
}

impl PartialEq for Span {
    ghost use Rattle.rsc_search.specs.Spans.{same_span};
    ghost use Rattle.rsc_search.specs.SpansLaws.{same_span_partial};

    ghost eq = { same_span };

    ghost laws = { same_span_partial };

    #[inline]
    fn eq(&self, other: &Self) -> bool {
        self.start == other.start && self.end == other.end
    }
}

impl Eq for Span {
    ghost use Rattle.rsc_search.specs.SpansLaws.{same_span_equiv};

    ghost laws = { same_span_equiv };
}

impl Span {
    /// The span as a range of positions.
    #[inline]
    pub fn range(&self) -> Range<usize>
        ensures start { result.start ≡ self.now.start }
        ensures end { result.end ≡ self.now.end }
    {
        self.start..self.end
    }

    /// Whether the span holds no byte: its start is at least its end.
    #[inline]
    pub fn is_empty(&self) -> bool
        ensures { IsTrue result ↔ (self.now.end ≤ self.now.start) }
    {
        self.start >= self.end
    }

    /// How many bytes the span holds; 0 where its start is above its end.
    #[inline]
    pub fn len(&self) -> usize
        ensures { result ≡ self.now.end - self.now.start }
    {
        self.end.saturating_sub(self.start)
    }

    /// Whether a position is in the span. The end of a span that isn't empty counts too, although no byte of the
    /// span is there.
    #[inline]
    pub fn contains(&self, offset: usize) -> bool
        ensures { IsTrue result ↔ ((self.now.start < self.now.end) × (self.now.start ≤ offset) × (offset ≤ self.now.end)) }
    {
        !self.is_empty() && self.start <= offset && offset <= self.end
    }

    /// The span with both ends greater by a number of bytes. Both have to fit a `usize`.
    #[inline]
    pub fn offset(&self, offset: usize) -> Span
        requires start_most { self.now.start + offset < 2 ^ 64 }
        requires end_most { self.now.end + offset < 2 ^ 64 }
        ensures { result ≡ record { start = self.now.start + offset; end = self.now.end + offset } }
    {
        Span {
            start: self.start + offset,
            end: self.end + offset,
        }
    }

    /// The bytes of a haystack that the span names, or `None` where its start is above its end or its end above the
    /// haystack's length. The original lacks it.
    #[inline]
    pub fn get<'h>(&self, haystack: &'h [u8]) -> Option<&'h [u8]>
        ensures { option_copied result ≡ cut haystack.now self.now }
    {
        if self.start <= self.end && self.end <= haystack.len() {
            Some(&haystack[self.start..self.end])
        } else {
            None
        }
    }

    /// The bytes of the span, lent for writing, or `None` if [`Span::get`] is. Those outside it stay as they are. The original lacks it.
    #[inline]
    pub fn get_mut<'h>(&self, haystack: &'h mut [u8]) -> Option<&'h mut [u8]>
        ensures* writes_back { sem 𝓛 (LendsCut haystack.entry self.now result) }
        ensures value { option_copied_mut result ≡ cut haystack.old self.now }
    {
        // One test at a time: the proof follows this body step by step.
        let start = self.start;
        let end = self.end;
        if end < start {
            return None;
        }
        if haystack.len() < end {
            return None;
        }
        Some(&mut haystack[start..end])
    }

    /// The text of a haystack that the span names, or `None` where [`Span::get`] is `None` or an end of the span
    /// isn't a character boundary. The original lacks it.
    ///
    /// # Examples
    ///
    /// ```
    /// assert!(rt; Span { start: 1, end: 3 }.get_str("aébc") == Some("é"));
    /// assert!(rt; Span { start: 1, end: 2 }.get_str("aébc") == None);
    /// ```
    #[inline]
    pub fn get_str<'h>(&self, haystack: &'h str) -> Option<&'h str>
        ensures { option_copied result ≡ cut_text haystack.now self.now }
    {
        if self.start <= self.end
            && haystack.is_char_boundary(self.start)
            && haystack.is_char_boundary(self.end)
        {
            Some(&haystack[self.start..self.end])
        } else {
            None
        }
    }
}

impl From<Range<usize>> for Span {
    ghost use Rattle.std.specs.Prelude.{◌≡◌};

    ghost from_gives = { λ range span. span ≡ record { start = range.start; end = range.end } };

    #[inline]
    fn from(range: Range<usize>) -> Span {
        Span {
            start: range.start,
            end: range.end,
        }
    }
}

impl From<Span> for Range<usize> {
    ghost use Rattle.std.specs.Prelude.{◌≡◌};

    ghost from_gives = { λ span range. range ≡ record { start = span.start; end = span.end } };

    #[inline]
    fn from(span: Span) -> Range<usize> {
        span.start..span.end
    }
}

impl fmt::Debug for Span {
    ghost use Rattle.std.specs.Prelude.{Some};
    ghost use Rattle.rsc_search.specs.Spans.{span_text};

    ghost debug_output = { λ span. Some (span_text span) };

    fn fmt<W: fmt::Write>(&self, f: &mut fmt::Formatter<W>) -> fmt::Result {
        let (start, end) = (self.start, self.end);
        write!(f, "{start}..{end}")
    }
}
