//! What a search finds: the pattern that matched, and where.
ghost use Rattle.std.specs.Prelude.{◌≡◌, ◌+◌, ◌-◌, ◌≤◌, ◌↔◌, IsTrue};
ghost use Rattle.rsc_primitives.specs.Indices.{IsIndex};

use crate::Span;
use rsc_primitives::PatternID;
use std::marker::Model;
use std::ops::Range;

/// The pattern that matched, and one end of the match: all that a one-ended search finds.
///
/// # Examples
///
/// ```
/// let found = HalfMatch::must(1, 5);
/// assert!(rt; found.pattern() == PatternID::must(1) && found.offset() == 5);
/// ```
#[derive(Clone, Copy, Debug, PartialEq, Eq, Hash)]
pub struct HalfMatch {
    pattern: PatternID,
    offset: usize,
}

impl Model for HalfMatch {
    ghost use Rattle.rsc_search.specs.Matches.{HalfMatched};

    ghost Value = { HalfMatched };

    ghost view = { λ m. record { pattern = m.pattern; offset = m.offset } };

    ghost inverse = { λ m. record { pattern = m.pattern; offset = m.offset } };
}

impl HalfMatch {
    /// A half match of a pattern, at a position in bytes.
    #[inline]
    pub fn new(pattern: PatternID, offset: usize) -> HalfMatch
        ensures { result ≡ record { pattern = pattern; offset = offset } }
    {
        HalfMatch { pattern, offset }
    }

    /// A half match of the pattern with that number, which is at most 2147483646.
    #[inline]
    pub fn must(pattern: usize, offset: usize) -> HalfMatch
        requires { IsIndex pattern }
        ensures { result ≡ record { pattern = pattern; offset = offset } }
    {
        HalfMatch::new(PatternID::must(pattern), offset)
    }

    /// The pattern that matched.
    #[inline]
    pub fn pattern(&self) -> PatternID
        ensures { result ≡ self.now.pattern }
    {
        self.pattern
    }

    /// The position of the match's end, or of its start where the search ran backwards.
    #[inline]
    pub fn offset(&self) -> usize
        ensures { result ≡ self.now.offset }
    {
        self.offset
    }
}

/// The pattern that matched, and the span of the match. The span's start is at most its end.
///
/// # Examples
///
/// ```
/// let found = Match::must(0, Span { start: 2, end: 5 });
/// assert!(rt; found.start() == 2 && found.end() == 5 && found.len() == 3);
/// ```
#[derive(Clone, Copy, Debug, PartialEq, Eq, Hash)]
pub struct Match {
    pattern: PatternID,
    span: Span,
}

impl Model for Match {
    ghost use Rattle.std.specs.Prelude.{◌≤◌};
    ghost use Rattle.rsc_search.specs.Matches.{Matched};

    ghost Value = { Matched };

    ghost view = { λ m. record { pattern = m.pattern; span = m.span } };

    ghost invariant = { λ m. m.span.start ≤ m.span.end };

    ghost inverse = { λ m. record { pattern = m.pattern; span = m.span } };
}

impl Match {
    /// A match of a pattern, at a span whose start is at most its end.
    #[inline]
    pub fn new(pattern: PatternID, span: Span) -> Match
        requires { span.start ≤ span.end }
        ensures { result ≡ record { pattern = pattern; span = span } }
    {
        Match { pattern, span }
    }

    /// A match of the pattern with that number, which is at most 2147483646, at a span whose start is at most its end.
    #[inline]
    pub fn must(pattern: usize, span: Span) -> Match
        requires within { IsIndex pattern }
        requires order { span.start ≤ span.end }
        ensures { result ≡ record { pattern = pattern; span = span } }
    {
        Match::new(PatternID::must(pattern), span)
    }

    /// The pattern that matched.
    #[inline]
    pub fn pattern(&self) -> PatternID
        ensures { result ≡ self.now.pattern }
    {
        self.pattern
    }

    /// The position of the match's first byte.
    #[inline]
    pub fn start(&self) -> usize
        ensures value { result ≡ self.now.span.start }
        ensures order { result ≤ self.now.span.end }
    {
        self.span.start
    }

    /// The position after the match's last byte.
    #[inline]
    pub fn end(&self) -> usize
        ensures value { result ≡ self.now.span.end }
        ensures order { self.now.span.start ≤ result }
    {
        self.span.end
    }

    /// The match's span, as a range of positions.
    #[inline]
    pub fn range(&self) -> Range<usize>
        ensures start { result.start ≡ self.now.span.start }
        ensures end { result.end ≡ self.now.span.end }
        ensures order { result.start ≤ result.end }
    {
        self.span.range()
    }

    /// The match's span.
    #[inline]
    pub fn span(&self) -> Span
        ensures value { result ≡ self.now.span }
        ensures order { result.start ≤ result.end }
    {
        self.span
    }

    /// Whether the match holds no byte.
    #[inline]
    pub fn is_empty(&self) -> bool
        ensures { IsTrue result ↔ (self.now.span.start ≡ self.now.span.end) }
    {
        self.span.is_empty()
    }

    /// How many bytes the match holds.
    #[inline]
    pub fn len(&self) -> usize
        ensures value { result ≡ self.now.span.end - self.now.span.start }
        ensures sum { self.now.span.start + result ≡ self.now.span.end }
    {
        self.span.len()
    }
}
