//! Where a search may begin, and which of several matches it prefers.
ghost use Rattle.std.specs.Prelude.{◌≡◌, ◌↔◌, IsTrue};
ghost use Rattle.rsc_search.specs.declared.anchored.Anchored.TheVariants.{No};
ghost use Rattle.rsc_search.specs.declared.anchored.MatchKind.TheVariants.{All, LeftmostFirst};
ghost use Rattle.rsc_search.specs.Modes.{only_pattern};

use rsc_primitives::PatternID;

/// Whether a match has to begin where the search begins.
///
/// # Examples
///
/// ```
/// assert!(rt; !Anchored::No.is_anchored() && Anchored::Yes.is_anchored());
/// assert!(rt; Anchored::Pattern(PatternID::must(2)).pattern() == Some(PatternID::must(2)));
/// ```
#[derive(Clone, Copy, Debug, PartialEq, Eq)]
pub enum Anchored {
    /// A match may begin anywhere in the span that is searched.
    No,
    /// A match has to begin at the start of the span.
    Yes,
    /// A match has to begin at the start of the span, and only this pattern may match.
    Pattern(PatternID),
}

impl Anchored {
    /// Whether a match has to begin at the start of the span: true of all modes but `No`.
    #[inline]
    pub fn is_anchored(&self) -> bool
        ensures { IsTrue result ↔ ¬ (self.now ≡ No) }
    {
        match self {
            Anchored::No => false,
            Anchored::Yes | Anchored::Pattern(_) => true,
        }
    }

    /// The one pattern that may match, or `None` where each may.
    #[inline]
    pub fn pattern(&self) -> Option<PatternID>
        ensures { result ≡ only_pattern self.now }
    {
        match *self {
            Anchored::Pattern(pid) => Some(pid),
            Anchored::No | Anchored::Yes => None,
        }
    }
}

/// Which matches a search reports.
///
/// # Examples
///
/// ```
/// assert!(rt; MatchKind::All.continue_past_first_match());
/// assert!(rt; !MatchKind::LeftmostFirst.continue_past_first_match());
/// ```
#[derive(Clone, Copy, Debug, PartialEq, Eq)]
pub enum MatchKind {
    /// All matches, also the ones that a preferred match would hide.
    All,
    /// The leftmost match, and of several that begin there the one that the pattern prefers.
    LeftmostFirst,
}

impl Default for MatchKind {
    ghost use Rattle.std.specs.Prelude.{◌≡◌};
    ghost use Rattle.rsc_search.specs.declared.anchored.MatchKind.TheVariants.{LeftmostFirst};

    ghost is_default = { λ kind. kind ≡ LeftmostFirst };

    fn default() -> Self {
        Self::LeftmostFirst
    }
}

impl MatchKind {
    /// Whether a search goes on once it has met a match: true of `All` alone.
    #[inline]
    pub fn continue_past_first_match(&self) -> bool
        ensures { IsTrue result ↔ (self.now ≡ All) }
    {
        match self {
            MatchKind::All => true,
            MatchKind::LeftmostFirst => false,
        }
    }
}
