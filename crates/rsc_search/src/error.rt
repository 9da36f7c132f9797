//! Why a search gives no answer.
ghost use Rattle.std.specs.Prelude.{◌≡◌, Some};
ghost use Rattle.std.specs.Fmt.{DisplaysOnOk};
ghost use Rattle.rsc_search.specs.declared.error.MatchErrorKind.TheVariants.{Quit, GaveUp, HaystackTooLong, UnsupportedAnchored};
ghost use Rattle.rsc_search.specs.Texts.{unsupported_text};

use crate::Anchored;
use rsc_primitives::escape::DebugByte;
use std::marker::Model;
use std::{error, fmt};

/// Why a search gives no answer.
#[derive(Clone, Debug, PartialEq, Eq, Drop)]
pub enum MatchErrorKind {
    /// The search met a byte at which it was told to stop.
    Quit {
        /// The byte.
        byte: u8,
        /// The position where it is.
        offset: usize,
    },
    /// The search stopped of itself, as it was taking too long.
    GaveUp {
        /// The position that it had come to.
        offset: usize,
    },
    /// The haystack is longer than this way of searching allows.
    HaystackTooLong {
        /// The haystack's length in bytes.
        len: usize,
    },
    /// A match can't be asked to begin, or not to begin, where the search begins.
    UnsupportedAnchored {
        /// What was asked.
        mode: Anchored,
    },
}

/// The error of a search that gives no answer.
///
/// # Examples
///
/// ```
/// let error = MatchError::gave_up(7);
/// assert!(rt; *error.kind() == MatchErrorKind::GaveUp { offset: 7 });
/// ```
#[derive(Clone, Debug, Drop, PartialEq, Eq)]
pub struct MatchError {
    kind: MatchErrorKind,
}

impl Model for MatchError {
    ghost use Rattle.rsc_search.specs.declared.error.MatchErrorKind.{MatchErrorKind};

    ghost Value = { MatchErrorKind };

    ghost view = { λ e. e.kind };

    ghost inverse = { λ kind. record { kind = kind } };
}

impl MatchError {
    /// The error of a kind.
    #[inline]
    pub fn new(kind: MatchErrorKind) -> MatchError
        ensures { result ≡ kind }
    {
        MatchError { kind }
    }

    /// The kind of this error.
    #[inline]
    pub fn kind(&self) -> &MatchErrorKind
        ensures { result.now ≡ self.now }
    {
        // No wrong body: nothing else of its type is at hand.
        &self.kind
    }

    /// The error of a search that met a byte at which it was told to stop, at that position.
    #[inline]
    pub fn quit(byte: u8, offset: usize) -> MatchError
        ensures { result ≡ Quit byte offset }
    {
        MatchError::new(MatchErrorKind::Quit { byte, offset })
    }

    /// The error of a search that stopped of itself, at that position.
    #[inline]
    pub fn gave_up(offset: usize) -> MatchError
        ensures { result ≡ GaveUp offset }
    {
        MatchError::new(MatchErrorKind::GaveUp { offset })
    }

    /// The error of a search over a haystack, of that length in bytes, that is longer than this way of searching allows.
    #[inline]
    pub fn haystack_too_long(len: usize) -> MatchError
        ensures { result ≡ HaystackTooLong len }
    {
        MatchError::new(MatchErrorKind::HaystackTooLong { len })
    }

    /// The error of a search that doesn't support what was asked of where a match begins.
    #[inline]
    pub fn unsupported_anchored(mode: Anchored) -> MatchError
        ensures { result ≡ UnsupportedAnchored mode }
    {
        MatchError::new(MatchErrorKind::UnsupportedAnchored { mode })
    }
}

impl fmt::Display for MatchError {
    ghost use Rattle.std.specs.Prelude.{Some};
    ghost use Rattle.rsc_search.specs.Texts.{match_error_text};

    ghost output = { λ kind. Some (match_error_text kind) };

    fn fmt<W: fmt::Write>(&self, f: &mut fmt::Formatter<W>) -> fmt::Result {
        match self.kind {
            MatchErrorKind::Quit { byte, offset } => {
                let byte = DebugByte(byte);
                write!(
                    f,
                    "quit search after observing byte {byte:?} at offset {offset}"
                )
            }
            MatchErrorKind::GaveUp { offset } => {
                write!(f, "gave up searching at offset {offset}")
            }
            MatchErrorKind::HaystackTooLong { len } => {
                write!(f, "haystack of length {len} is too long")
            }
            MatchErrorKind::UnsupportedAnchored { mode } => unsupported(mode, f),
        }
    }
}

// The text of a mode that isn't supported.
fn unsupported<W: fmt::Write>(mode: Anchored, f: &mut fmt::Formatter<W>) -> fmt::Result
    ensures { DisplaysOnOk W.write_str_gives f.old result (Some (unsupported_text mode)) f.new }
{
    match mode {
        Anchored::Yes => f.write_str("anchored searches are not supported or enabled"),
        Anchored::No => f.write_str("unanchored searches are not supported or enabled"),
        Anchored::Pattern(pid) => {
            let pattern = pid.as_usize();
            write!(
                f,
                "anchored searches for a specific pattern ({pattern}) are not supported or enabled"
            )
        }
    }
}

impl error::Error for MatchError {}
