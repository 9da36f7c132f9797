//! Why a group list is refused.
ghost use Rattle.std.specs.Prelude.{◌≡◌, ⊤, None, Some, MatchOption};
ghost use Rattle.std.specs.Fmt.{DisplaysOnOk};
ghost use Rattle.rsc_captures.specs.Kinds.{refusal_text};
ghost use Rattle.rsc_captures.specs.Faults.{Duplicate};

use rsc_primitives::{PatternID, PatternIDError};
use std::alloc::{AllocError, AllocFailed, Allocator, Global};
use std::error::Error;
use std::fmt;
use std::marker::Model;

/// What is wrong with a group list, or out of memory.
///
/// # Examples
///
/// ```
/// if let Err(error) = GroupInfo::new(rt.alloc(), &[&[None, Some("x"), Some("x")]]) {
///     assert!(rt; matches!(error.kind(), GroupInfoErrorKind::Duplicate { .. }));
/// }
/// ```
#[derive(Drop)]
#[derive_where(Debug)]
pub enum GroupInfoErrorKind<A: Allocator = Global> {
    /// There are more patterns than a [`PatternID`] can number.
    TooManyPatterns {
        /// The refusal of the first number that no pattern can have.
        err: PatternIDError,
    },
    /// There are more groups than the limit on slots allows.
    TooManyGroups {
        /// The pattern whose groups pass the limit.
        pattern: PatternID,
        /// How many groups the pattern has at least.
        minimum: usize,
    },
    /// A pattern has no groups, and so not the one that stands for the whole match.
    MissingGroups {
        /// The pattern.
        pattern: PatternID,
    },
    /// The first group of a pattern, which stands for the whole match, has a name.
    FirstMustBeUnnamed {
        /// The pattern.
        pattern: PatternID,
    },
    /// A name that a lesser group of its pattern has.
    Duplicate {
        /// The pattern.
        pattern: PatternID,
        /// The name.
        name: String<A>,
    },
    /// Out of memory.
    OutOfMemory,
}

/// The refusal of a group list. A contract sees it as the fault of the list, or as none where it is out of memory.
#[derive_where(Debug)]
pub struct GroupInfoError<A: Allocator = Global> {
    kind: GroupInfoErrorKind<A>,
}

// Written out, so that a caller's proof has one step where an error is dropped, instead of one for each kind.
impl<A: Allocator> Drop for GroupInfoError<A> {
    fn drop(self) {
        let GroupInfoError { kind: _ } = self;
    }
}

impl<A: Allocator> Model for GroupInfoError<A> {
    ghost use Rattle.std.specs.Prelude.{Option};
    ghost use Rattle.rsc_captures.specs.Faults.{Fault};

    ghost Value = { Option Fault };

    ghost use Rattle.rsc_captures.specs.Kinds.{fault_of};

    ghost view = { λ e. fault_of e.kind };
}

impl<A: Allocator> From<AllocError> for GroupInfoError<A> {
    ghost from_gives = { λ _ e. e ≡ None };

    fn from(_error: AllocError) -> GroupInfoError<A> {
        GroupInfoError::new(GroupInfoErrorKind::OutOfMemory)
    }
}

impl<A: Allocator, T: Drop> From<AllocFailed<T>> for GroupInfoError<A> {
    ghost from_gives = { λ _ e. e ≡ None };

    fn from(_error: AllocFailed<T>) -> GroupInfoError<A> {
        GroupInfoError::new(GroupInfoErrorKind::OutOfMemory)
    }
}

impl<A: Allocator> GroupInfoError<A> {
    ghost use Rattle.std.specs.Prelude.{◌≡◌};
    ghost use Rattle.rsc_captures.specs.Kinds.{fault_of};

    pub(crate) fn new(kind: GroupInfoErrorKind<A>) -> GroupInfoError<A>
        ensures { result ≡ fault_of kind }
    {
        GroupInfoError { kind }
    }

    /// What is wrong with the list.
    pub fn kind(&self) -> &GroupInfoErrorKind<A>
        ensures { fault_of result.now ≡ self.now }
    {
        // No wrong body: nothing else of its type is at hand.
        &self.kind
    }
}

impl<A: Allocator + Clone + Drop> GroupInfoErrorKind<A> {
    ghost use Rattle.std.specs.Prelude.{◌≡◌, IfOk};
    ghost use Rattle.rsc_captures.specs.Kinds.{fault_of};

    /// A clone, with a copy of a repeated name. No other kind takes memory.
    ///
    /// # Errors
    ///
    /// If memory runs out; the source stays as it is.
    pub fn clone(&self) -> Result<GroupInfoErrorKind<A>, AllocError>
        ensures { IfOk result (λ copy. fault_of copy ≡ fault_of self.now) }
    {
        Ok(match self {
            Self::TooManyPatterns { err } => Self::TooManyPatterns { err: err.clone()? },
            Self::TooManyGroups { pattern, minimum } => Self::TooManyGroups {
                pattern: *pattern,
                minimum: *minimum,
            },
            Self::MissingGroups { pattern } => Self::MissingGroups { pattern: *pattern },
            Self::FirstMustBeUnnamed { pattern } => Self::FirstMustBeUnnamed { pattern: *pattern },
            Self::Duplicate { pattern, name } => Self::Duplicate {
                pattern: *pattern,
                name: name.clone()?,
            },
            Self::OutOfMemory => Self::OutOfMemory,
        })
    }
}

impl<A: Allocator + Clone + Drop> GroupInfoError<A> {
    ghost use Rattle.std.specs.Prelude.{◌≡◌, IfOk};

    /// A clone, with a copy of a repeated name. No other error takes memory.
    ///
    /// # Errors
    ///
    /// If memory runs out; the source stays as it is.
    pub fn clone(&self) -> Result<GroupInfoError<A>, AllocError>
        ensures { IfOk result (λ copy. copy ≡ self.now) }
    {
        Ok(GroupInfoError::new(self.kind.clone()?))
    }
}

impl<A: Allocator> fmt::Display for GroupInfoErrorKind<A> {
    ghost use Rattle.rsc_captures.specs.Kinds.{fault_of, refusal_text};

    ghost output = { λ kind. Some (refusal_text (fault_of kind)) };

    fn fmt<W: fmt::Write>(&self, f: &mut fmt::Formatter<W>) -> fmt::Result {
        match self {
            Self::TooManyPatterns { err } => {
                write!(f, "too many patterns to build capture info: {err}")
            }
            Self::TooManyGroups { pattern, minimum } => write!(
                f,
                "too many capture groups (at least {minimum}) were found for pattern {}",
                pattern.as_usize()
            ),
            Self::MissingGroups { pattern } => write!(
                f,
                "no capturing groups found for pattern {} (either all patterns have zero groups or all patterns have at least one group)",
                pattern.as_usize()
            ),
            Self::FirstMustBeUnnamed { pattern } => write!(
                f,
                "first capture group (at index 0) for pattern {} has a name (it must be unnamed)",
                pattern.as_usize()
            ),
            Self::Duplicate { pattern, name } => write!(
                f,
                "duplicate capture group name '{name}' found for pattern {}",
                pattern.as_usize()
            ),
            Self::OutOfMemory => f.write_str("out of memory while building capture info"),
        }
    }
}

impl<A: Allocator> fmt::Display for GroupInfoError<A> {
    ghost use Rattle.rsc_captures.specs.Kinds.{refusal_text};

    ghost output = { λ fault. Some (refusal_text fault) };

    fn fmt<W: fmt::Write>(&self, f: &mut fmt::Formatter<W>) -> fmt::Result {
        fmt::Display::fmt(&self.kind, f)
    }
}

impl<A: Allocator> Error for GroupInfoError<A> {}

/// The refusal of a pattern's repeated name, of which it keeps a copy.
pub(crate) fn duplicate<A: Allocator + Clone + Drop>(
    alloc: A,
    repeat: (PatternID, &str),
) -> GroupInfoError<A>
    ensures { MatchOption result ⊤ (λ fault. fault ≡ Duplicate repeat.entry.0 repeat.entry.1.now) }
{
    let (pattern, name) = repeat;
    match String::from_str(alloc, name) {
        Ok(name) => GroupInfoError::new(GroupInfoErrorKind::Duplicate { pattern, name }),
        Err(_) => GroupInfoError::new(GroupInfoErrorKind::OutOfMemory),
    }
}
