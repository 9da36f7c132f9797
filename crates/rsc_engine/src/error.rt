//! Why there is no program, or no answer.
ghost use Rattle.std.specs.Prelude.{◌≡◌, Some};
ghost use Rattle.rsc_engine.specs.declared.error.Error.TheVariants.{OutOfMemory};
ghost use Rattle.rsc_engine.specs.Refusals.{error_text};

use std::alloc::{AllocError, AllocFailed};
use std::fmt;

/// Why there is no program, or no answer.
///
/// # Examples
///
/// ```
/// let builder = Builder::new(rt.alloc());
/// let one = builder.group(Some("x"), builder.empty())?;
/// let other = builder.group(Some("x"), builder.empty())?;
/// let both = builder.then(one, other)?;
/// assert!(rt;
///     matches!(
///         builder.build(AsciiWord, true, both),
///         Err(Error::RepeatedName)
///     )
/// );
/// ```
#[derive(Debug, Drop)]
pub enum Error {
    /// Out of memory.
    OutOfMemory,
    /// A group name twice in a pattern.
    RepeatedName,
    /// More states than a builder's limit, or more groups than there are slots for.
    TooLarge,
}

impl fmt::Display for Error {
    ghost output = { λ error. Some (error_text error) };

    fn fmt<W: fmt::Write>(&self, f: &mut fmt::Formatter<W>) -> fmt::Result {
        match self {
            Error::OutOfMemory => write!(f, "out of memory"),
            Error::RepeatedName => write!(f, "repeated group name"),
            Error::TooLarge => write!(f, "too large"),
        }
    }
}

impl std::error::Error for Error {}

impl From<AllocError> for Error {
    ghost from_gives = { λ _ e. e ≡ OutOfMemory };

    fn from(_error: AllocError) -> Error {
        Error::OutOfMemory
    }
}

impl<T: Drop> From<AllocFailed<T>> for Error {
    ghost from_gives = { λ _ e. e ≡ OutOfMemory };

    fn from(_error: AllocFailed<T>) -> Error {
        Error::OutOfMemory
    }
}
