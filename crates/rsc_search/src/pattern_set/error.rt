//! The refusal of a pattern that is at or above the capacity of a set.
ghost use Rattle.std.specs.Prelude.{◌≡◌};

use rsc_primitives::PatternID;
use std::marker::Model;
use std::{error, fmt};

/// The error of [`crate::PatternSet::try_insert`]: the pattern isn't below the set's capacity.
///
/// # Examples
///
/// ```
/// let mut set = PatternSet::new(rt.alloc(), 3)?;
/// if let Err(error) = set.try_insert(PatternID::must(3)) {
///     assert!(rt; error.attempted() == PatternID::must(3) && error.capacity() == 3);
/// }
/// ```
#[derive(Clone, Debug, Drop)]
pub struct PatternSetInsertError {
    pub(super) attempted: PatternID,
    pub(super) capacity: usize,
}

impl Model for PatternSetInsertError {
    ghost use Rattle.rsc_search.specs.PatternSets.{RefusedInsertion};

    ghost Value = { RefusedInsertion };

    ghost view = { λ e. record { attempted = e.attempted; capacity = e.capacity } };
}

impl PatternSetInsertError {
    /// The pattern that was handed in.
    #[inline]
    pub fn attempted(&self) -> PatternID
        ensures { result ≡ self.now.attempted }
    {
        self.attempted
    }

    /// The set's capacity.
    #[inline]
    pub fn capacity(&self) -> usize
        ensures { result ≡ self.now.capacity }
    {
        self.capacity
    }
}

impl fmt::Display for PatternSetInsertError {
    ghost use Rattle.std.specs.Prelude.{Some};
    ghost use Rattle.rsc_search.specs.Texts.{refused_insertion_text};

    ghost output = { λ e. Some (refused_insertion_text e) };

    fn fmt<W: fmt::Write>(&self, f: &mut fmt::Formatter<W>) -> fmt::Result {
        let (attempted, capacity) = (self.attempted.as_usize(), self.capacity);
        write!(
            f,
            "failed to insert pattern ID {attempted} into pattern set with insufficient capacity of {capacity}"
        )
    }
}

impl error::Error for PatternSetInsertError {}
