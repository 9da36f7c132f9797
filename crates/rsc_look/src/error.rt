//! The error of the Unicode assertions.
ghost use Rattle.std.specs.Prelude.{IsOk};

use std::error::Error;
use std::fmt;

/// The error of missing tables of word characters. No function returns it.
#[derive(Clone, Debug, Drop)]
pub struct UnicodeWordBoundaryError(());

impl UnicodeWordBoundaryError {
    /// Always `Ok`: the tables are there.
    ///
    /// # Errors
    ///
    /// None: the original returns one if it is built without the tables.
    pub fn check() -> Result<(), UnicodeWordBoundaryError>
        ensures { IsOk result }
    {
        Ok(())
    }
}

impl fmt::Display for UnicodeWordBoundaryError {
    ghost use Rattle.std.specs.Prelude.{Some};
    ghost use Rattle.rsc_look.specs.ErrorTexts.{unicode_word_boundary_error_text};

    ghost output = { λ _. Some unicode_word_boundary_error_text };

    fn fmt<W: fmt::Write>(&self, f: &mut fmt::Formatter<W>) -> fmt::Result {
        write!(
            f,
            "Unicode-aware \\b and \\B are unavailable because the requisite data tables are missing, please enable the unicode-word-boundary feature"
        )
    }
}

impl Error for UnicodeWordBoundaryError {}
