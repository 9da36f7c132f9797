//! The forms in which a text can be asked for. The original's errors and fixed texts are the same in each: they ignore width, precision, fill and `#`.
use std::alloc::{AllocError, Global};
use std::fmt;

// Whether a text was made, and is this one.
fn is_text(made: Result<String, AllocError>, want: &str) -> bool {
    match made {
        Ok(text) => text.as_str() == want,
        Err(_) => false,
    }
}

/// Whether a value is displayed by this text in each form.
pub fn is_displayed<T: fmt::Display>(alloc: Global, value: &T, want: &str) -> bool {
    is_text(format!(in alloc; "{value}"), want)
        && is_text(format!(in alloc; "{value:>80}"), want)
        && is_text(format!(in alloc; "{value:*^300}"), want)
        && is_text(format!(in alloc; "{value:.3}"), want)
        && is_text(format!(in alloc; "{value:#}"), want)
        && is_text(format!(in alloc; "{value:+080}"), want)
}

/// Whether a value is shown by this text in each form of `Debug`.
pub fn is_shown<T: fmt::Debug>(alloc: Global, value: &T, want: &str) -> bool {
    is_text(format!(in alloc; "{value:?}"), want)
        && is_text(format!(in alloc; "{value:>80?}"), want)
        && is_text(format!(in alloc; "{value:*^300?}"), want)
        && is_text(format!(in alloc; "{value:.3?}"), want)
        && is_text(format!(in alloc; "{value:#?}"), want)
        && is_text(format!(in alloc; "{value:+080?}"), want)
}

/// Whether an error and its clone are displayed by the text that was made, in each form.
pub fn is_error<T: fmt::Display + Clone + Drop>(
    alloc: Global,
    error: &T,
    made: Result<String, AllocError>,
) -> bool {
    let Ok(want) = made else {
        return false;
    };
    match error.clone() {
        Ok(copy) => is_displayed(alloc, error, &want) && is_displayed(alloc, &copy, &want),
        Err(_) => false,
    }
}
