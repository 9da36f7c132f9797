mod any_bytes;
mod cost;
mod escapes;
mod forms;
mod indices;
mod shown;
mod utf8;
mod watch;

use std::alloc::{AllocError, Global};
use std::fmt;

// Whether a text was made, and is this one.
fn is_text(made: Result<String, AllocError>, want: &str) -> bool {
    match made {
        Ok(text) => text.as_str() == want,
        Err(_) => false,
    }
}

// Whether a value is shown by this text.
fn is_debug<T: fmt::Debug>(alloc: Global, value: &T, want: &str) -> bool {
    is_text(format!(in alloc; "{value:?}"), want)
}
