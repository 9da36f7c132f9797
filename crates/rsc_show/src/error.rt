//! What stops the program.

use crate::text::Page;
use std::alloc::{AllocError, AllocFailed, Global};

/// What stops the program, or makes it end with a status of its own.
#[derive(Drop)]
pub enum ShowError {
    /// An argument is not what was expected; the text says which, and what was.
    Usage(String),
    /// An argument is not UTF-8.
    NotUtf8,
    /// Reading standard input failed, or it did not end within the reads that are allowed.
    Read,
    /// Writing failed.
    Write,
    /// The reader of the output went away.
    Closed,
    /// A list of groups is refused; the answer, which was written, says why.
    ListRefused,
    /// Out of memory.
    OutOfMemory,
}

impl ShowError {
    /// The line that says it on standard error.
    pub fn message(&self) -> &str {
        match self {
            ShowError::Usage(message) => message.as_str(),
            ShowError::NotUtf8 => {
                "rsc_show: an argument is not UTF-8: expected any bytes as --hex BYTES or -"
            }
            ShowError::Read => "rsc_show: read failed",
            ShowError::Write => "rsc_show: write failed",
            ShowError::Closed => "rsc_show: output closed",
            ShowError::ListRefused => "rsc_show: the list is refused",
            ShowError::OutOfMemory => "rsc_show: out of memory",
        }
    }

    /// The status with which the program ends: 3 for a refused list, 2 for arguments, and 1 for what failed.
    pub fn status(&self) -> u8 {
        match self {
            ShowError::ListRefused => 3,
            ShowError::Usage(_) | ShowError::NotUtf8 => 2,
            ShowError::Read | ShowError::Write | ShowError::Closed | ShowError::OutOfMemory => 1,
        }
    }
}

impl From<AllocError> for ShowError {
    fn from(_error: AllocError) -> ShowError {
        ShowError::OutOfMemory
    }
}

impl<T: Drop> From<AllocFailed<T>> for ShowError {
    fn from(_error: AllocFailed<T>) -> ShowError {
        ShowError::OutOfMemory
    }
}

/// The refusal of an argument: which, and what was expected.
pub fn refused(alloc: Global, argument: &str, expected: &str) -> ShowError {
    refused_value(alloc, "", argument, expected)
}

/// The refusal of an option's value: the option, the value, and what was expected.
pub fn refused_value(alloc: Global, option: &str, value: &str, expected: &str) -> ShowError {
    let mut page = Page::new(alloc);
    page.push_str("rsc_show: `");
    if !option.is_empty() {
        page.push_str(option);
        page.push(' ');
    }
    for c in value.chars() {
        page.push_char(c);
    }
    page.push_str("`: expected ");
    page.push_str(expected);
    match page.finish() {
        Ok(message) => ShowError::Usage(message),
        Err(_) => ShowError::OutOfMemory,
    }
}
