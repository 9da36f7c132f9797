//! What stops a run.

use thiserror::Error;

/// Why [`run`](crate::run) gave up.
#[derive(Debug, Drop, PartialEq, Eq, Error)]
pub enum BenchError {
    /// The input failed, or didn't end within the reads that are allowed. Nothing was written.
    #[error("rsc_bench: read failed")]
    Read,
    /// The output failed. The answers of earlier lines were written.
    #[error("rsc_bench: write failed")]
    Write,
    /// Out of memory. The answers of earlier lines were written.
    #[error("rsc_bench: out of memory")]
    OutOfMemory,
}
