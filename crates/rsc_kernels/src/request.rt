//! What is asked of the kernels.

/// A kernel, what it reads, and how often it is repeated.
#[derive(Clone, Copy, Drop)]
pub struct Request<'a> {
    /// The kernel's number.
    pub kernel: u32,
    /// What is made once, before the repetitions, is made of this.
    pub data: &'a [u8],
    /// A number that some kernels take.
    pub param: u64,
    /// How often the kernel is repeated.
    pub reps: u64,
}
