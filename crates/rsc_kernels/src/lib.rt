//! The kernels of the benchmark: one exported function, which a program in another language calls and measures.
#![tactic(auto)]

mod alphabet;
mod captures;
mod engine;
mod groups;
mod look;
mod numbers;
mod primitives;
mod repeat;
mod request;
mod search;

use crate::numbers::{
    BYTE_CLASSES, BYTESET_RANGES, CAPS_SET_SLOTS, GI_NEW, HOLDING, LOOK_AT, MATCH_SETS,
    PATTERN_ITER, PSET_FILL, PSET_TRY, SCAN, WORD_BYTES,
};
use crate::request::Request;
use std::alloc::Global;

/// The sum, wrapping at 64 bits, of what each of `reps` repetitions of a kernel adds. `numbers.rt` names the kernels; the
/// comment of a kernel's function says what a repetition does and adds.
///
/// What a kernel needs is made once, before the repetitions. The answer is 0 for a number that is no kernel's, for `data` and
/// `param` that aren't what the kernel reads, and if memory runs out.
#[unsafe(no_mangle)]
pub extern "C" fn rsc_kernel(
    alloc: Global,
    kernel: u32,
    data: &[u8],
    param: u64,
    reps: u64,
) -> u64 {
    let request = Request {
        kernel,
        data,
        param,
        reps,
    };
    let sum = match kernel {
        WORD_BYTES..=PATTERN_ITER => primitives::run(alloc, request),
        BYTE_CLASSES..=BYTESET_RANGES => alphabet::run(alloc, request),
        LOOK_AT..=HOLDING => look::run(alloc, request),
        PSET_FILL..=PSET_TRY => search::run(alloc, request),
        GI_NEW..=CAPS_SET_SLOTS => captures::run(alloc, request),
        SCAN..=MATCH_SETS => engine::run(alloc, request),
        _ => Ok(0),
    };
    sum.unwrap_or(0)
}
