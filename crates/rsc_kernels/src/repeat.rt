//! Repetitions that a compiler can't merge.

/// The sum after `reps` repetitions, each of which makes the next sum of the last one.
///
/// `pass` has to call a function that is never inlined. Each such call takes the sum so far and answers the next, so that none
/// of them can be left out or moved out of the loop.
#[inline(always)]
pub fn repeat<F: Fn(u64) -> u64>(reps: u64, pass: F) -> u64
    requires { F.IsAlwaysCallable pass }
{
    let mut sum = 0u64;
    for _ in 0..reps {
        sum = pass(sum);
    }
    sum
}
