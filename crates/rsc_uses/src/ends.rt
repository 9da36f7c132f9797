//! Where a match ends: after a greedy loop over a range the byte isn't in it, and a lazy loop ends at the first mark.
ghost use Rattle.std.specs.Prelude.{◌≡◌, ◌+◌, ◌<◌, ◌≤◌, ℕ, [], ◌∷◌, false, Some, None, IfOk, IfErr, IfSome, IfNone, IsTrue, slice_get};
ghost use Rattle.rsc_nfa.specs.Steps.{is_between};
ghost use Rattle.rsc_engine.specs.Patterns.{Class, Literal, Then, Repeat};
ghost use Rattle.rsc_engine.specs.Parts.{pattern_of, groups_of_part};
ghost use Rattle.rsc_engine.specs.Refusals.{RunsOut};
ghost use Rattle.rsc_engine.specs.declared.error.Error.TheVariants.{OutOfMemory};

use crate::parts::find_part;
use rsc_engine::{Builder, Error, Part};
use rsc_look::AsciiWord;
use std::alloc::Global;

/// The first run of bytes of a range, from where to where: the byte after it, if there is one, isn't in the range.
pub fn find_run(
    alloc: Global,
    first: u8,
    last: u8,
    haystack: &[u8],
) -> Result<Option<(usize, usize)>, Error>
    ensures found { IfOk result (λ found. IfSome found (λ ends. ends.0 < ends.1)) }
    ensures bytes { IfOk result (λ found. IfSome found (λ ends. (k : ℕ) → ends.0 ≤ k → k < ends.1 →
        IsTrue (is_between first last (slice_get haystack.now k)))) }
    ensures earlier { IfOk result (λ found. IfSome found (λ ends. (k : ℕ) → k < ends.0 → ¬ (IsTrue (is_between first last (slice_get haystack.now k))))) }
    ensures none { IfOk result (λ found. IfNone found ((k : ℕ) → ¬ (IsTrue (is_between first last (slice_get haystack.now k))))) }
    ensures longest { IfOk result (λ found. IfSome found (λ ends. ¬ (IsTrue (is_between first last (slice_get haystack.now ends.1))))) }
    ensures refused { IfErr result RunsOut }
{
    let builder = Builder::new(alloc);
    let run = builder.plus(builder.range(first, last))?;
    match find_part(alloc, AsciiWord, run, haystack)? {
        None => Ok(None),
        Some(ends) => Ok(Some(ends)),
    }
}

/// A quotation mark, any bytes up to the next one, and that.
pub fn quotation<'n>(alloc: Global) -> Result<Part<'n>, Error>
    ensures part { IfOk result (λ part. pattern_of part ≡ Then (Literal (34 ∷ [])) (Then (Repeat 0 None false (Class ((0, 255) ∷ []))) (Literal (34 ∷ [])))) }
    ensures groups { IfOk result (λ part. groups_of_part part ≡ []) }
    ensures refused { IfErr result (λ e. e ≡ OutOfMemory) }
{
    let builder = Builder::new(alloc);
    let bytes = builder.star_lazy(builder.range(0, 255))?;
    let rest = builder.then(bytes, builder.literal(b"\"")?)?;
    builder.then(builder.literal(b"\"")?, rest)
}

/// The first quoted part of a text: from a quotation mark to after the next one.
pub fn find_quoted(alloc: Global, haystack: &[u8]) -> Result<Option<(usize, usize)>, Error>
    ensures earlier { IfOk result (λ found. IfSome found (λ ends. (k : ℕ) → k < ends.0 → ¬ (slice_get haystack.now k ≡ Some 34))) }
    ensures none { IfOk result (λ found. IfNone found ((i j : ℕ) → i < j → slice_get haystack.now i ≡ Some 34 → ¬ (slice_get haystack.now j ≡ Some 34))) }
    ensures opens { IfOk result (λ found. IfSome found (λ ends. slice_get haystack.now ends.0 ≡ Some 34)) }
    ensures closes { IfOk result (λ found. IfSome found (λ ends. (at : ℕ) × (ends.0 < at) × (slice_get haystack.now at ≡ Some 34) × (ends.1 ≡ at + 1)
        × ((k : ℕ) → ends.0 < k → k < at → ¬ (slice_get haystack.now k ≡ Some 34)))) }
    ensures refused { IfErr result RunsOut }
{
    let part = quotation(alloc)?;
    match find_part(alloc, AsciiWord, part, haystack)? {
        None => Ok(None),
        Some(ends) => Ok(Some(ends)),
    }
}
