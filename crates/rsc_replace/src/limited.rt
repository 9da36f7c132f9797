//! Texts with the first matches replaced, as many as a limit says.
ghost use Rattle.std.specs.Prelude.{◌≡◌, ◌<◌, IfOk, IfErr, None};
ghost use Rattle.rsc_search.specs.Inputs.{whole};
ghost use Rattle.rsc_engine.specs.declared.error.Error.TheVariants.{OutOfMemory};
ghost use Rattle.rsc_replace.specs.Replacements.{IsReplaced, IsReplacedUpTo};

use crate::{expand, replace_all};
use rsc_engine::{AsciiCompatible, Error, Matches, Program};
use rsc_look::WordClass;
use rsc_search::Input;
use std::alloc::Global;

/// The text with as many matches of a program replaced as the limit says, the first ones, or all if there are no more; a limit of 0 means all. What stands for
/// a match is as [`expand`] reads the template.
///
/// # Errors
///
/// Out of memory.
///
/// # Examples
///
/// ```
/// let builder = Builder::new(rt.alloc());
/// let letter = builder.literal(b"a")?;
/// let program = builder.build(AsciiWord, true, letter)?;
/// let out = replacen(rt.alloc(), &program, b"a-a-a", 2, b"b")?;
/// assert!(rt; out.as_slice() == b"b-b-a".as_slice());
/// ```
pub fn replacen<W: WordClass + AsciiCompatible>(
    alloc: Global,
    program: &Program<W>,
    text: &[u8],
    limit: usize,
    template: &[u8],
) -> Result<Vec<u8>, Error>
    ensures replaced { limit ≡ 0 → IfOk result (λ out. IsReplaced W.word_chars template.now
        (record { program = program.now; input = whole text.now; last = None }) out.items) }
    ensures up_to { 0 < limit → IfOk result (λ out. IsReplacedUpTo W.word_chars template.now limit
        (record { program = program.now; input = whole text.now; last = None }) out.items) }
    ensures refused { IfErr result (λ e. e ≡ OutOfMemory) }
{
    if limit == 0 {
        return replace_all(alloc, program, text, template);
    }
    replace_first(alloc, program, text, limit, template)
}

// The text with as many of the first matches replaced.
fn replace_first<W: WordClass + AsciiCompatible>(
    alloc: Global,
    program: &Program<W>,
    text: &[u8],
    most: usize,
    template: &[u8],
) -> Result<Vec<u8>, Error>
    ensures replaced { IfOk result (λ out. IsReplacedUpTo W.word_chars template.now most
        (record { program = program.now; input = whole text.now; last = None }) out.items) }
    ensures refused { IfErr result (λ e. e ≡ OutOfMemory) }
{
    let mut captures = program.captures(alloc)?;
    let mut matches = Matches::new(alloc, program, Input::new(text))?;
    let mut out = Vec::new(alloc);
    let mut from = 0;
    let mut left = most;
    'matches: while 0 < left {
        match matches.next(&mut captures)? {
            None => {
                out.extend_from_slice(&text[from..])?;
                return Ok(out);
            }
            Some(found) => {
                out.extend_from_slice(&text[from..found.start()])?;
                expand(&mut out, text, &captures, template)?;
                from = found.end();
                left -= 1;
            }
        }
    }
    out.extend_from_slice(&text[from..])?;
    Ok(out)
}
