//! The lines of a text in which a program matches.
ghost use Rattle.std.specs.Prelude.{◌≡◌, IfOk, IfErr};
ghost use Rattle.rsc_engine.specs.declared.error.Error.TheVariants.{OutOfMemory};
ghost use Rattle.rsc_engine.specs.Lines.{AreAllMatchingLines};

use rsc_engine::{AsciiCompatible, Dfa, Error, Lines};
use rsc_look::WordClass;
use rsc_search::Span;
use std::alloc::Global;

/// All lines in which a program matches, in order, by a DFA that comes back for the next text.
pub fn all_lines<'p, W: WordClass + AsciiCompatible>(
    alloc: Global,
    dfa: Dfa<'p, W>,
    text: &[u8],
) -> Result<(Vec<Span>, Dfa<'p, W>), Error>
    ensures all { IfOk result (λ both. AreAllMatchingLines W.word_chars (record { program = dfa.entry; haystack = text.now; from = 0 }) both.0.items) }
    ensures dfa { IfOk result (λ both. both.1 ≡ dfa.entry) }
    ensures refused { IfErr result (λ e. e ≡ OutOfMemory) }
{
    let mut lines = Lines::new(dfa, text);
    let mut all = Vec::new(alloc);
    'lines: loop {
        match lines.next()? {
            None => return Ok((all, lines.into_dfa())),
            Some(line) => all.push(line)?,
        }
    }
}
