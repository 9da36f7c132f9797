//! The bytes on both sides of a position as a small haystack, and where the byte at a position leads.
ghost use Rattle.std.specs.Prelude.{◌≡◌, ◌<◌, ℕ, IfOk, IfErr, IfSome, Some, length};
ghost use Rattle.rsc_engine.specs.declared.error.Error.TheVariants.{OutOfMemory};
ghost use Rattle.rsc_engine.specs.RowsLayout.{machine, Moves, around};

use crate::{Error, Program};
use rsc_look::WordClass;
use rsc_nfa::State;
use rsc_primitives::StateID;
use std::alloc::Global;

/// The small haystack of the bytes on both sides.
pub(crate) fn near_of(
    alloc: Global,
    before: Option<u8>,
    after: Option<u8>,
) -> Result<Vec<u8>, Error>
    ensures near { IfOk result (λ near. near.items ≡ around before after) }
    ensures refused { IfErr result (λ e. e ≡ OutOfMemory) }
{
    let mut near = Vec::new(alloc);
    if let Some(byte) = before {
        near.push(byte)?;
    }
    if let Some(byte) = after {
        near.push(byte)?;
    }
    Ok(near)
}

/// The state to which a state leads over the byte at a position.
pub(crate) fn moved<W: WordClass>(
    program: &Program<W>,
    near: &[u8],
    at: usize,
    sid: StateID,
) -> Option<StateID>
    requires sid { sid < length program.now.automaton.states }
    ensures some { IfSome result (λ u. (u < length program.now.automaton.states) × Moves (machine W.word_chars program.now) near.now at sid u) }
    ensures all { (u : ℕ) → Moves (machine W.word_chars program.now) near.now at sid u → result ≡ Some u }
{
    match program.state(sid) {
        State::ByteRange { start, end, next } => {
            if at < near.len() && start <= near[at] && near[at] <= end {
                Some(next)
            } else {
                None
            }
        }
        State::Assert { .. } | State::Fork { .. } | State::Capture { .. } | State::Accept { .. } =>
            None,
    }
}
