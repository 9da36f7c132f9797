//! Values that threads may share: an engine, its groups and its captures are moved to another thread, or asked by several at a time.
ghost use Rattle.std.specs.Prelude.{IsTrue};

use rsc_alphabet::ByteClasses;
use rsc_captures::{Captures, GroupInfo};
use rsc_engine::{Cache, Dfa, Matches, Program};
use rsc_look::{LookMatcher, UnicodeWord};
use rsc_nfa::Nfa;
use rsc_search::{Input, PatternSet};

// Compiles only for a type whose values may be moved to another thread and lent to several.
fn is_send_and_sync<T: Send + Sync>() -> bool
    ensures { IsTrue result }
{
    true
}

/// Whether these types may be shared by threads. That this compiles is the answer.
pub fn are_shared_by_threads() -> bool
    ensures { IsTrue result }
{
    is_send_and_sync::<GroupInfo>()
        && is_send_and_sync::<Captures>()
        && is_send_and_sync::<ByteClasses>()
        && is_send_and_sync::<LookMatcher<UnicodeWord>>()
        && is_send_and_sync::<PatternSet>()
        && is_send_and_sync::<Input<'static>>()
        && is_send_and_sync::<Nfa<UnicodeWord>>()
        && is_send_and_sync::<Program<UnicodeWord>>()
        && is_send_and_sync::<Cache<'static, UnicodeWord>>()
        && is_send_and_sync::<Dfa<'static, UnicodeWord>>()
        && is_send_and_sync::<Matches<'static, 'static, UnicodeWord>>()
}
