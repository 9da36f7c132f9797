//! Small automata over bytes: their states, their runs, and the classes of bytes that no run tells apart.
//!
//! An [`Nfa`] is a checked list of [`State`]s with a group info and a matcher: each state that a state names is there, and so is each slot and pattern.
//! An engine that is given an `&Nfa` need not test them again.
//!
//! Nothing is searched. A run is a list of states and positions, and [`Nfa::check_run`] tells whether each step is one of the automaton's on an
//! input. [`Nfa::classes`] returns the classes for the columns of a table: replacing bytes within their classes changes no run, and each boundary
//! between two classes is needed for some step; a Unicode assertion limits the first to ASCII, and needs word characters that below 128 are the word bytes.
//!
//! ```
//! // At the start of a line; then an accepting state.
//! let info = GroupInfo::new(rt.alloc(), &[&[None]])?;
//! let accept = StateID::must(1);
//! let states = [
//!     State::Assert {
//!         look: Look::StartLF,
//!         next: accept,
//!     },
//!     State::Accept {
//!         pattern: PatternID::ZERO,
//!     },
//! ];
//! let nfa = Nfa::new(rt.alloc(), info, LookMatcher::new(AsciiWord), &states)?;
//! assert!(rt; nfa.check_run(&Input::new(b"\na"), &[(StateID::ZERO, 1), (accept, 1)]));
//! assert!(rt; !nfa.check_run(&Input::new(b"\na"), &[(StateID::ZERO, 2), (accept, 2)]));
//! ```
#![tactic(auto)]

mod error;
/// Laws that a caller can cite.
pub mod laws;
mod nfa;
mod state;

pub use error::BuildError;
pub use nfa::Nfa;
pub use state::State;
