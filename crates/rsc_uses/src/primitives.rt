//! Characters counted in bytes, and tables that are indexed by numbers of patterns and states.
ghost use Rattle.std.specs.Prelude.{◌≡◌, ◌*◌, ◌^◌, ◌%◌, ◌<◌, ◌≤◌, ◌+◌, ◌↔◌, ℕ, List, IfSome, IsTrue, is_none, length, slice_get, sum};
ghost use Rattle.std.specs.Char.{len_utf8};
ghost use Rattle.rsc_primitives.specs.Utf8.{BeginsAt, EndsAt, EncodesAll};

use rsc_primitives::{PatternID, StateID, laws, utf8};

/// How many bytes the first character takes, or 1 where the bytes begin with none: how far a scan of any bytes moves on.
#[tactic(auto, using(crate::proofs::PrimitivesLemmas::fits, crate::proofs::PrimitivesLemmas::least_width))]
pub fn first_width(bytes: &[u8]) -> usize
    requires { 0 < length bytes.now }
    ensures some { 1 ≤ result }
    ensures within { result ≤ length bytes.now }
    ensures width { (c : ℕ) → BeginsAt bytes.now 0 c → result ≡ len_utf8 c }
{
    laws::encoding_is_that_of_std();
    laws::at_most_one_begins();
    match utf8::decode(bytes) {
        Some(Ok(c)) => c.len_utf8(),
        Some(Err(_)) => 1,
        None => 1,
    }
}

/// How many characters the bytes hold, if they are valid UTF-8; otherwise each byte that begins no character counts as one.
pub fn count_characters(bytes: &[u8]) -> usize
    ensures { (characters : List ℕ) → EncodesAll bytes.now characters → result ≡ length characters }
{
    laws::encoding_is_that_of_std();
    let mut at = 0;
    let mut count = 0;
    while at < bytes.len() {
        at += first_width(&bytes[at..]);
        count += 1;
    }
    count
}

/// How many bytes the last character takes, or 1 where the bytes end with none: how far a scan from the back moves on.
#[tactic(auto, using(crate::proofs::PrimitivesLemmas::fits_before, crate::proofs::PrimitivesLemmas::least_width))]
pub fn last_width(bytes: &[u8]) -> usize
    requires { 0 < length bytes.now }
    ensures some { 1 ≤ result }
    ensures within { result ≤ length bytes.now }
    ensures width { (c : ℕ) → EndsAt bytes.now (length bytes.now) c → result ≡ len_utf8 c }
{
    laws::encoding_is_that_of_std();
    laws::at_most_one_ends();
    match utf8::decode_last(bytes) {
        Some(Ok(c)) => c.len_utf8(),
        Some(Err(_)) => 1,
        None => 1,
    }
}

/// How many characters the bytes hold, counted from the back, if they are valid UTF-8: as many as from the front.
pub fn count_characters_from_back(bytes: &[u8]) -> usize
    ensures { (characters : List ℕ) → EncodesAll bytes.now characters → result ≡ length characters }
{
    laws::encoding_is_that_of_std();
    let mut end = bytes.len();
    let mut count = 0;
    while end > 0 {
        end -= last_width(&bytes[..end]);
        count += 1;
    }
    count
}

/// The sum of a table's entries, each looked up by its pattern's number, modulo 2^64: no index is out of bounds.
pub fn sum_by_pattern(table: &[u64]) -> u64
    requires { length table.now ≤ 2147483647 }
    ensures { result ≡ sum table.now % 2 ^ 64 }
{
    let mut sum = 0u64;
    for pid in PatternID::iter(table.len()) {
        sum = sum.wrapping_add(table[pid.as_usize()]);
    }
    sum
}

/// The pattern that a state stands for; `None` for a state that the table has no entry for.
pub fn pattern_of_state(table: &[PatternID], state: StateID) -> Option<PatternID>
    ensures entry { result ≡ slice_get table.now state }
    ensures none { IsTrue (is_none result) ↔ (length table.now ≤ state) }
{
    table.get(state.as_usize()).copied()
}

/// Where a state's row begins in a table of rows of `1 << stride2` entries.
pub fn row_of(state: StateID, stride2: usize) -> usize
    requires { stride2 ≤ 9 }
    ensures { result ≡ state * 2 ^ stride2 }
{
    state.as_usize() << stride2
}

/// The number of the state after this one; `None` after the last that there can be.
pub fn next_state(state: StateID) -> Option<StateID>
    ensures next { IfSome result (λ next. next ≡ state + 1) }
    ensures none { IsTrue (is_none result) ↔ (2147483646 ≤ state) }
{
    StateID::new(state.one_more()).ok()
}
