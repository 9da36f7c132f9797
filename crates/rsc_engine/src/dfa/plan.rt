//! What a DFA is made from: a program, and the classes of bytes that its steps tell apart.
ghost use Rattle.std.specs.Prelude.{◌≡◌, ℕ, ◌<◌, ◌≤◌, IfSome, Some, true, false, length};
ghost use Rattle.std.specs.FinSet as sets;
ghost use Rattle.rsc_look.specs.Holds.{byte_before, byte_after};
ghost use Rattle.rsc_engine.specs.RowsLayout.{IsPlan, IsPlainUnit, machine};
ghost use Rattle.rsc_engine.specs.PassTableLayout.{column};

use crate::{AsciiCompatible, Program};
use rsc_alphabet::{ByteClassSet, ByteClasses};
use rsc_look::WordClass;

/// The first byte that is not ASCII.
const PAST_ASCII: u8 = 0x80;

/// What a DFA is made from.
#[derive(Drop)]
pub(crate) struct Plan<'p, W: WordClass> {
    /// The program.
    pub(crate) program: &'p Program<W>,
    /// Bytes of one class lead to the same rows.
    pub(crate) classes: ByteClasses,
    /// How many classes there are, with one for the end of the input.
    pub(crate) width: usize,
    /// Whether an assertion looks at characters.
    pub(crate) unicode: bool,
    /// How many rows are kept at most.
    pub(crate) most_rows: usize,
}

impl<'p, W: WordClass + AsciiCompatible> Plan<'p, W> {
    /// The plan of a program.
    pub(crate) fn new(program: &'p Program<W>, most_rows: usize) -> Plan<'p, W>
        ensures program { result.program.now ≡ program.now }
        ensures plan { IsPlan (machine W.word_chars program.now) result.classes result.width result.unicode }
        ensures most { result.most_rows ≡ most_rows }
    {
        W::agrees_with_ascii();
        // For the prover: what these calls promise of the program.
        let _start = program.start();
        let nfa = program.nfa();
        let _states = nfa.states();
        let unicode = nfa.looks().contains_word_unicode();
        let classes = nfa.classes_with(&past_ascii(unicode));
        let width = classes.alphabet_len();
        Plan {
            program,
            classes,
            width,
            unicode,
            most_rows,
        }
    }
}

impl<'p, W: WordClass> Plan<'p, W> {
    /// The column of a byte, or of the end of the input.
    #[inline(always)]
    pub(crate) fn column(&self, unit: Option<u8>) -> usize
        requires { IsPlan (machine W.word_chars self.now.program.now) self.now.classes self.now.width self.now.unicode }
        ensures value { result ≡ column self.now.classes unit }
        ensures within { result < self.now.width }
    {
        match unit {
            Some(byte) => usize::from(self.classes.get(byte)),
            None => self.width - 1,
        }
    }

    /// Whether an assertion looks at characters and the unit is a byte above 7F, so that a step beside it goes by the assertions that hold there too.
    pub(crate) fn is_beyond(&self, unit: Option<u8>) -> bool
        requires { IsPlan (machine W.word_chars self.now.program.now) self.now.classes self.now.width self.now.unicode }
        ensures plain { result ≡ false → IsPlainUnit (machine W.word_chars self.now.program.now) unit }
        ensures unicode { result ≡ true → self.now.unicode ≡ true }
    {
        match unit {
            Some(byte) => self.unicode && byte >= PAST_ASCII,
            None => false,
        }
    }
}

// The boundary between ASCII and other bytes, if there is to be one.
fn past_ascii(wanted: bool) -> ByteClassSet
    ensures { wanted ≡ true → sets.contains result 127 ≡ true }
{
    let mut boundaries = ByteClassSet::empty();
    if wanted {
        boundaries.set_range(PAST_ASCII, 0xFF);
    }
    boundaries
}

/// The byte before a position.
pub(crate) fn before_of(haystack: &[u8], at: usize) -> Option<u8>
    requires { at ≤ length haystack.now }
    ensures value { result ≡ byte_before haystack.now at }
    ensures byte { IfSome result (λ b. b < 256) }
{
    if at == 0 {
        None
    } else {
        Some(haystack[at - 1])
    }
}

/// The byte after a position.
pub(crate) fn after_of(haystack: &[u8], at: usize) -> Option<u8>
    ensures value { result ≡ byte_after haystack.now at }
    ensures byte { IfSome result (λ b. b < 256) }
{
    if at < haystack.len() {
        Some(haystack[at])
    } else {
        None
    }
}

/// The byte at a position.
#[inline(always)]
pub(crate) fn byte_at(haystack: &[u8], at: usize) -> u8
    requires { at < length haystack.now }
    ensures after { byte_after haystack.now at ≡ Some result }
{
    haystack[at]
}
