//! A tokenizer of five kinds of tokens, by a dense table: a row for each kind, a column for each class of bytes.
ghost use Rattle.std.specs.Prelude.{◌≡◌, ◌≢◌, ◌+◌, ◌*◌, ◌^◌, ◌<◌, ◌≤◌, ℕ, List, IfOk, IsTrue, length, slice_index};
ghost use Rattle.rsc_alphabet.specs.Iterators.{stride2_of};
ghost use Rattle.rsc_alphabet.specs.Partitions.{LastClassIsGreatest};
ghost use Rattle.rsc_alphabet.specs.Ranges.{are_alike, are_among};
ghost use Rattle.rsc_uses.specs.Leads.{HasRow};
ghost use Rattle.rsc_uses.specs.Tokens.{kind_begun, kind_row, continues, IsTable, IsToken, Tile};

use crate::alphabet::{entry_index, lead_in, transition};
use rsc_alphabet::{ByteClasses, classes_of_ranges, laws};
use rsc_search::Span;
use std::alloc::{AllocError, Global};

/// The bytes of names.
pub const NAMES: [(u8, u8); 4] = [(b'A', b'Z'), (b'_', b'_'), (b'a', b'z'), (b'0', b'9')];

/// The bytes of numbers.
pub const DIGITS: [(u8, u8); 1] = [(b'0', b'9')];

/// The bytes of operators.
pub const OPERATORS: [(u8, u8); 4] = [(b'!', b'/'), (b':', b'@'), (b'[', b'^'), (b'{', b'~')];

/// The bytes of white space.
pub const SPACES: [(u8, u8); 2] = [(b'\t', b'\r'), (b' ', b' ')];

/// All of these ranges: the table has a column for each class of bytes that they make.
pub const RANGES: [(u8, u8); 10] = [
    (b'A', b'Z'),
    (b'_', b'_'),
    (b'a', b'z'),
    (b'0', b'9'),
    (b'!', b'/'),
    (b':', b'@'),
    (b'[', b'^'),
    (b'{', b'~'),
    (b'\t', b'\r'),
    (b' ', b' '),
];

/// The kinds of tokens.
#[derive(Clone, Copy, PartialEq, Eq, Debug)]
pub enum Kind {
    /// Letters, digits and underscores, the first of which is no digit.
    Name,
    /// Digits.
    Number,
    /// Other visible ASCII characters except the backquote.
    Operator,
    /// Spaces, tabs and ends of lines.
    Space,
    /// One byte that no token of another kind has.
    Wrong,
}

/// A token: its kind, and where it is.
#[derive(Clone, Copy, PartialEq, Eq, Debug)]
pub struct Token {
    pub kind: Kind,
    pub span: Span,
}

/// A table of the bytes with which a token of each kind continues.
#[derive(Drop)]
pub struct Table {
    classes: ByteClasses,
    entries: Vec<u32>,
    ghost filled: { IsTable classes entries.items },
}

/// Writes a row of a table over the classes of `RANGES`: the entry of a byte's class is 1 if one of `ranges`, which are among these, holds
/// the byte, and else 0. The other rows stay.
pub fn write_row(classes: &ByteClasses, ranges: &[(u8, u8)], entries: &mut Vec<u32>, row: usize)
    requires rows { row < 2147483647 }
    requires bounded { LastClassIsGreatest classes.now }
    requires alike { (b c : ℕ) → b < 256 → c < 256 → slice_index classes.now b ≡ slice_index classes.now c → IsTrue (are_alike RANGES b c) }
    requires among { IsTrue (are_among ranges.now RANGES) }
    requires room { (row + 1) * 2 ^ stride2_of classes.now ≤ length entries.old.items }
    ensures len { length entries.new.items ≡ length entries.old.items }
    ensures row { HasRow classes.now entries.new.items row ranges.now }
    ensures others { (other : ℕ) (held : List (ℕ × ℕ)) → other ≢ row → HasRow classes.now entries.old.items other held →
        HasRow classes.now entries.new.items other held }
{
    laws::entries_of_a_table_are_apart();
    laws::alike_bytes_share_their_ranges();
    let _stride2 = classes.stride2();
    for byte in 0..256usize {
        let byte = byte as u8;
        let entry = entry_index(classes, row, byte);
        entries[entry] = lead_in(ranges, byte);
    }
}

fn kind_row(kind: Kind) -> usize
    ensures { result ≡ kind_row kind }
{
    kind as usize
}

impl Table {
    /// The table, with a row for each kind.
    pub fn new(alloc: Global) -> Result<Table, AllocError> {
        let classes = classes_of_ranges(&RANGES);
        let mut entries = vec![in alloc; 0u32; 5 << classes.stride2()]?;
        write_row(&classes, &NAMES, &mut entries, Kind::Name as usize);
        write_row(&classes, &DIGITS, &mut entries, Kind::Number as usize);
        write_row(&classes, &OPERATORS, &mut entries, Kind::Operator as usize);
        write_row(&classes, &SPACES, &mut entries, Kind::Space as usize);
        write_row(&classes, &[], &mut entries, Kind::Wrong as usize);
        Ok(Table { classes, entries })
    }

    // Whether a token of the kind continues with the byte.
    fn continues(&self, kind: Kind, byte: u8) -> bool
        ensures { result ≡ continues kind byte }
    {
        transition(&self.classes, &self.entries, kind_row(kind), byte) == 1
    }

    // The kind of a token that begins with the byte.
    fn kind_begun(&self, byte: u8) -> Kind
        ensures { result ≡ kind_begun byte }
    {
        if self.continues(Kind::Number, byte) {
            Kind::Number
        } else if self.continues(Kind::Name, byte) {
            Kind::Name
        } else if self.continues(Kind::Operator, byte) {
            Kind::Operator
        } else if self.continues(Kind::Space, byte) {
            Kind::Space
        } else {
            Kind::Wrong
        }
    }

    /// The token that begins at a position: the longest run of its kind.
    pub fn token_at(&self, text: &[u8], at: usize) -> Token
        requires { at < length text.now }
        ensures token { IsToken text.now result }
        ensures start { result.span.start ≡ at }
    {
        let kind = self.kind_begun(text[at]);
        let mut end = at + 1;
        while end < text.len() && self.continues(kind, text[end]) {
            end += 1;
        }
        let span = Span::from(at..end);
        Token { kind, span }
    }
}

/// The tokens of a text, side by side, from its start to its end.
#[tactic(auto, using(crate::proofs::TokensLemmas::tile_more))]
pub fn tokenize(alloc: Global, text: &[u8]) -> Result<Vec<Token>, AllocError>
    ensures { IfOk result (λ tokens. Tile text.now 0 (length text.now) tokens.items) }
{
    let table = Table::new(alloc)?;
    let mut tokens = Vec::new(alloc);
    let mut at = 0;
    while at < text.len() {
        let token = table.token_at(text, at);
        at = token.span.end;
        tokens.push(token)?;
    }
    Ok(tokens)
}
