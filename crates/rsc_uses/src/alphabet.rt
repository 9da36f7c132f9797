//! Tables whose columns are the classes of bytes.
ghost use Rattle.std.specs.Prelude.{◌≡◌, ◌↔◌, ◌+◌, ◌*◌, ◌^◌, ◌<◌, ◌≤◌, ℕ, All, IsTrue, IfSome, is_none, length, slice_get, slice_index, true, if◌then◌else◌};
ghost use Rattle.std.specs.FinSet as sets;
ghost use Rattle.rsc_alphabet.specs.ByteSets.{members, runs};
ghost use Rattle.rsc_alphabet.specs.Partitions.{LastClassIsGreatest, AreTogether, class_map, boundaries_of_ranges};
ghost use Rattle.std.specs.declared.ops.Bound.TheVariants.{Unbounded};
ghost use Rattle.rsc_alphabet.specs.Iterators.{stride2_of, symbol_count, symbols, elements_of, representatives_of};
ghost use Rattle.std.specs.List.{Contains};
ghost use Rattle.rsc_alphabet.specs.Ranges.{has_boundary};
ghost use Rattle.rsc_uses.specs.Leads.{lead_of, in_ranges, lead_in};

use rsc_alphabet::{ByteClassSet, ByteClasses, ByteSet, Unit, classes_of_ranges, laws};
use std::ops::Bound;

/// Where the entry of a row and a byte is, in a table whose rows have `1 << stride2` entries.
pub fn entry_index(map: &ByteClasses, row: usize, byte: u8) -> usize
    requires rows { row < 2147483647 }
    requires bounded { LastClassIsGreatest map.now }
    ensures { result ≡ row * 2 ^ stride2_of map.now + slice_index map.now byte }
{
    (row << map.stride2()) + usize::from(map.get(byte))
}

/// A table's entry of a row and a byte.
pub fn transition(map: &ByteClasses, table: &[u32], row: usize, byte: u8) -> u32
    requires rows { row < 2147483647 }
    requires table { (row + 1) * 2 ^ stride2_of map.now ≤ length table.now }
    requires bounded { LastClassIsGreatest map.now }
    ensures { result ≡ slice_index table.now (row * 2 ^ stride2_of map.now + slice_index map.now byte) }
{
    table[(row << map.stride2()) + usize::from(map.get(byte))]
}

/// A table's entry of a row and the end of the input, whose class is the one after all bytes'.
pub fn transition_at_end(map: &ByteClasses, table: &[u32], row: usize) -> u32
    requires rows { row < 2147483647 }
    requires table { (row + 1) * 2 ^ stride2_of map.now ≤ length table.now }
    ensures { result ≡ slice_index table.now (row * 2 ^ stride2_of map.now + (slice_index map.now 255 + 1)) }
{
    table[(row << map.stride2()) + map.get_by_unit(map.eoi())]
}

/// An entry of a table over the classes of a partition: `None` where the table has no such row, and never out of bounds, since the
/// classes of a partition rise.
pub fn transition_of_partition(
    partition: &ByteClassSet,
    table: &[u32],
    row: usize,
    byte: u8,
) -> Option<u32>
    requires { length table.now < 2147483647 }
    ensures entry { IfSome result (λ entry. entry ≡ slice_index table.now
        (row * 2 ^ stride2_of (class_map (sets.contains partition.now)) + slice_index (class_map (sets.contains partition.now)) byte)) }
    ensures none { IsTrue (is_none result) ↔ (length table.now < (row + 1) * 2 ^ stride2_of (class_map (sets.contains partition.now))) }
{
    let map = partition.byte_classes();
    if row < table.len() >> map.stride2() {
        Some(transition(&map, table, row, byte))
    } else {
        None
    }
}

/// Whether two bytes share a column of every table over the classes of the partition: exactly if no boundary lies between them.
pub fn share_a_column(partition: &ByteClassSet, b: u8, c: u8) -> bool
    ensures { IsTrue result ↔ AreTogether (sets.contains partition.now) b c }
{
    laws::one_class_is_together();
    let map = partition.byte_classes();
    map.get(b) == map.get(c)
}

/// Whether the end of the input has a column that no byte has: it always has.
pub fn end_is_apart(partition: &ByteClassSet, byte: u8) -> bool
    ensures { IsTrue result }
{
    let map = partition.byte_classes();
    map.get_by_unit(map.eoi()) != usize::from(map.get(byte))
}

/// Marks the entry of each class and of the end of the input, and no other.
pub fn fill_row(map: &ByteClasses, row: &mut [u32])
    requires { symbol_count map.now ≤ length row.old }
    ensures len { length row.new ≡ length row.old }
    ensures marked { (k : ℕ) → k < symbol_count map.now → slice_index row.new k ≡ 1 }
    ensures kept { (k : ℕ) → symbol_count map.now ≤ k → slice_index row.new k ≡ slice_index row.old k }
{
    laws::each_class_comes_once();
    for unit in map.iter() {
        row[unit.as_usize()] = 1;
    }
}

/// Where a unit leads from a state: a byte where its entry says, and an end of the input to `end`.
pub fn lead_of(leads: &[u32; 256], end: u32, unit: Unit) -> u32
    ensures { result ≡ lead_of leads.now end unit }
{
    match unit.as_u8() {
        Some(byte) => leads[usize::from(byte)],
        None => end,
    }
}

/// Fills a state's row by one byte of each class alone, given where each byte leads. Where bytes of one class lead to one state, the
/// row then answers for every byte: each byte's column is its class's. And it answers for the end of the input.
pub fn fill_by_representatives(map: &ByteClasses, leads: &[u32; 256], end: u32, row: &mut [u32])
    requires bounded { LastClassIsGreatest map.now }
    requires alike { (b c : ℕ) → b < 256 → c < 256 → slice_index map.now b ≡ slice_index map.now c →
        slice_index leads.now b ≡ slice_index leads.now c }
    requires room { symbol_count map.now ≤ length row.old }
    ensures len { length row.new ≡ length row.old }
    ensures bytes { (b : ℕ) → b < 256 → slice_index row.new (slice_index map.now b) ≡ slice_index leads.now b }
    ensures end { slice_index row.new (slice_index map.now 255 + 1) ≡ end }
{
    laws::each_class_is_represented();
    for unit in map.representatives(Bound::Unbounded, Bound::Unbounded) {
        row[map.get_by_unit(unit)] = lead_of(leads, end, unit);
    }
}

/// Adds the maximal runs of a set, one by one: what [`ByteClassSet::add_set`] does at once.
pub fn add_runs(partition: &mut ByteClassSet, set: &ByteSet)
    ensures { partition.new ≡ sets.union partition.old (boundaries_of_ranges (runs set.now)) }
{
    for (start, end) in set.iter_ranges() {
        partition.set_range(start, end);
    }
}

/// Whether a range ends where its last byte is told apart from the next: it always does.
pub fn range_separates(byte: u8) -> bool
    requires { byte < 255 }
    ensures { IsTrue result }
{
    laws::one_class_is_together();
    laws::boundaries_part_a_range();
    let mut partition = ByteClassSet::empty();
    partition.set_range(0, byte);
    let map = partition.byte_classes();
    map.get(byte) != map.get(byte + 1)
}

/// The least member of a set.
pub fn first_byte(set: &ByteSet) -> Option<u8>
    ensures first { result ≡ slice_get (members set.now) 0 }
    ensures member { IfSome result (λ byte. sets.contains set.now byte ≡ true) }
{
    set.iter().next()
}

/// Whether each byte that the iterator gives is a member: each is.
pub fn each_is_member(set: &ByteSet) -> bool
    ensures { IsTrue result }
{
    for byte in set.iter() {
        if !set.contains(byte) {
            return false;
        }
    }
    true
}

/// How many units the iterators of a map give: all symbols, the elements of one, and the representatives of all bytes. Their counts fit.
pub fn counts(map: &ByteClasses, class: Unit) -> (usize, usize, usize)
    ensures symbols { result.0 ≡ length (symbols map.now) }
    ensures elements { result.1 ≡ length (elements_of map.now class) }
    ensures representatives { result.2 ≡ length (representatives_of map.now Unbounded Unbounded) }
{
    let representatives = map.representatives(Bound::Unbounded, Bound::Unbounded);
    (
        map.iter().count(),
        map.elements(class).count(),
        representatives.count(),
    )
}

/// Whether each element of a byte's class has that class: each has.
pub fn elements_have_the_class(map: &ByteClasses, class: u8) -> bool
    ensures { IsTrue result }
{
    for unit in map.elements(Unit::u8(class)) {
        if map.get_by_unit(unit) != usize::from(class) {
            return false;
        }
    }
    true
}

/// The classes of two partitions together: two bytes have one class exactly if neither partition parts them.
pub fn joined_classes(some: &mut ByteClassSet, others: &ByteClassSet) -> ByteClasses
    ensures classes { result ≡ class_map (sets.contains (sets.union some.old others.now)) }
    ensures bounded { LastClassIsGreatest result }
{
    some.union(others);
    some.byte_classes()
}

/// Whether one of the ranges holds a byte.
pub fn in_ranges(ranges: &[(u8, u8)], byte: u8) -> bool
    ensures { result ≡ in_ranges ranges.now byte }
{
    ranges.iter().any(|r| r.0 <= byte && byte <= r.1)
}

// A row of 256 entries.
fn no_leads() -> [u32; 256]
    ensures { length result ≡ 256 }
{
    [0; 256]
}

/// 1 if one of the ranges holds the byte, and else 0.
pub fn lead_in(ranges: &[(u8, u8)], byte: u8) -> u32
    ensures { result ≡ lead_in ranges.now byte }
{
    if in_ranges(ranges, byte) { 1 } else { 0 }
}

/// Where each byte leads: to 1 if one of the ranges holds it, and else to 0.
pub fn leads_of(ranges: &[(u8, u8)]) -> [u32; 256]
    ensures { (b : ℕ) → b < 256 → slice_index result b ≡ lead_in ranges.now b }
{
    let mut leads = no_leads();
    for number in 0..256u16 {
        leads[number as usize] = lead_in(ranges, number as u8);
    }
    leads
}

/// Classes for a list of ranges, and a row for some of the ranges, filled by one byte of each class alone: the entry of a byte's class is 1
/// exactly if one of these ranges holds the byte.
pub fn fill_from_ranges(all: &[(u8, u8)], part: &[(u8, u8)], row: &mut [u32]) -> ByteClasses
    requires order { All (λ r. r.0 ≤ r.1) all.now }
    requires among { (r : ℕ × ℕ) → Contains part.now r → Contains all.now r }
    requires room { 257 ≤ length row.old }
    ensures classes { result ≡ class_map (has_boundary all.now) }
    ensures entries { (b : ℕ) → b < 256 → slice_index row.new (slice_index result b) ≡ lead_in part.now b }
{
    laws::alike_bytes_share_their_ranges();
    let map = classes_of_ranges(all);
    let _count = map.alphabet_len();
    let leads = leads_of(part);
    fill_by_representatives(&map, &leads, 0, row);
    map
}
