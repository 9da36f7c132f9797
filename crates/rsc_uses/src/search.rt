//! Inputs that move on, and sets of patterns.
ghost use Rattle.std.specs.Prelude.{◌≡◌, ◌↔◌, ◌+◌, ◌<◌, ◌≤◌, ◌++◌, ℕ, All, IsTrue, IfOk, IfSome, IfNone, Option, is_none, [], slice_index, slice_range, length, map, reverse, sum_by, true, ◌%◌, ◌^◌, ◌-◌, ◌⊎◌};
ghost use Rattle.std.specs.Option.{option_copied};
ghost use Rattle.std.specs.List.{range_with_len};
ghost use Rattle.rsc_look.specs.Holds.{Holds};
ghost use Rattle.rsc_look.specs.Words.{is_unicode_word};
ghost use Rattle.rsc_search.specs.Inputs.{InputParts, whole};
ghost use Rattle.rsc_search.specs.declared.span.Span as spans;
ghost use Rattle.rsc_search.specs.PatternSets.{has_member};
ghost use Rattle.rsc_search.specs.Spans.{cut};
ghost use Rattle.rsc_uses.specs.Found.{AreFound};

use rsc_look::{Look, LookMatcher, UnicodeWord};
use rsc_primitives::PatternID;
use rsc_search::{Input, Match, PatternSet, Span, laws};
use std::alloc::{AllocError, Global};

/// What a search is: it answers a span within the input's own, in order.
pub trait Search {
    /// What else the search's answer says of an input.
    ghost Finds: { Self → InputParts → Option spans.Span → Type 0 };

    /// The span that the search finds in an input, if it finds one.
    fn find(&self, input: &Input<'_>) -> Option<Span>
        ensures found { Finds self.now input.now result }
        ensures within { IfSome result (λ s. (input.now.span.start ≤ s.start) × (s.start ≤ s.end) × (s.end ≤ input.now.span.end)) };
}

/// All matches that don't overlap, by any search: each is what it finds from the end of the one before it on. After an empty one the search goes on one byte
/// later, so it always ends.
pub fn all_matches<S: Search>(
    alloc: Global,
    search: &S,
    haystack: &[u8],
) -> Result<Vec<Span>, AllocError>
    ensures within { IfOk result (λ found. All (λ s. (s.start ≤ s.end) × (s.end ≤ length haystack.now)) found.items) }
    ensures found { IfOk result (λ found. AreFound (S.Finds search.now) (whole haystack.now) found.items) }
{
    let mut found = Vec::new(alloc);
    let mut input = Input::new(haystack);
    while !input.is_done() {
        let Some(span) = search.find(&input) else {
            break;
        };
        found.push(span)?;
        if span.is_empty() {
            input.set_start(span.end + 1);
        } else {
            input.set_start(span.end);
        }
    }
    Ok(found)
}

/// The input that searches all of a text, by the conversion of its bytes.
pub fn input_of(text: &str) -> Input<'_>
    ensures { result ≡ whole text.now }
{
    Input::from(text.as_bytes())
}

/// The bytes that are left to search, cut by the input's range.
pub fn left<'h>(input: &Input<'h>) -> &'h [u8]
    requires { input.now.span.start ≤ input.now.span.end }
    ensures { result.now ≡ slice_range input.now.haystack input.now.span.start input.now.span.end }
{
    &input.haystack()[input.get_range()]
}

/// The bytes that are left to search, cut by the input's span; `None` once the search is done, when the span is out of order.
pub fn left_by_span<'h>(input: &Input<'h>) -> Option<&'h [u8]>
    ensures bytes { option_copied result ≡ cut input.now.haystack input.now.span }
    ensures none { IsTrue (is_none result) ↔ (input.now.span.end < input.now.span.start) }
{
    input.get_span().get(input.haystack())
}

/// The bytes of a match.
pub fn matched<'h>(haystack: &'h [u8], found: &Match) -> &'h [u8]
    requires { found.now.span.end ≤ length haystack.now }
    ensures { result.now ≡ slice_range haystack.now found.now.span.start found.now.span.end }
{
    &haystack[found.range()]
}

/// The bytes of a match, cut by its two ends.
pub fn matched_by_ends<'h>(haystack: &'h [u8], found: &Match) -> &'h [u8]
    requires { found.now.span.end ≤ length haystack.now }
    ensures { result.now ≡ slice_range haystack.now found.now.span.start found.now.span.end }
{
    &haystack[found.start()..found.end()]
}

/// How many bytes a match has.
pub fn width(found: &Match) -> usize
    ensures { result + found.now.span.start ≡ found.now.span.end }
{
    found.len()
}

/// The sum of the bytes that are searched, modulo 2^64, by a loop over the input's range.
pub fn sum_of_bytes(input: &Input<'_>) -> u64
    ensures { result ≡ sum_by (slice_index input.now.haystack)
        (range_with_len input.now.span.start (input.now.span.end - input.now.span.start)) % 2 ^ 64 }
{
    let haystack = input.haystack();
    let mut sum = 0u64;
    for at in input.get_range() {
        sum = sum.wrapping_add(u64::from(haystack[at]));
    }
    sum
}

/// Whether a byte is at a position that is searched.
pub fn has_byte(input: &Input<'_>, at: usize, byte: u8) -> bool
    requires start { input.now.span.start ≤ at }
    requires end { at < input.now.span.end }
    ensures { IsTrue result ↔ (slice_index input.now.haystack at ≡ byte) }
{
    input.haystack()[at] == byte
}

/// Whether the search is done, or an assertion holds where it begins.
pub fn is_done_or_holds(input: &Input<'_>, look: Look) -> bool
    ensures { IsTrue result ↔ ((input.now.span.end < input.now.span.start)
        ⊎ Holds look 10 is_unicode_word input.now.haystack input.now.span.start) }
{
    input.is_done() || LookMatcher::new(UnicodeWord).matches(look, input.haystack(), input.start())
}

/// Follows `leads` from `first` on, to the first number that was met before or that leads nowhere, and gathers what it meets. The set
/// is the measure of the loop: each turn adds a member.
pub fn follow(met: &mut PatternSet, leads: &[PatternID], first: PatternID) -> usize
    ensures { result ≡ length met.new.members }
{
    let mut at = first;
    while at.as_usize() < leads.len() && at.as_usize() < met.capacity() && met.insert(at) {
        at = leads[at.as_usize()];
    }
    met.len()
}

/// The set of a list's patterns.
pub fn set_of(alloc: Global, capacity: usize, ids: &[PatternID]) -> Result<PatternSet, AllocError>
    requires most { capacity ≤ 2147483647 }
    requires below { All (λ p. p < capacity) ids.now }
    ensures members { IfOk result (λ set. (q : ℕ) → q < capacity → has_member set.members q ≡ has_member ids.now q) }
    ensures capacity { IfOk result (λ set. set.capacity ≡ capacity) }
{
    laws::insertion_adds_one_member();
    let mut set = PatternSet::new(alloc, capacity)?;
    for pid in ids {
        set.insert(*pid);
    }
    Ok(set)
}

/// The kinds that occur among tokens, of which there are three.
pub fn kinds_of(alloc: Global, tokens: &[Match]) -> Result<PatternSet, AllocError>
    requires { All (λ m. m.pattern < 3) tokens.now }
    ensures capacity { IfOk result (λ set. set.capacity ≡ 3) }
    ensures exactly { IfOk result (λ set. (q : ℕ) → q < 3 → has_member set.members q ≡ has_member (map (λ m. m.pattern) tokens.now) q) }
{
    laws::insertion_adds_one_member();
    let mut set = PatternSet::new(alloc, 3)?;
    for token in tokens {
        set.insert(token.pattern());
    }
    Ok(set)
}

/// The members, ascending.
pub fn members(alloc: Global, set: &PatternSet) -> Result<Vec<PatternID>, AllocError>
    ensures { IfOk result (λ ids. ids.items ≡ set.now.members) }
{
    set.iter().collect(alloc)
}

/// The members taken from both ends in turn: those from the front, and those from the back, from the last on. Together they are
/// all members, each once.
pub fn from_both_ends(
    alloc: Global,
    set: &PatternSet,
) -> Result<(Vec<PatternID>, Vec<PatternID>), AllocError>
    ensures { IfOk result (λ both. both.0.items ++ reverse both.1.items ≡ set.now.members) }
{
    let mut front = Vec::new(alloc);
    let mut back = Vec::new(alloc);
    let mut left = set.iter();
    while let Some(first) = left.next() {
        front.push(first)?;
        if let Some(last) = left.next_back() {
            back.push(last)?;
        }
    }
    Ok((front, back))
}

/// The least member, or `None` if there is none.
pub fn least(set: &PatternSet) -> Option<PatternID>
    ensures some { IfSome result (λ p. (has_member set.now.members p ≡ true)
        × ((q : ℕ) → has_member set.now.members q ≡ true → p ≤ q)) }
    ensures none { IfNone result (set.now.members ≡ []) }
{
    laws::members_are_contained();
    let mut left = set.iter();
    let first = left.next()?;
    Some(first)
}

/// Whether each member that the iterator gives is contained: each is.
pub fn each_is_contained(set: &PatternSet) -> bool
    ensures { IsTrue result }
{
    for pid in set.iter() {
        if !set.contains(pid) {
            return false;
        }
    }
    true
}

/// The sum of the members' entries, modulo 2^64, in a table of as many entries as the set has room for.
pub fn sum_of_members(set: &PatternSet, table: &[u64]) -> u64
    requires { set.now.capacity ≤ length table.now }
    ensures { result ≡ sum_by (slice_index table.now) set.now.members % 2 ^ 64 }
{
    let mut sum = 0u64;
    for pid in set.iter() {
        sum = sum.wrapping_add(table[pid.as_usize()]);
    }
    sum
}

/// How many more patterns the set has room for.
pub fn room(set: &PatternSet) -> usize
    ensures { result + length set.now.members ≡ set.now.capacity }
{
    set.capacity() - set.len()
}
