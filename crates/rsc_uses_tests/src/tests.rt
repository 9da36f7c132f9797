//! Each caller, run on values.
ghost use Rattle.std.specs.Prelude.{◌≡◌, ◌<◌, ℕ, Some, IfSome, slice_get, slice_index};

mod engine;
mod indices;
mod tokenizer;

use rsc_alphabet::{ByteClassSet, ByteSet, Unit, laws};
use rsc_captures::{Captures, GroupInfo};
use rsc_look::{AsciiWord, Look, LookMatcher, LookSet, UnicodeWord};
use rsc_nfa::{Nfa, State};
use rsc_primitives::{NonMaxUsize, PatternID, StateID};
use rsc_search::{Input, Match, MatchError, MatchKind, PatternSet, Span};
use rsc_uses::{alphabet, captures, look, nfa, primitives, search, threads};
use std::test::Fail;

fn are_positions(found: &[usize], want: &[usize]) -> bool {
    found == want
}

fn are_spans(found: &[Span], want: &[Span]) -> bool {
    found == want
}

fn are_patterns(found: &[PatternID], want: &[PatternID]) -> bool {
    found == want
}

fn are_bytes(found: &[u8], want: &[u8]) -> bool {
    found == want
}

// A row whose entries are all the same state.
fn all_lead_to(state: u32) -> [u32; 256]
    ensures { (b : ℕ) → b < 256 → slice_index result b ≡ state }
{
    [state; 256]
}

#[test]
fn characters_and_tables(rt: HostRuntime) -> Result<(), Fail> {
    assert_eq!(rt; primitives::count_characters("größe 日本".as_bytes()), 8);
    assert_eq!(rt; primitives::count_characters(b"\xFFa\xC3"), 3);
    assert_eq!(rt; primitives::first_width("日a".as_bytes()), 3);
    assert_eq!(rt; primitives::last_width("aß".as_bytes()), 2);
    assert_eq!(rt;
        primitives::count_characters_from_back("größe 日本".as_bytes()),
        8
    );
    assert_eq!(rt; primitives::count_characters_from_back(b"\xFFa\xC3"), 3);
    assert_eq!(rt; primitives::sum_by_pattern(&[1, 2, 3]), 6);
    assert_eq!(rt; primitives::sum_by_pattern(&[u64::MAX, 3]), 2);
    assert!(rt;
        primitives::pattern_of_state(&[PatternID::ZERO], StateID::ZERO) == Some(PatternID::ZERO)
    );
    assert!(rt; primitives::pattern_of_state(&[], StateID::ZERO) == None);
    assert_eq!(rt; primitives::row_of(StateID::must(3), 2), 12);
    assert!(rt; primitives::next_state(StateID::must(2147483646)) == None);
    Ok(())
}

#[test]
fn rows_of_classes(rt: HostRuntime) -> Result<(), Fail> {
    let mut partition = ByteClassSet::empty();
    let mut letters = ByteSet::empty();
    for byte in b'a'..b'{' {
        letters.add(byte);
    }
    alphabet::add_runs(&mut partition, &letters);
    assert!(rt; alphabet::share_a_column(&partition, b'a', b'z'));
    assert!(rt; !alphabet::share_a_column(&partition, b'a', b'A'));
    assert!(rt; alphabet::end_is_apart(&partition, 255));
    let table = [0, 1, 2, 3, 4, 5, 6, 7];
    assert!(rt; alphabet::transition_of_partition(&partition, &table, 1, b'q') == Some(5));
    assert!(rt; alphabet::transition_of_partition(&partition, &table, 2, b'q') == None);
    assert!(rt; alphabet::range_separates(b'z'));
    assert!(rt; alphabet::first_byte(&letters) == Some(b'a'));
    assert!(rt; alphabet::each_is_member(&letters));
    assert!(rt; alphabet::elements_have_the_class(&partition.byte_classes(), 1));
    assert_eq!(rt;
        alphabet::counts(&partition.byte_classes(), Unit::u8(1)),
        (4, 26, 4)
    );
    Ok(())
}

#[test]
fn entries_of_rows(rt: HostRuntime) -> Result<(), Fail> {
    laws::each_class_comes_once();
    let mut partition = ByteClassSet::empty();
    partition.set_range(b'a', b'z');
    let map = partition.byte_classes();
    assert_eq!(rt; alphabet::entry_index(&map, 1, b'q'), 5);
    let table = [0, 1, 2, 3, 4, 5, 6, 7];
    if map.stride2() == 2 {
        assert_eq!(rt; alphabet::transition(&map, &table, 1, b'{'), 6);
        assert_eq!(rt; alphabet::transition_at_end(&map, &table, 1), 7);
    }
    let mut row = [0; 8];
    if map.alphabet_len() <= 8 {
        alphabet::fill_row(&map, &mut row);
    }
    assert!(rt; row == [1, 1, 1, 1, 0, 0, 0, 0]);
    if map.alphabet_len() <= 8 {
        alphabet::fill_by_representatives(&map, &all_lead_to(7), 9, &mut row);
    }
    assert!(rt; row == [7, 7, 7, 9, 0, 0, 0, 0]);
    assert_eq!(rt; alphabet::lead_of(&all_lead_to(7), 9, map.eoi()), 9);
    let mut row = [9; 257];
    let ranges = [(b'a', b'z'), (b'0', b'9')];
    let map = alphabet::fill_from_ranges(&ranges, &ranges, &mut row);
    assert!(rt; row[usize::from(map.get(b'q'))] == 1 && row[usize::from(map.get(b'-'))] == 0);
    let leads = alphabet::leads_of(&ranges);
    assert!(rt; leads[usize::from(b'5')] == 1 && !alphabet::in_ranges(&ranges, b'A'));
    Ok(())
}

#[test]
fn words_and_lines(rt: HostRuntime) -> Result<(), Fail> {
    let mut matcher = LookMatcher::new(UnicodeWord);
    let text = "größe: 日本".as_bytes();
    assert!(rt; look::is_whole_word(&matcher, text, Span { start: 0, end: 7 }));
    assert!(rt; !look::is_whole_word(&matcher, text, Span { start: 0, end: 2 }));
    let ends = look::line_ends(rt.alloc(), &matcher, b"a\nb\n")?;
    assert!(rt; are_positions(ends.as_slice(), &[1, 3, 4]));
    matcher.set_line_terminator(b'b');
    let ends = look::line_ends(rt.alloc(), &matcher, b"a\nb\n")?;
    assert!(rt; are_positions(ends.as_slice(), &[2, 4]));
    assert!(rt; look::holds_as_a_set(&matcher, Look::End, b"ab", 2));
    assert!(rt; look::each_is_member(LookSet::full()));
    assert_eq!(rt; look::count_members(LookSet::full()), 18);
    let own = LookMatcher::new(look::Letters);
    assert!(rt; look::is_whole_word(&own, b"I don't", Span { start: 2, end: 7 }));
    assert!(rt; look::is_whole_word(&own, b"a1", Span { start: 0, end: 1 }));
    let classes = look::unicode_classes(&matcher, &[Look::WordUnicode]);
    assert!(rt; classes.get(b'a') != classes.get(b' '));
    assert!(rt; look::insert_and_remove(Look::Start, Look::End));
    let own = LookMatcher::new(UnicodeWord);
    assert!(rt; look::starts(&own, b"a\nb", 2) == (true, true));
    assert!(rt; look::starts(&own, b"a b", 2) == (true, false));
    assert!(rt; look::holds_in_entry(&own, Look::End, Some(b'a'), Unit::eoi(2)));
    assert!(rt; !look::holds_in_entry(&own, Look::End, Some(b'a'), Unit::u8(b'a')));
    assert!(rt; look::holds_beside_ascii(&own, Look::WordEndUnicode, b"a b", 1));
    assert!(rt; look::must_stop(&own, &[Look::WordUnicode], 128));
    for look in LookSet::full().iter() {
        assert!(rt; look::number_by_cast(look) == look.as_repr());
    }
    assert_eq!(rt; Look::EndLF as u32, 8);
    assert!(rt; !look::must_stop(&own, &[Look::WordAscii], 128));
    Ok(())
}

#[test]
fn classes_of_assertions(rt: HostRuntime) -> Result<(), Fail> {
    rsc_look::laws::words_agree_with_ascii();
    look::letters_do_not_agree();
    let matcher = LookMatcher::new(UnicodeWord);
    let found = look::positions(rt.alloc(), &matcher, Look::StartLF, b"a\nb")?;
    assert!(rt; are_positions(found.as_slice(), &[0, 2]));
    let classes = look::line_classes(&matcher);
    assert!(rt; classes.get(b'\r') != classes.get(b'\n') && classes.get(b'a') == classes.get(b'z'));
    let classes = look::byte_classes_of(&matcher, &[Look::StartLF]);
    assert!(rt; classes.get(b'\r') == classes.get(255) && classes.get(0) != classes.get(255));
    assert!(rt; look::agree(&matcher, &classes, Look::StartLF, b"a\nb", b"a\nb", 2));
    let set = look::alphabet_of(&matcher, &[(b'a', b'f')], &[Look::StartLF]);
    let classes = set.byte_classes();
    assert!(rt; classes.get(b'f') != classes.get(b'g') && classes.get(b'\n') != classes.get(b'\r'));
    // ASCII from the bytes at which a table stops.
    let classes = look::alphabet_of(&matcher, &[], &[Look::WordUnicode]).byte_classes();
    assert!(rt; classes.get(0x7F) != classes.get(0x80));
    Ok(())
}

// A search for a byte: each match is one byte long.
struct Byte(u8);

impl search::Search for Byte {
    ghost Finds = { λ byte input found. IfSome found (λ s. slice_get input.haystack s.start ≡ Some byte.0) };

    fn find(&self, input: &Input<'_>) -> Option<Span> {
        for at in input.start()..input.end() {
            if input.haystack().get(at).copied() == Some(self.0) {
                return Some(Span {
                    start: at,
                    end: at + 1,
                });
            }
        }
        None
    }
}

// A search that finds the empty string where it begins.
struct Empty;

impl search::Search for Empty {
    ghost Finds = { λ _ input found. IfSome found (λ s. s.start ≡ input.span.start) };

    fn find(&self, input: &Input<'_>) -> Option<Span> {
        if input.start() <= input.end() {
            Some(Span {
                start: input.start(),
                end: input.start(),
            })
        } else {
            None
        }
    }
}

#[test]
fn matches_one_after_the_other(rt: HostRuntime) -> Result<(), Fail> {
    let found = search::all_matches(rt.alloc(), &Byte(b'a'), b"banana")?;
    assert!(rt;
        are_spans(
            found.as_slice(),
            &[
                Span { start: 1, end: 2 },
                Span { start: 3, end: 4 },
                Span { start: 5, end: 6 }
            ]
        )
    );
    let empty = search::all_matches(rt.alloc(), &Empty, b"ab")?;
    assert!(rt;
        are_spans(
            empty.as_slice(),
            &[
                Span { start: 0, end: 0 },
                Span { start: 1, end: 1 },
                Span { start: 2, end: 2 }
            ]
        )
    );
    assert!(rt; are_bytes(search::left(&Input::new(b"ab")), b"ab"));
    assert!(rt; search::left_by_span(&Input::new(b"ab")).is_some());
    let found = Match::new(PatternID::ZERO, Span { start: 1, end: 3 });
    assert!(rt; are_bytes(search::matched(b"abcd", &found), b"bc"));
    assert!(rt; are_bytes(search::matched_by_ends(b"abcd", &found), b"bc"));
    assert_eq!(rt; search::width(&found), 2);
    Ok(())
}

#[test]
fn members_from_both_ends(rt: HostRuntime) -> Result<(), Fail> {
    let ids = [PatternID::must(7), PatternID::must(0), PatternID::must(3)];
    let set = search::set_of(rt.alloc(), 8, &ids)?;
    let members = search::members(rt.alloc(), &set)?;
    assert!(rt;
        are_patterns(
            members.as_slice(),
            &[PatternID::ZERO, PatternID::must(3), PatternID::must(7)]
        )
    );
    let (front, back) = search::from_both_ends(rt.alloc(), &set)?;
    assert!(rt; are_patterns(front.as_slice(), &[PatternID::ZERO, PatternID::must(3)]));
    assert!(rt; are_patterns(back.as_slice(), &[PatternID::must(7)]));
    assert!(rt; search::least(&set) == Some(PatternID::ZERO));
    assert!(rt; search::each_is_contained(&set));
    assert_eq!(rt;
        search::sum_of_members(&set, &[1, 2, 4, 8, 16, 32, 64, 128]),
        137
    );
    assert_eq!(rt; search::room(&set), 5);
    Ok(())
}

#[test]
fn inputs_read_and_patterns_met(rt: HostRuntime) -> Result<(), Fail> {
    let input = search::input_of("ab\n");
    assert_eq!(rt; search::sum_of_bytes(&input), 205);
    assert!(rt; search::has_byte(&input, 1, b'b'));
    assert!(rt; !search::has_byte(&input, 2, b'b'));
    assert!(rt; search::is_done_or_holds(&input, Look::StartLF));
    assert!(rt; !search::is_done_or_holds(&input, Look::End));
    let mut met = PatternSet::new(rt.alloc(), 4)?;
    let leads = [PatternID::must(2), PatternID::ZERO, PatternID::ZERO];
    assert_eq!(rt; search::follow(&mut met, &leads, PatternID::ZERO), 2);
    Ok(())
}

#[test]
fn spans_written_and_read(rt: HostRuntime) -> Result<(), Fail> {
    let info = GroupInfo::new(rt.alloc(), &[&[None, Some("key"), Some("value")]])?;
    let mut found = Captures::all(rt.alloc(), info)?;
    found.set_pattern(Some(PatternID::ZERO));
    for (slot, offset) in [(0, 0), (1, 9), (2, 0), (3, 3), (4, 4), (5, 9)] {
        if slot < found.slots().len() {
            if let Some(offset) = NonMaxUsize::new(offset) {
                captures::write_slot(&mut found, slot, offset);
            }
        }
    }
    assert!(rt; captures::key_and_value(&found, "key=value") == Some(("key", "value")));
    if found.slots().len() == found.group_info().slot_len() {
        let offsets = captures::offsets_of_name(&found, PatternID::ZERO, "value");
        assert!(rt; offsets == Some((NonMaxUsize::new(4), NonMaxUsize::new(9))));
    }
    assert_eq!(rt; captures::count_spans(&found), 3);
    assert!(rt; captures::iterator_agrees(rt.alloc(), &found, 1)?);
    Ok(())
}

#[test]
fn spans_replaced(rt: HostRuntime) -> Result<(), Fail> {
    captures::replacing_by_the_same_changes_nothing();
    let spans = [Span { start: 0, end: 3 }, Span { start: 4, end: 9 }];
    let text = captures::replace_all(rt.alloc(), b"key=value", &spans, b"_")?;
    assert!(rt; are_bytes(text.as_slice(), b"_=_"));
    Ok(())
}

#[test]
fn spans_of_groups(rt: HostRuntime) -> Result<(), Fail> {
    let (zero, one) = (PatternID::ZERO, PatternID::must(1));
    let info = GroupInfo::new(rt.alloc(), &[&[None, Some("x")], &[None]])?;
    assert!(rt; captures::slots_apart(&info, zero, 1, one, 0));
    assert!(rt; captures::index_within(&info, zero, "x") && captures::slots_within(&info, one, 0));
    let (Some(start), Some(end)) = (NonMaxUsize::new(2), NonMaxUsize::new(5)) else {
        return Ok(());
    };
    let whole = Span { start: 2, end: 5 };
    if info.pattern_len() > 0 && info.group_len(zero) > 1 {
        assert!(rt; captures::has_whole(&info, zero));
        let copy = info.clone()?;
        assert!(rt;
            captures::write_and_read(rt.alloc(), copy, zero, 1, start, end)? == Some(whole)
        );
        let copy = info.clone()?;
        let found = captures::write_match(rt.alloc(), copy, zero, start, end)?;
        assert!(rt; found == Some(Match::new(zero, whole)));
        let mut found = Captures::all(rt.alloc(), info)?;
        found.set_pattern(Some(zero));
        captures::write_span(&mut found, zero, 0, start, end);
        assert!(rt; found.get_group(0) == Some(whole));
        assert_eq!(rt; captures::spans(rt.alloc(), &found)?.len(), 2);
        assert_eq!(rt; captures::count_names(found.group_info()), 3);
        // The one pattern's group 2 isn't there.
        assert!(rt; !captures::set_pair(&mut found, whole, whole, whole));
    }
    Ok(())
}

#[test]
fn a_step_past_a_byte_is_a_run(rt: HostRuntime) -> Result<(), Fail> {
    let (from, next) = (StateID::ZERO, StateID::must(1));
    let states = [
        State::ByteRange {
            start: b'a',
            end: b'z',
            next,
        },
        State::Accept {
            pattern: PatternID::ZERO,
        },
    ];
    let info = GroupInfo::new(rt.alloc(), &[&[None]])?;
    let automaton = Nfa::new(rt.alloc(), info, LookMatcher::new(AsciiWord), &states)?;
    assert!(rt; nfa::accepts_one_byte(&automaton, &Input::new(b"q"), from, (b'a', b'z'), next));
    assert!(rt; !automaton.check_run(&Input::new(b"Q"), &[(from, 0), (next, 1)]));
    assert!(rt; nfa::looks_at_bytes_alone(&automaton));
    let classes = nfa::classes_to_stop(&automaton);
    assert!(rt; classes.get(127) != classes.get(128) && classes.get(b'a') == classes.get(b'z'));
    let mut ranges = ByteClassSet::empty();
    ranges.set_range(b'a', b'z');
    let mut digits = ByteClassSet::empty();
    digits.set_range(b'0', b'9');
    assert_eq!(rt;
        alphabet::joined_classes(&mut ranges, &digits).alphabet_len(),
        6
    );
    Ok(())
}

#[test]
fn values_are_shared_by_threads(rt: HostRuntime) -> Result<(), Fail> {
    assert!(rt; threads::are_shared_by_threads());
    Ok(())
}

#[test]
fn casts_give_the_numbers_of_the_original(rt: HostRuntime) {
    assert!(rt; Look::Start as u32 == 1 && Look::WordEndHalfUnicode as u32 == 131072);
    assert!(rt; MatchKind::All as u32 == 0 && MatchKind::LeftmostFirst as u32 == 1);
    // A range becomes a span, as in the original.
    let span: Span = (1..4).into();
    assert!(rt; span == Span { start: 1, end: 4 });
}

// What compiles here as in the original and gives another answer.
#[test]
fn answers_that_differ_from_the_original(rt: HostRuntime) -> Result<(), Fail> {
    let alloc = rt.alloc();
    assert!(rt; LookSet::full().len() == 18);
    let mut set = PatternSet::new(alloc, 10)?;
    set.insert(PatternID::must(3));
    assert!(rt; set.iter().size_hint() == (1, Some(1)));
    assert_eq!(rt;
        format!(in alloc; "{set:?}")?.as_str(),
        "PatternSet { blocks: [8], capacity: 10, count: 1 }"
    );
    let (bytes, error) = (ByteSet::empty(), MatchError::gave_up(9));
    assert_eq!(rt;
        format!(in alloc; "{bytes:?} {error:?}")?.as_str(),
        "ByteSet { low: 0, high: 0 } MatchError { kind: GaveUp { offset: 9 } }"
    );
    if let Err(error) = PatternID::new(2147483647) {
        assert_eq!(rt;
            format!(in alloc; "{error:?}")?.as_str(),
            "PatternIDError { attempted: 2147483647 }"
        );
    }
    if let Err(error) = StateID::new(2147483647) {
        assert_eq!(rt;
            format!(in alloc; "{error:?}")?.as_str(),
            "StateIDError { attempted: 2147483647 }"
        );
    }
    Ok(())
}

#[test]
fn kinds_of_tokens(rt: HostRuntime) -> Result<(), Fail> {
    let tokens = [
        Match::must(2, Span { start: 0, end: 1 }),
        Match::must(0, Span { start: 1, end: 2 }),
    ];
    let kinds = search::kinds_of(rt.alloc(), &tokens)?;
    assert!(rt; kinds.contains(PatternID::ZERO) && kinds.contains(PatternID::must(2)));
    assert!(rt; !kinds.contains(PatternID::must(1)) && kinds.len() == 2);
    Ok(())
}
