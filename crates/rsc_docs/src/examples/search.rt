use rsc_primitives::PatternID;
use rsc_search::{
    Anchored, HalfMatch, Input, Match, MatchError, MatchErrorKind, MatchKind, PatternSet, Span,
};
use std::ops::Bound;
use std::test::Fail;

#[test]
fn head(rt: HostRuntime) -> Result<(), Fail> {
    // `rsc_search`
    let input = Input::new(b"abc").span(Span { start: 1, end: 3 });
    assert!(rt; input.get_span() == Span { start: 1, end: 3 });
    assert!(rt; input.haystack() == b"abc".as_slice());
    Ok(())
}

#[test]
fn span(rt: HostRuntime) -> Result<(), Fail> {
    // `Span`
    let span = Span { start: 1, end: 3 };
    assert!(rt; span.len() == 2 && !span.is_empty());
    assert!(rt; span.contains(3) && !span.contains(4));

    // `Span::get_str`
    assert!(rt; Span { start: 1, end: 3 }.get_str("aébc") == Some("é"));
    assert!(rt; Span { start: 1, end: 2 }.get_str("aébc") == None);
    Ok(())
}

#[test]
fn input(rt: HostRuntime) -> Result<(), Fail> {
    // `Input`
    let mut input = Input::new(b"ab");
    assert!(rt; input.start() == 0 && input.end() == 2);
    // After a match that ends at 2 an empty one may still be there; after that one the search is done.
    input.set_start(2);
    assert!(rt; !input.is_done());
    input.set_start(3);
    assert!(rt; input.is_done());

    // `Input::range`
    let input = Input::new(b"abcd").range(Bound::Excluded(0), Bound::Included(2));
    assert!(rt; input.get_span() == Span { start: 1, end: 3 });
    Ok(())
}

#[test]
fn matches(rt: HostRuntime) -> Result<(), Fail> {
    // `Match`
    let found = Match::must(0, Span { start: 2, end: 5 });
    assert!(rt; found.start() == 2 && found.end() == 5 && found.len() == 3);

    // `HalfMatch`
    let found = HalfMatch::must(1, 5);
    assert!(rt; found.pattern() == PatternID::must(1) && found.offset() == 5);
    Ok(())
}

#[test]
fn anchored(rt: HostRuntime) -> Result<(), Fail> {
    // `Anchored`
    assert!(rt; !Anchored::No.is_anchored() && Anchored::Yes.is_anchored());
    assert!(rt; Anchored::Pattern(PatternID::must(2)).pattern() == Some(PatternID::must(2)));

    // `MatchKind`
    assert!(rt; MatchKind::All.continue_past_first_match());
    assert!(rt; !MatchKind::LeftmostFirst.continue_past_first_match());
    Ok(())
}

#[test]
fn error(rt: HostRuntime) -> Result<(), Fail> {
    // `MatchError`
    let error = MatchError::gave_up(7);
    assert!(rt; *error.kind() == MatchErrorKind::GaveUp { offset: 7 });
    Ok(())
}

#[test]
fn pattern_set(rt: HostRuntime) -> Result<(), Fail> {
    // `PatternSet`
    let mut set = PatternSet::new(rt.alloc(), 3)?;
    assert!(rt; set.insert(PatternID::must(2)));
    assert!(rt; !set.insert(PatternID::must(2)));
    assert!(rt; set.try_insert(PatternID::must(3)).is_err());
    assert!(rt; set.contains(PatternID::must(2)) && set.len() == 1);

    // `PatternSetIter`
    let mut set = PatternSet::new(rt.alloc(), 8)?;
    set.insert(PatternID::must(5));
    set.insert(PatternID::must(2));
    let mut patterns = set.iter();
    assert!(rt; patterns.next_back() == Some(PatternID::must(5)));
    assert!(rt; patterns.next() == Some(PatternID::must(2)));
    assert!(rt; patterns.len() == 0);

    // `PatternSetInsertError`
    let mut set = PatternSet::new(rt.alloc(), 3)?;
    if let Err(error) = set.try_insert(PatternID::must(3)) {
        assert!(rt; error.attempted() == PatternID::must(3) && error.capacity() == 3);
    }
    Ok(())
}
