//! The callers of the engine, run on values.
use rsc_engine::{Builder, Cache, Dfa, Error, Matches, Part, Program};
use rsc_look::{AsciiWord, Look, LookSet};
use rsc_primitives::PatternID;
use rsc_search::{Input, Span};
use rsc_uses::{ends, engine, lexer, parts, replace};
use std::alloc::Global;
use std::test::Fail;

// `[a-z]`
fn a_letter(alloc: Global) -> Result<Program<AsciiWord>, Error> {
    let builder = Builder::new(alloc);
    let whole = builder.range(b'a', b'z');
    builder.build(AsciiWord, true, whole)
}

#[test]
fn a_part_is_found(rt: HostRuntime) -> Result<(), Fail> {
    let whole = Builder::new(rt.alloc()).range(b'a', b'z');
    let found = parts::find_part(rt.alloc(), AsciiWord, whole, b"-a b")?;
    assert!(rt; found == Some((1, 2)));
    Ok(())
}

#[test]
fn each_match_is_masked(rt: HostRuntime) -> Result<(), Fail> {
    let program = a_letter(rt.alloc())?;
    let out = replace::mask_all(rt.alloc(), &program, b"1a2b")?;
    assert!(rt; out.as_slice() == b"1***2***".as_slice());
    let out = replace::mask_first(rt.alloc(), &program, b"1a2b")?;
    assert!(rt; out.as_slice() == b"1***2b".as_slice());
    let builder = Builder::new(rt.alloc());
    let letter = builder.range(b'a', b'z');
    let out = replace::blank_out(rt.alloc(), AsciiWord, letter, b"1a2b")?;
    assert!(rt; out.as_slice() == b"1 2 ".as_slice());
    Ok(())
}

#[test]
fn the_first_group_of_a_match_is_set(rt: HostRuntime) -> Result<(), Fail> {
    let builder = Builder::new(rt.alloc());
    let input = Input::new(b"-a b");
    let letter = builder.range(b'a', b'z');
    let found = parts::find_with_slots(rt.alloc(), AsciiWord, letter, &input)?;
    assert!(rt;
        found.is_some_and(|both| both.1.slots()[0].map(|at| at.get()) == Some(both.0.start()))
    );
    let letter = builder.range(b'a', b'z');
    let found = parts::find_with_group(rt.alloc(), AsciiWord, letter, &input)?;
    assert!(rt; found.is_some_and(|both| both.1 == Some(both.0.span())));
    let digit = builder.range(b'0', b'9');
    assert!(rt; parts::find_with_group(rt.alloc(), AsciiWord, digit, &input)?.is_none());
    Ok(())
}

#[test]
fn a_search_asks_the_assertions_of_its_part(rt: HostRuntime) -> Result<(), Fail> {
    let builder = Builder::new(rt.alloc());
    assert!(rt; parts::looks_of(rt.alloc(), AsciiWord, builder.literal(b"abc")?)?.is_empty());
    let line = builder.then(builder.assertion(Look::StartLF), builder.literal(b"a")?)?;
    let never = builder.repeat(builder.assertion(Look::End), 0, Some(0))?;
    let both = builder.then(line, never)?;
    let looks = parts::looks_of(rt.alloc(), AsciiWord, both)?;
    assert!(rt; looks == LookSet::singleton(Look::StartLF));
    Ok(())
}

// `((a)|(b))+`
fn letters(builder: &Builder<'static>) -> Result<Part<'static>, Error> {
    let a = builder.group(None, builder.literal(b"a")?)?;
    let b = builder.group(None, builder.literal(b"b")?)?;
    let either = builder.either(a, b)?;
    let either = builder.group(None, either)?;
    builder.plus(either)
}

#[test]
fn groups_are_where_the_first_way_goes(rt: HostRuntime) -> Result<(), Fail> {
    let builder = Builder::new(rt.alloc());
    let whole = letters(&builder)?;
    let found = parts::find_with_slots(rt.alloc(), AsciiWord, whole, &Input::new(b"-ab"))?;
    let Some((_, captures)) = found else {
        return Err(Fail::from("no match"));
    };
    let last = Some(Span { start: 2, end: 3 });
    let first = Some(Span { start: 1, end: 2 });
    assert!(rt; captures.get_group(1) == last && captures.get_group(2) == first);
    assert!(rt; captures.get_group(3) == last && captures.slots().len() == 8);
    Ok(())
}

#[test]
fn a_part_is_found_before_another(rt: HostRuntime) -> Result<(), Fail> {
    let builder = Builder::new(rt.alloc());
    let part = letters(&builder)?;
    let after = builder.literal(b"b")?;
    let found = parts::find_before(rt.alloc(), AsciiWord, part, after, b"-abb-")?;
    assert!(rt; found.is_some_and(|span| span.start == 1 && span.end == 3));
    let part = letters(&builder)?;
    let after = builder.literal(b"c")?;
    let found = parts::find_before(rt.alloc(), AsciiWord, part, after, b"-abb-")?;
    assert!(rt; found.is_none());
    Ok(())
}

#[test]
fn the_first_match_has_a_span(rt: HostRuntime) -> Result<(), Fail> {
    let program = a_letter(rt.alloc())?;
    let mut captures = program.captures(rt.alloc())?;
    let input = Input::new(b"-a b");
    let first = engine::first_span(rt.alloc(), &program, &input, &mut captures)?;
    assert!(rt; first.is_some_and(|span| span.start == 1 && span.end == 2));
    Ok(())
}

#[test]
fn a_match_is_found_twice(rt: HostRuntime) -> Result<(), Fail> {
    let program = a_letter(rt.alloc())?;
    let mut captures = program.captures(rt.alloc())?;
    let input = Input::new(b"-a b");
    let mut dfa = Dfa::new(rt.alloc(), &program, 4);
    let found = engine::has_match_twice(rt.alloc(), &program, &mut dfa, &input, &mut captures)?;
    assert!(rt; found.0 && found.1);
    Ok(())
}

#[test]
fn two_matches_end_in_turn(rt: HostRuntime) -> Result<(), Fail> {
    let program = a_letter(rt.alloc())?;
    let mut captures = program.captures(rt.alloc())?;
    let mut matches = Matches::new(rt.alloc(), &program, Input::new(b"-a b"))?;
    assert!(rt; engine::next_two_ends(&mut matches, &mut captures)? == Some((2, 4)));
    assert!(rt; engine::next_two_ends(&mut matches, &mut captures)?.is_none());
    Ok(())
}

#[test]
fn ends_agree(rt: HostRuntime) -> Result<(), Fail> {
    let program = a_letter(rt.alloc())?;
    let mut captures = program.captures(rt.alloc())?;
    let mut dfa = Dfa::new(rt.alloc(), &program, 4);
    let input = Input::new(b"-a b");
    let ends = engine::leftmost_end_twice(rt.alloc(), &program, &mut dfa, &input, &mut captures)?;
    assert!(rt; ends == (Some(2), Some(2)));
    Ok(())
}

#[test]
fn answers_are_of_parts(rt: HostRuntime) -> Result<(), Fail> {
    let builder = Builder::new(rt.alloc());
    let whole = builder.range(b'a', b'z');
    let first = parts::first_of_iteration(rt.alloc(), AsciiWord, whole, b"-a b")?;
    assert!(rt; first == Some((1, 2)));
    let whole = builder.range(b'a', b'z');
    let end = parts::earliest_end_of_part(rt.alloc(), AsciiWord, whole, b"-a b")?;
    assert!(rt; end == Some(2));
    let whole = builder.plus(builder.range(b'a', b'z'))?;
    let end = parts::leftmost_end_of_part(rt.alloc(), AsciiWord, whole, b"-ab c")?;
    assert!(rt; end == Some(3));
    Ok(())
}

#[test]
fn the_first_of_two_parts_is_preferred(rt: HostRuntime) -> Result<(), Fail> {
    let builder = Builder::new(rt.alloc());
    let letters = builder.plus(builder.range(b'a', b'z'))?;
    let keyword = builder.literal(b"if")?;
    let found = parts::first_of_two(rt.alloc(), AsciiWord, keyword, letters, b"- if")?;
    assert!(rt; found.is_some_and(|it| it.pattern() == PatternID::ZERO && it.start() == 2));
    let letters = builder.plus(builder.range(b'a', b'z'))?;
    let keyword = builder.literal(b"if")?;
    let found = parts::first_of_two(rt.alloc(), AsciiWord, keyword, letters, b"- it")?;
    assert!(rt; found.is_some_and(|it| it.pattern().as_usize() == 1 && it.start() == 2));
    Ok(())
}

#[test]
fn a_name_is_once_in_a_program(rt: HostRuntime) -> Result<(), Fail> {
    let builder = Builder::new(rt.alloc());
    let one = builder.group(Some("a"), builder.empty())?;
    assert!(rt; parts::program_of_part(rt.alloc(), AsciiWord, one).is_ok());
    let one = builder.group(Some("a"), builder.empty())?;
    let other = builder.group(Some("a"), builder.empty())?;
    let both = builder.then(one, other)?;
    assert!(rt; parts::program_of_part(rt.alloc(), AsciiWord, both).is_err());
    Ok(())
}

#[test]
fn groups_of_both_parts(rt: HostRuntime) -> Result<(), Fail> {
    let builder = Builder::new(rt.alloc());
    let one = builder.group(Some("a"), builder.range(b'a', b'z'))?;
    let other = builder.group(Some("b"), builder.empty())?;
    let program = parts::program_of_two(rt.alloc(), AsciiWord, one, other)?;
    let info = program.nfa().group_info();
    assert!(rt; info.to_index(PatternID::ZERO, "b") == Some(2));
    Ok(())
}

// `ab|a`
fn two_texts(alloc: Global) -> Result<Program<AsciiWord>, Error> {
    let builder = Builder::new(alloc);
    let whole = parts::one_of_two(alloc, &builder, b"ab", b"a")?;
    builder.build(AsciiWord, true, whole)
}

#[test]
fn all_matches_come_in_turn(rt: HostRuntime) -> Result<(), Fail> {
    let program = two_texts(rt.alloc())?;
    let all = engine::all_matches(rt.alloc(), &program, Input::new(b"a-ab"))?;
    assert!(rt; all.len() == 2 && all[0].end() == 1 && all[1].end() == 4);
    Ok(())
}

#[test]
fn all_matches_come_over_one_cache(rt: HostRuntime) -> Result<(), Fail> {
    let program = two_texts(rt.alloc())?;
    let mut captures = program.captures(rt.alloc())?;
    let cache = Cache::new(rt.alloc(), &program)?;
    let input = Input::new(b"-a");
    let (all, _) = engine::all_over(rt.alloc(), cache, &mut captures, input)?;
    assert!(rt; all.len() == 1 && all[0].start() == 1);
    Ok(())
}

#[test]
fn two_inputs_are_searched_over_one_cache(rt: HostRuntime) -> Result<(), Fail> {
    let program = two_texts(rt.alloc())?;
    let mut captures = program.captures(rt.alloc())?;
    let mut cache = Cache::new(rt.alloc(), &program)?;
    let (one, other) = (Input::new(b"-a"), Input::new(b"b"));
    assert!(rt; engine::both_match(&mut cache, &mut captures, &one, &one)?);
    assert!(rt; !engine::both_match(&mut cache, &mut captures, &one, &other)?);
    Ok(())
}

#[test]
fn tokens_stand_side_by_side(rt: HostRuntime) -> Result<(), Fail> {
    let mut builder = Builder::new(rt.alloc());
    let keyword = builder.literal(b"if")?;
    builder.add_pattern(keyword)?;
    let letters = builder.plus(builder.range(b'a', b'z'))?;
    builder.add_pattern(letters)?;
    let other = builder.range(0, 0xFF);
    let tokens = lexer::tokens_of(rt.alloc(), AsciiWord, builder, other, b"if x")?;
    assert!(rt; tokens.len() == 3);
    for (token, (pattern, end)) in tokens.iter().zip([(0, 2), (2, 3), (1, 4)]) {
        assert!(rt; token.pattern().as_usize() == pattern && token.end() == end);
    }
    Ok(())
}

#[test]
fn tokens_have_the_span_of_a_group(rt: HostRuntime) -> Result<(), Fail> {
    let mut builder = Builder::new(rt.alloc());
    // [a-z]=([0-9])*, and any byte.
    let digit = builder.group(None, builder.range(b'0', b'9'))?;
    let digits = builder.star(digit)?;
    let equals = builder.then(builder.literal(b"=")?, digits)?;
    let pair = builder.then(builder.range(b'a', b'z'), equals)?;
    builder.add_pattern(pair)?;
    let other = builder.range(0, 0xFF);
    let tokens = lexer::tokens_with_group(rt.alloc(), AsciiWord, builder, other, 1, b"a=12-b=")?;
    assert!(rt; tokens.len() == 3);
    let wanted = [(4, Some((3, 4))), (5, None), (7, None)];
    for ((token, span), (end, group)) in tokens.iter().zip(wanted) {
        assert!(rt; token.end() == end && span.map(|it| (it.start, it.end)) == group);
    }
    Ok(())
}

#[test]
fn tokens_in_the_patterns_of_a_list(rt: HostRuntime) -> Result<(), Fail> {
    let builder = Builder::new(rt.alloc());
    let mut keywords = Vec::new(rt.alloc());
    keywords.push(builder.literal(b"fn")?)?;
    let other = builder.range(0, 0xFF);
    let found = lexer::tokens_of_parts(rt.alloc(), AsciiWord, keywords, other, b"-fn")?;
    assert!(rt; found.is_some_and(|tokens| tokens.len() == 2));
    Ok(())
}

#[test]
fn tokens_of_a_part_that_may_be_empty_are_refused(rt: HostRuntime) -> Result<(), Fail> {
    let builder = Builder::new(rt.alloc());
    let parts = Vec::new(rt.alloc());
    let found = lexer::tokens_of_parts(rt.alloc(), AsciiWord, parts, builder.empty(), b"-fn")?;
    assert!(rt; found.is_none());
    Ok(())
}

#[test]
fn the_bytes_of_a_group_are_cut_out(rt: HostRuntime) -> Result<(), Fail> {
    let builder = Builder::new(rt.alloc());
    let digits = builder.plus(builder.range(b'0', b'9'))?;
    let value = builder.group(None, digits)?;
    let whole = builder.then(builder.literal(b"=")?, value)?;
    let found = lexer::bytes_of_group(rt.alloc(), AsciiWord, whole, 1, b"a=42;")?;
    assert!(rt; found == Some(b"42".as_slice()));
    Ok(())
}

#[test]
fn a_run_and_what_is_quoted_end_where_they_should(rt: HostRuntime) -> Result<(), Fail> {
    assert!(rt; ends::find_run(rt.alloc(), b'a', b'z', b"-ab1")? == Some((1, 3)));
    assert!(rt; ends::find_run(rt.alloc(), b'a', b'z', b"12")? == None);
    assert!(rt; ends::find_run(rt.alloc(), b'z', b'a', b"ab")? == None);
    assert!(rt; ends::find_quoted(rt.alloc(), b"a \"b\" \"c\"")? == Some((2, 5)));
    assert!(rt; ends::find_quoted(rt.alloc(), b"a \"b")? == None);
    Ok(())
}

#[test]
fn a_quotation_has_a_byte(rt: HostRuntime) -> Result<(), Fail> {
    let quotation = ends::quotation(rt.alloc())?;
    assert!(rt; !quotation.may_be_empty());
    Ok(())
}

#[test]
fn a_token_takes_a_byte(rt: HostRuntime) -> Result<(), Fail> {
    let builder = Builder::new(rt.alloc());
    assert!(rt; lexer::as_token(builder.range(b'a', b'z')).is_some());
    assert!(rt; lexer::as_token(builder.empty()).is_none());
    let loops = builder.plus(builder.optional(builder.range(b'a', b'z'))?)?;
    let digits = builder.range(b'0', b'9');
    assert!(rt; lexer::as_token(builder.then(loops, digits)?).is_none());
    Ok(())
}

#[test]
fn no_match_that_takes_a_byte_is_left_out(rt: HostRuntime) -> Result<(), Fail> {
    let builder = Builder::new(rt.alloc());
    // The second byte of `ß`.
    let found = parts::first_in_text(
        rt.alloc(),
        AsciiWord,
        builder.range(0x9F, 0x9F),
        "aß".as_bytes(),
    )?;
    assert!(rt; found.map(|m| m.range()) == Some(2..3));
    Ok(())
}

#[test]
fn letters_and_digits_are_tokens(rt: HostRuntime) -> Result<(), Fail> {
    let tokens = lexer::letters_and_digits(rt.alloc(), b"ab12-")?;
    assert!(rt; tokens.len() == 3);
    for (token, (pattern, end)) in tokens.iter().zip([(0, 2), (1, 4), (2, 5)]) {
        assert!(rt; token.pattern().as_usize() == pattern && token.end() == end);
    }
    Ok(())
}
