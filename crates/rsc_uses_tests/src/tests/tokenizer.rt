//! Tokens of texts, by the tokenizer over a table.
use rsc_search::Span;
use rsc_uses::tokenizer::{Kind, Table, Token, tokenize};
use std::test::Fail;

fn token(kind: Kind, start: usize, end: usize) -> Token {
    Token {
        kind,
        span: Span { start, end },
    }
}

fn are_tokens(found: &[Token], want: &[Token]) -> bool {
    found == want
}

#[test]
fn a_line_is_tokenized(rt: HostRuntime) -> Result<(), Fail> {
    let text = b"x1 >= 20\xC3;";
    let want = [
        token(Kind::Name, 0, 2),
        token(Kind::Space, 2, 3),
        token(Kind::Operator, 3, 5),
        token(Kind::Space, 5, 6),
        token(Kind::Number, 6, 8),
        token(Kind::Wrong, 8, 9),
        token(Kind::Operator, 9, 10),
    ];
    let found = tokenize(rt.alloc(), text)?;
    assert!(rt; are_tokens(&found, &want));
    let table = Table::new(rt.alloc())?;
    assert!(rt; table.token_at(text, 1) == token(Kind::Number, 1, 2));
    Ok(())
}

#[test]
fn an_empty_text_has_no_tokens(rt: HostRuntime) -> Result<(), Fail> {
    assert!(rt; tokenize(rt.alloc(), b"")?.is_empty());
    Ok(())
}

#[test]
fn each_byte_is_in_a_token(rt: HostRuntime) -> Result<(), Fail> {
    let mut text = Vec::new(rt.alloc());
    for byte in 0..=255u8 {
        text.push(byte)?;
    }
    let mut runs = Vec::new(rt.alloc());
    let found = tokenize(rt.alloc(), &text)?;
    for token in found.iter() {
        if token.kind == Kind::Wrong {
            assert_eq!(rt; token.span.len(), 1);
        } else {
            runs.push(*token)?;
        }
    }
    let want = [
        token(Kind::Space, 9, 14),
        token(Kind::Space, 32, 33),
        token(Kind::Operator, 33, 48),
        token(Kind::Number, 48, 58),
        token(Kind::Operator, 58, 65),
        token(Kind::Name, 65, 91),
        token(Kind::Operator, 91, 95),
        token(Kind::Name, 95, 96),
        token(Kind::Name, 97, 123),
        token(Kind::Operator, 123, 127),
    ];
    assert!(rt; are_tokens(&runs, &want));
    assert_eq!(rt; found.len(), 167);
    Ok(())
}

#[test]
fn neighbors_differ_in_kind_unless_they_are_wrong(rt: HostRuntime) -> Result<(), Fail> {
    let found = tokenize(rt.alloc(), b"a1 1a++ -\t\n__9(\x80\x80)12_")?;
    let found = found.as_slice();
    for (one, next) in found.iter().zip(found.get(1..).unwrap_or(&[])) {
        assert!(rt; one.kind != next.kind || one.kind == Kind::Wrong);
        assert_eq!(rt; one.span.end, next.span.start);
    }
    assert_eq!(rt; found.len(), 15);
    Ok(())
}

#[test]
fn a_long_name_is_one_token(rt: HostRuntime) -> Result<(), Fail> {
    let found = tokenize(rt.alloc(), &[b'n'; 300])?;
    assert!(rt; are_tokens(&found, &[token(Kind::Name, 0, 300)]));
    Ok(())
}
