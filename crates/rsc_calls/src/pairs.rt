use rsc_engine::{Builder, Error, Matches, Part, Program, laws};
use rsc_look::UnicodeWord;
use rsc_primitives::PatternID;
use rsc_search::Input;
use std::alloc::Global;

/// The bytes of names: letters, digits and `_` of ASCII, and all bytes of other characters. The range of most bytes is first, since a loop is fastest over it.
pub const NAME: [(u8, u8); 5] = [
    (b'a', b'z'),
    (b'A', b'Z'),
    (b'0', b'9'),
    (b'_', b'_'),
    (0x80, 0xFF),
];

/// Prints the values of all pairs and tags: the matches of `(N+)=(?P<value>N+)` and of `#(?P<value>N+)`, where N takes every byte of `NAME`.
pub fn pairs(rt: &HostRuntime, text: &str) -> Result<(), Error> {
    let program = pair_or_tag(rt.alloc())?;
    let mut captures = program.captures(rt.alloc())?;
    let mut matches = Matches::new(rt.alloc(), &program, Input::new(text.as_bytes()))?;
    laws::an_iteration_ends();
    while let Some(found) = matches.next(&mut captures)? {
        let is_pair = found.pattern() == PatternID::ZERO;
        if let Some(value) = captures.get_group_by_name("value") {
            let value = value.get_str(text).unwrap_or("?");
            let _ = println!(rt; "{} {value}", if is_pair { "pair" } else { "tag" });
        }
    }
    Ok(())
}

fn pair_or_tag(alloc: Global) -> Result<Program<UnicodeWord>, Error> {
    let mut builder = Builder::new(alloc);
    let key = named(&builder, None)?;
    let equals = builder.literal(b"=")?;
    let value = named(&builder, Some("value"))?;
    let pair = builder.concat(vec![in alloc; key, equals, value]?)?;
    builder.add_pattern(pair)?;
    let hash = builder.literal(b"#")?;
    let value = named(&builder, Some("value"))?;
    let tag = builder.then(hash, value)?;
    // The last pattern ends the program; `true` says that haystacks are text.
    builder.build(UnicodeWord, true, tag)
}

/// `(N+)`, a group with that name or none.
pub fn named<'n>(builder: &Builder<'n>, name: Option<&'n str>) -> Result<Part<'n>, Error> {
    let class = builder.class(&NAME)?;
    let bytes = builder.plus(class)?;
    builder.group(name, bytes)
}
