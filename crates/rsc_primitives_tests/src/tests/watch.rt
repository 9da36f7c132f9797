//! The watch over an arena: which requests it notes.
use crate::requests::Watch;
use bumpalo::Bump;
use std::test::Fail;

// A request is noted though it is for one byte and given back, and though another one was noted before.
#[test]
fn each_request_is_noted(rt: HostRuntime) -> Result<(), Fail> {
    let arena = Bump::new(rt.alloc());
    let mut watch = Watch::new(rt.alloc(), &arena);
    watch.note("nothing");
    let kept = Vec::<u8, &Bump>::with_capacity(&arena, 1)?;
    watch.note("kept");
    drop(Vec::<u8, &Bump>::with_capacity(&arena, 1)?);
    watch.note("given back");
    drop(kept);
    watch.note("released");
    drop(Vec::<u64, &Bump>::with_capacity(&arena, 1000)?);
    watch.note("large");
    let _empty = Vec::<u64, &Bump>::new(&arena);
    watch.note("empty");
    assert_eq!(rt; watch.asking(), "kept; given back; large; ");
    Ok(())
}
