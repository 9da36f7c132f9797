//! Refused memory: budgets that grow by 8 bytes refuse the first, the second and each further request, until one suffices.
use linked_list_allocator::LocalHeap;
use rsc_commands::{BenchError, run};
use std::alloc::Global;
use std::test::Fail;

const FIRST_ANSWER: &[u8] = b"alphabet 2: 00\n";

// A second line for each command, and its answer.
const ROWS: [(&str, &str); 7] = [
    (
        "ranges\nranges 61-7a 30-39\n",
        "alphabet 6: 00 30 3a 61 7b\n",
    ),
    ("ranges\nlooks 0a StartLF\n", "alphabet 4: 00 0a 0b\n"),
    ("ranges\nlook WordUnicode 0a f09d9b83f0908680 4\n", "true\n"),
    ("ranges\ngroups -,x;-,-,x\n", "slots 10: 0,4;2,6,8\n"),
    ("ranges\nlimited 6 -;-,-\n", "slots 6: 0;2,4\n"),
    (
        "ranges\ngroups -,x,x\n",
        "duplicate capture group name 'x' found for pattern 0\n",
    ),
    (
        "ranges\ngroups -,x;x\n",
        "first capture group (at index 0) for pattern 1 has a name (it must be unnamed)\n",
    ),
];

/// What stands in the writer. With budgets that grow it may only grow.
#[derive(Clone, Copy, PartialEq, Eq, PartialOrd, Ord)]
enum Written {
    /// Nothing, and memory ran out.
    Nothing,
    /// The first answer alone, and memory ran out.
    First,
    /// Both answers.
    Both,
    /// Anything else.
    Wrong,
}

// What a run over two lines writes within a budget.
fn run_within(alloc: Global, heap: &LocalHeap, lines: &str, answer: &str) -> Written {
    let mut reader = lines.as_bytes();
    let mut writer = Vec::new(alloc);
    let ended = run(heap, &mut reader, &mut writer);
    match (ended, writer.as_slice().strip_prefix(FIRST_ANSWER)) {
        (Ok(()), Some(rest)) if rest == answer.as_bytes() => Written::Both,
        (Err(BenchError::OutOfMemory), Some([])) => Written::First,
        (Err(BenchError::OutOfMemory), None) if writer.is_empty() => Written::Nothing,
        _ => Written::Wrong,
    }
}

#[test]
fn each_request_may_be_refused(rt: HostRuntime) -> Result<(), Fail> {
    for (lines, answer) in ROWS {
        let mut so_far = Written::Nothing;
        let mut was_first = false;
        for size in 0..768usize {
            let heap = LocalHeap::new(rt.alloc(), 8 * size)?;
            let next = run_within(rt.alloc(), &heap, lines, answer);
            assert!(rt; so_far <= next && heap.used() == 0);
            was_first = was_first || next == Written::First;
            so_far = next;
        }
        assert!(rt; was_first && so_far == Written::Both, "at {lines:?}");
    }
    Ok(())
}

#[test]
fn each_growth_of_a_long_input_may_be_refused(rt: HostRuntime) -> Result<(), Fail> {
    let mut input = Vec::new(rt.alloc());
    for _ in 0..20_000 {
        input.push(b'x')?;
    }
    let mut refused = 0;
    for size in 0..160usize {
        let heap = LocalHeap::new(rt.alloc(), 512 * size)?;
        let mut writer = Vec::new(rt.alloc());
        match run(&heap, &mut input.as_slice(), &mut writer) {
            Ok(()) => assert!(rt; writer.as_slice() == b"bad line\n".as_slice()),
            Err(error) => {
                assert!(rt; error == BenchError::OutOfMemory && writer.is_empty());
                refused = size;
            }
        }
    }
    // A growth after the first was refused, and the greatest budget is enough.
    assert!(rt; 16 < refused && refused < 159);
    Ok(())
}
