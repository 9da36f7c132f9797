//! What a clone of an iterator is: it takes no memory, so it always succeeds, and it has the same items left.
ghost use Rattle.std.specs.Prelude.{◌≡◌, Ok};

use crate::{CapturesPatternIter, GroupInfoPatternNames};
use std::alloc::{AllocError, Allocator};

/// The clone of an iterator over the names of a pattern's groups.
pub fn clone_pattern_names<'a, A: Allocator>(
    source: &GroupInfoPatternNames<'a, A>,
) -> Result<GroupInfoPatternNames<'a, A>, AllocError>
    ensures { result ≡ Ok source.now }
{
    source.clone()
}

/// The clone of an iterator over the spans of the groups of the pattern that matched.
pub fn clone_spans<'a, A: Allocator>(
    source: &CapturesPatternIter<'a, A>,
) -> Result<CapturesPatternIter<'a, A>, AllocError>
    ensures { result ≡ Ok source.now }
{
    source.clone()
}
