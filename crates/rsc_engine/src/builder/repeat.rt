//! Repetitions.
ghost use Rattle.std.specs.Prelude.{◌≡◌, None, Some, true, false, IfOk, IfErr};
ghost use Rattle.rsc_engine.specs.declared.error.Error.TheVariants.{OutOfMemory};
ghost use Rattle.rsc_engine.specs.Patterns.{Repeat};
ghost use Rattle.rsc_engine.specs.Parts.{pattern_of, groups_of_part};

use super::tree::{Times, Tree};
use super::{Builder, Part};
use crate::Error;

impl<'n> Builder<'n> {
    /// The part once or not at all, greedy: once is preferred.
    ///
    /// # Errors
    ///
    /// Out of memory.
    pub fn optional(&self, part: Part<'n>) -> Result<Part<'n>, Error>
        ensures part { IfOk result (λ whole. pattern_of whole ≡ Repeat 0 (Some 1) true (pattern_of part.entry)) }
        ensures groups { IfOk result (λ whole. groups_of_part whole ≡ groups_of_part part.entry) }
        ensures refused { IfErr result (λ e. e ≡ OutOfMemory) }
    {
        self.times(part, 0, Some(1), true)
    }

    /// The part once or not at all, lazy: not at all is preferred.
    ///
    /// # Errors
    ///
    /// Out of memory.
    pub fn optional_lazy(&self, part: Part<'n>) -> Result<Part<'n>, Error>
        ensures part { IfOk result (λ whole. pattern_of whole ≡ Repeat 0 (Some 1) false (pattern_of part.entry)) }
        ensures groups { IfOk result (λ whole. groups_of_part whole ≡ groups_of_part part.entry) }
        ensures refused { IfErr result (λ e. e ≡ OutOfMemory) }
    {
        self.times(part, 0, Some(1), false)
    }

    /// The part any number of times, greedy: once more is preferred. Of a part that may match no byte it is `(part+)?`.
    ///
    /// # Errors
    ///
    /// Out of memory.
    pub fn star(&self, part: Part<'n>) -> Result<Part<'n>, Error>
        ensures part { IfOk result (λ whole. pattern_of whole ≡ Repeat 0 None true (pattern_of part.entry)) }
        ensures groups { IfOk result (λ whole. groups_of_part whole ≡ groups_of_part part.entry) }
        ensures refused { IfErr result (λ e. e ≡ OutOfMemory) }
    {
        self.times(part, 0, None, true)
    }

    /// The part any number of times, lazy: once less is preferred.
    ///
    /// # Errors
    ///
    /// Out of memory.
    pub fn star_lazy(&self, part: Part<'n>) -> Result<Part<'n>, Error>
        ensures part { IfOk result (λ whole. pattern_of whole ≡ Repeat 0 None false (pattern_of part.entry)) }
        ensures groups { IfOk result (λ whole. groups_of_part whole ≡ groups_of_part part.entry) }
        ensures refused { IfErr result (λ e. e ≡ OutOfMemory) }
    {
        self.times(part, 0, None, false)
    }

    /// The part once or more, greedy: once more is preferred.
    ///
    /// # Errors
    ///
    /// Out of memory.
    pub fn plus(&self, part: Part<'n>) -> Result<Part<'n>, Error>
        ensures part { IfOk result (λ whole. pattern_of whole ≡ Repeat 1 None true (pattern_of part.entry)) }
        ensures groups { IfOk result (λ whole. groups_of_part whole ≡ groups_of_part part.entry) }
        ensures refused { IfErr result (λ e. e ≡ OutOfMemory) }
    {
        self.times(part, 1, None, true)
    }

    /// The part once or more, lazy: once less is preferred.
    ///
    /// # Errors
    ///
    /// Out of memory.
    pub fn plus_lazy(&self, part: Part<'n>) -> Result<Part<'n>, Error>
        ensures part { IfOk result (λ whole. pattern_of whole ≡ Repeat 1 None false (pattern_of part.entry)) }
        ensures groups { IfOk result (λ whole. groups_of_part whole ≡ groups_of_part part.entry) }
        ensures refused { IfErr result (λ e. e ≡ OutOfMemory) }
    {
        self.times(part, 1, None, false)
    }

    /// The part from `min` to `max` times, without a limit if `max` is `None`, greedy: once more is preferred. Its groups are the same each time. With a
    /// `max` below `min` it is `min` times.
    ///
    /// # Errors
    ///
    /// Out of memory.
    pub fn repeat(&self, part: Part<'n>, min: usize, max: Option<usize>) -> Result<Part<'n>, Error>
        ensures part { IfOk result (λ whole. pattern_of whole ≡ Repeat min max true (pattern_of part.entry)) }
        ensures groups { IfOk result (λ whole. groups_of_part whole ≡ groups_of_part part.entry) }
        ensures refused { IfErr result (λ e. e ≡ OutOfMemory) }
    {
        self.times(part, min, max, true)
    }

    /// The part from `min` to `max` times, without a limit if `max` is `None`, lazy: once less is preferred. Its groups are the same each time. With a
    /// `max` below `min` it is `min` times.
    ///
    /// # Errors
    ///
    /// Out of memory.
    pub fn repeat_lazy(
        &self,
        part: Part<'n>,
        min: usize,
        max: Option<usize>,
    ) -> Result<Part<'n>, Error>
        ensures part { IfOk result (λ whole. pattern_of whole ≡ Repeat min max false (pattern_of part.entry)) }
        ensures groups { IfOk result (λ whole. groups_of_part whole ≡ groups_of_part part.entry) }
        ensures refused { IfErr result (λ e. e ≡ OutOfMemory) }
    {
        self.times(part, min, max, false)
    }

    fn times(
        &self,
        part: Part<'n>,
        min: usize,
        max: Option<usize>,
        is_greedy: bool,
    ) -> Result<Part<'n>, Error>
        ensures part { IfOk result (λ whole. pattern_of whole ≡ Repeat min max is_greedy (pattern_of part.entry)) }
        ensures groups { IfOk result (λ whole. groups_of_part whole ≡ groups_of_part part.entry) }
        ensures refused { IfErr result (λ e. e ≡ OutOfMemory) }
    {
        let times = Times {
            min,
            max,
            is_greedy,
        };
        // By `|` and `&`, which make no branches, so the proof has no case for each.
        let may_be_empty = (min == 0) | part.may_be_empty;
        let loops_take_bytes = part.loops_take_bytes & (max.is_some() | !part.may_be_empty);
        let (tree, names) = part.into_tree_and_names();
        let tree = Tree::Repeat(times, Box::new(self.alloc, tree)?);
        Ok(Part {
            tree,
            names,
            may_be_empty,
            loops_take_bytes,
        })
    }
}
