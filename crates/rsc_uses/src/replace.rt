//! Texts with matches replaced.
ghost use Rattle.std.specs.Prelude.{◌≡◌, ◌∷◌, [], List, IfOk, IfErr, None};
ghost use Rattle.rsc_search.specs.Inputs.{whole};
ghost use Rattle.rsc_search.specs.Matches.{Matched};
ghost use Rattle.rsc_engine.specs.declared.error.Error.TheVariants.{OutOfMemory};
ghost use Rattle.rsc_engine.specs.Searches.{search_in};
ghost use Rattle.rsc_engine.specs.NextMatches.{AreAllMatches};
ghost use Rattle.rsc_engine.specs.Parts.{pattern_of, groups_as_pattern};
ghost use Rattle.rsc_engine.specs.Refusals.{IsBuildError};
ghost use Rattle.rsc_engine.specs.Sizes.{most_states};
ghost use Rattle.rsc_replace.specs.PartReplacements.{IsPartReplaced, subject_of_text};
ghost use Rattle.rsc_uses.specs.Masked.{masked, IsFirstMasked};

use rsc_engine::{AsciiCompatible, Error, Part, Program};
use rsc_look::WordClass;
use rsc_replace::{laws, replace_all, replace_part, replacen};
use std::alloc::Global;

const MASK: [u8; 3] = [b'*', b'*', b'*'];

/// The text with `***` where each match of a program is. The mask has no `$`, so whatever a match's groups are, it stands for itself.
pub fn mask_all<W: WordClass + AsciiCompatible>(
    alloc: Global,
    program: &Program<W>,
    text: &[u8],
) -> Result<Vec<u8>, Error>
    ensures masked { IfOk result (λ out. (all : List Matched)
        × AreAllMatches W.word_chars (record { program = program.now; input = whole text.now; last = None }) all
        × (out.items ≡ masked text.now (0x2A ∷ 0x2A ∷ 0x2A ∷ []) 0 all)) }
    ensures refused { IfErr result (λ e. e ≡ OutOfMemory) }
{
    laws::a_template_without_dollars_is_itself();
    let out = replace_all(alloc, program, text, &MASK)?;
    Ok(out)
}

/// The text with `***` where the first match of a program is; the text as it is, if there is no match.
pub fn mask_first<W: WordClass + AsciiCompatible>(
    alloc: Global,
    program: &Program<W>,
    text: &[u8],
) -> Result<Vec<u8>, Error>
    ensures masked { IfOk result (λ out.
        IsFirstMasked (search_in W.word_chars program.now (whole text.now)) text.now (0x2A ∷ 0x2A ∷ 0x2A ∷ []) out.items) }
    ensures refused { IfErr result (λ e. e ≡ OutOfMemory) }
{
    laws::a_template_without_dollars_is_itself();
    let out = replacen(alloc, program, text, 1, &MASK)?;
    Ok(out)
}

/// The text with a space where each match of a part is.
pub fn blank_out<W: WordClass + AsciiCompatible>(
    alloc: Global,
    word_class: W,
    part: Part<'_>,
    text: &[u8],
) -> Result<Vec<u8>, Error>
    ensures replaced { IfOk result (λ out. IsPartReplaced (subject_of_text (W.word_chars word_class) text.now)
        (groups_as_pattern part.entry) (pattern_of part.entry) (0x20 ∷ []) out.items) }
    ensures refused { IfErr result (IsBuildError most_states (pattern_of part.entry ∷ []) (groups_as_pattern part.entry ∷ [])) }
{
    let out = replace_part(alloc, word_class, part, text, b" ")?;
    Ok(out)
}
