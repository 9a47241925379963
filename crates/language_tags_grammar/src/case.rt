//! The case of a tag's text.
ghost use Rattle.std.specs.Prelude.{◌≡◌, ◌+◌, ◌≤◌, ◌++◌, length, IfOk, OnOk};
ghost use Rattle.language_tags_grammar.specs.Pieces.{lowercase, uppercase};
ghost use Rattle.language_tags_grammar.specs.Case.{in_case};

use crate::ends::Ends;
use std::alloc::{AllocError, Global};

/// A langtag in lower case, but for the script's first letter and the region.
pub fn in_case(alloc: Global, text: &[u8], ends: &Ends) -> Result<Vec<u8>, AllocError>
    requires script { ends.now.extlang ≤ ends.now.script }
    requires region { ends.now.script ≤ ends.now.region }
    requires within { ends.now.region ≤ length text.now }
    ensures { IfOk result (λ cased. cased.items ≡ in_case ends.now text.now) }
{
    let capital = ends.script.min(ends.extlang.saturating_add(2));
    let mut cased = Vec::with_capacity(alloc, text.len())?;
    push_lowercase(&mut cased, &text[..ends.extlang])?;
    push_uppercase(&mut cased, &text[ends.extlang..capital])?;
    push_lowercase(&mut cased, &text[capital..ends.script])?;
    push_uppercase(&mut cased, &text[ends.script..ends.region])?;
    push_lowercase(&mut cased, &text[ends.region..])?;
    Ok(cased)
}

pub fn push_lowercase(cased: &mut Vec<u8>, text: &[u8]) -> Result<(), AllocError>
    ensures { OnOk result (cased.new.items ≡ cased.old.items ++ lowercase text.now) }
{
    for byte in text {
        cased.push(byte.to_ascii_lowercase())?;
    }
    Ok(())
}

fn push_uppercase(cased: &mut Vec<u8>, text: &[u8]) -> Result<(), AllocError>
    ensures { OnOk result (cased.new.items ≡ cased.old.items ++ uppercase text.now) }
{
    for byte in text {
        cased.push(byte.to_ascii_uppercase())?;
    }
    Ok(())
}
