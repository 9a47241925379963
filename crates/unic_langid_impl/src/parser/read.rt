ghost use Rattle.std.specs.Prelude.{◌≡◌, ℕ, false, List, [], ◌++◌, IfOk, IfErr, OnOk, OnErr};
ghost use Rattle.std.specs.Option.{option_map};
ghost use Rattle.tinystr.specs.Shapes.{is_region, is_script};
ghost use Rattle.tinystr.specs.Text.{titlecase};
ghost use Rattle.unic_langid_impl.specs.Reading.{IsParserFault, Reads, Refuses, id_of};
ghost use Rattle.unic_langid_impl.specs.Subtags.{uppercase};
ghost use Rattle.unic_langid_impl.specs.Taking.{BeginsWithNoVariant, TakesVariants, left_behind};
ghost use Rattle.unic_langid_impl.specs.Taking.{taken};

use crate::identifier::ascending;
use crate::parser::SubtagPieces;
use crate::subtags::{Language, Region, Script, Variant};
use crate::{LanguageIdentifier, ParserError};
use std::alloc::{AllocError, Global};

/// The identifier that these bytes are.
pub fn parse_language_identifier(alloc: Global, t: &[u8]) -> Result<LanguageIdentifier, ParserError>
    ensures ok { IfOk result (id_of t.now) }
    ensures err { IfErr result (IsParserFault t.now) }
{
    parse_language_identifier_from_iter(alloc, &mut SubtagPieces::new(t), false)
}

/// The identifier that the pieces begin with; where `allow_extension` is false it must be all of
/// them.
///
/// Where no piece is left it is the identifier without subtags. The pieces that were read are taken
/// off.
pub fn parse_language_identifier_from_iter(
    alloc: Global,
    iter: &mut SubtagPieces,
    allow_extension: bool,
) -> Result<LanguageIdentifier, ParserError>
    ensures ok { IfOk result (Reads iter.old iter.new) }
    ensures whole { OnOk result (allow_extension ≡ false → iter.new ≡ []) }
    ensures err { IfErr result (Refuses allow_extension iter.old iter.new) }
{
    let language = Language::try_from_option(iter.next())?;
    let script = read_script(iter);
    let region = read_region(iter);
    let variants = match read_variants(alloc, iter) {
        Ok(variants) => ascending(variants),
        Err(_) => return Err(ParserError::NoMemory),
    };
    if !allow_extension && iter.peek().is_some() {
        return Err(ParserError::InvalidSubtag);
    }
    Ok(LanguageIdentifier::of_ascending(language, script, region, variants))
}

/// The next piece, if it is a script.
fn read_script(iter: &mut SubtagPieces) -> Option<Script>
    ensures script { result ≡ option_map titlecase (taken is_script titlecase iter.old) }
    ensures left { iter.new ≡ left_behind is_script titlecase iter.old }
{
    let script = Script::from_bytes(iter.peek()?).ok()?;
    iter.next();
    Some(script)
}

/// The next piece, if it is a region.
fn read_region(iter: &mut SubtagPieces) -> Option<Region>
    ensures region { result ≡ option_map uppercase (taken is_region uppercase iter.old) }
    ensures left { iter.new ≡ left_behind is_region uppercase iter.old }
{
    let region = Region::from_bytes(iter.peek()?).ok()?;
    iter.next();
    Some(region)
}

/// The next pieces, as far as they are variants.
fn read_variants(alloc: Global, iter: &mut SubtagPieces) -> Result<Vec<Variant>, AllocError>
    ensures ok { IfOk result (λ variants. TakesVariants iter.old variants.items iter.new) }
    ensures stop { OnOk result (BeginsWithNoVariant iter.new) }
    ensures err { OnErr result ((front : List (List ℕ)) × (front ++ iter.new ≡ iter.old)) }
{
    let mut variants = Vec::new(alloc);
    while let Some(piece) = iter.peek() {
        let Ok(variant) = Variant::from_bytes(piece) else {
            break;
        };
        variants.push(variant)?;
        iter.next();
    }
    Ok(variants)
}
