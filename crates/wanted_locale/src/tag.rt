ghost use Rattle.std.specs.Prelude.{◌≢◌, Some, IfOk, IfErr};
ghost use Rattle.wanted_locale.specs.Wanted.{HasCanon, HasIdentifier, IsTagCause, IsWantedOf};

use crate::subtags::locale;
use crate::{Tables, TagCause};
use icu_locale_core::DataLocale;
use language_tags::{LanguageTag, Registry};
use std::alloc::Global;
use unic_langid_impl::{LanguageIdentifier, LanguageIdentifierError, ParserError};

/// The locale that a tag asks for, not yet normalised.
pub fn wanted(alloc: Global, tables: &Tables, tag: &str) -> Result<DataLocale, TagCause>
    ensures ok { IfOk result (IsWantedOf tables.now.registry tag.now) }
    ensures err { IfErr result (λ cause. cause ≢ TagCause.NoMemory
        → IsTagCause tables.now.registry tag.now cause) }
{
    let identifier = identifier(alloc, &tables.registry, tag)?;
    match locale(&identifier) {
        Some(locale) => Ok(locale),
        None => Err(TagCause::Identifier(LanguageIdentifierError::ParserError(
            ParserError::InvalidLanguage,
        ))),
    }
}

/// The identifier that the tag's canonical form is without extensions and private use.
fn identifier(alloc: Global, registry: &Registry, tag: &str) -> Result<LanguageIdentifier, TagCause>
    ensures ok { IfOk result (HasIdentifier registry.now tag.now) }
    ensures err { IfErr result (λ cause. cause ≢ TagCause.NoMemory
        → IsTagCause registry.now tag.now cause) }
{
    let canonical = canonical(alloc, registry, tag)?;
    match LanguageIdentifier::from_bytes(alloc, canonical.without_extensions().as_bytes()) {
        Ok(identifier) => Ok(identifier),
        Err(fault) => Err(TagCause::of_identifier(fault)),
    }
}

/// The canonical form of the tag.
fn canonical(alloc: Global, registry: &Registry, tag: &str) -> Result<LanguageTag, TagCause>
    ensures ok { IfOk result (λ canonical. HasCanon registry.now tag.now (Some canonical)) }
    ensures err { IfErr result (λ cause. cause ≢ TagCause.NoMemory
        → IsTagCause registry.now tag.now cause) }
{
    let tag = match LanguageTag::parse(alloc, tag) {
        Ok(tag) => tag,
        Err(fault) => return Err(TagCause::of_parse(fault)),
    };
    match tag.canonicalize(alloc, registry) {
        Ok(canonical) => Ok(canonical),
        Err(fault) => Err(TagCause::of_canonical(fault)),
    }
}
