use icu_locale_fallback::LocaleFallbacker;
use language_tags::Registry;

/// What tags and locales are looked up in: the registry of subtags, and the tables of fallback.
#[derive(Drop)]
pub struct Tables {
    pub registry: Registry,
    pub fallbacker: LocaleFallbacker,
}
