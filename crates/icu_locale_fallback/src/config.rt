/// What a walk holds on to longest.
#[derive(Clone, Copy, Debug, PartialEq, Eq)]
pub enum LocaleFallbackPriority {
    /// The language: the common case.
    Language,
    /// The script, as for the choice of a font.
    Script,
    /// The region, as for units and the first day of the week.
    Region,
}

impl Default for LocaleFallbackPriority {
    ghost use Rattle.std.specs.Prelude.{◌≡◌};
    ghost use Rattle.icu_locale_fallback.specs.declared.config.LocaleFallbackPriority.TheVariants.{Language};

    ghost is_default = { λ priority. priority ≡ Language };

    fn default() -> Self {
        LocaleFallbackPriority::Language
    }
}

/// How a walk goes.
#[derive(Clone, Copy, Debug, PartialEq, Eq)]
pub struct LocaleFallbackConfig {
    /// What the walk holds on to longest.
    pub priority: LocaleFallbackPriority,
}

impl Default for LocaleFallbackConfig {
    ghost use Rattle.std.specs.Prelude.{◌≡◌};
    ghost use Rattle.icu_locale_fallback.specs.declared.config.LocaleFallbackPriority.TheVariants.{Language};

    ghost is_default = { λ config. config.priority ≡ Language };

    fn default() -> Self {
        LocaleFallbackConfig {
            priority: LocaleFallbackPriority::default(),
        }
    }
}
