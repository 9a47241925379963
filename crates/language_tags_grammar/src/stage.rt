ghost use Rattle.std.specs.Prelude.{◌≡◌, ◌&&◌, ◌==◌, length};

/// What the latest piece of a langtag was.
#[derive(Clone, Copy, Debug, PartialEq, Eq)]
pub(crate) enum Stage {
    /// There is none.
    Start,
    /// A language of four letters or more.
    LongLanguage,
    /// A shorter language, with so many extlangs behind it.
    Extlangs(u8),
    Script,
    Region,
    Variant,
    /// The singleton of an extension.
    Singleton,
    /// A piece behind it.
    Extension,
    /// The `x` of private use.
    X,
    /// A piece behind it.
    Private,
}
