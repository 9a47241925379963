use crate::triple::Triple;

/// What one step does to a walk. What comes back is no longer kept.
#[derive(Clone, Copy)]
pub(crate) enum Rule {
    /// Nothing: the unknown locale is never left.
    Stay,
    /// The subdivision goes, and is kept.
    DropSubdivision,
    /// The variant goes, and is kept.
    DropVariant,
    /// Language, script and region become the parent's, and the kept variant comes back.
    GoToParent(Triple),
    /// The region goes, the script is the one without it, and the kept variant comes back.
    DropRegion,
    /// The same, and the region is kept.
    KeepRegion,
    /// Language and script go; where there is a region, the kept variant and subdivision come
    /// back.
    DropLanguage,
    /// The region goes, with nothing in its place.
    DropLastRegion,
    /// The script goes; where a region is kept, it comes back with all that is kept.
    DropLikelyScript,
    /// The language goes for the first script; where there is one, the kept variant comes back.
    GoToFirstScript,
    /// The script goes.
    DropScript,
}
