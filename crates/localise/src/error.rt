ghost use Rattle.std.specs.Prelude.{◌≡◌, ◌≢◌};
ghost use Rattle.localise.specs.Words.{words_of_cause, words_of_loops, words_of_refusal};

use gettext::Error;
use icu_list::DataError;
use thiserror::Error as ErrorType;
use wanted_locale::TagCause;

/// What is wrong with a bundle.
#[derive(Clone, Copy, Debug, PartialEq, Eq, ErrorType)]
pub enum BundleCause {
    /// Its tag asks for no locale.
    #[error("{0}")]
    Tag(TagCause),
    /// Its MO file isn't one.
    #[error("{0}")]
    Mo(Error),
    /// A text of its list is no pattern.
    #[error("{0}")]
    List(DataError),
}

impl BundleCause {
    /// The error that it carries, in words.
    pub fn text(&self) -> &'static str
        ensures { result.now ≡ words_of_cause self.now }
    {
        match self {
            BundleCause::Tag(cause) => cause.text(),
            BundleCause::Mo(error) => error.text(),
            BundleCause::List(error) => error.text(),
        }
    }
}

/// Why no text was given. Bundles are numbered from 0.
#[derive(Clone, Copy, Debug, PartialEq, Eq, ErrorType)]
pub enum RenderError {
    /// The bundle with this number is the first that is faulty.
    #[error("bundle {0}: {1}")]
    Bundle(usize, BundleCause),
    /// The bundle with this number is the first that is faulty: it is for the locale of an earlier
    /// one.
    #[error("bundle {0}: locale of an earlier bundle")]
    DuplicateLocale(usize),
    /// A text of the root's list is no pattern.
    #[error("root patterns: {0}")]
    Root(DataError),
    /// The request's tag asks for no locale.
    #[error("{0}")]
    Tag(TagCause),
    /// The walk of the request comes round before a locale translates.
    #[error("fallback loops")]
    ChainLoops,
    /// The sink refused.
    #[error("write fault")]
    Sink,
    /// Memory ran out.
    #[error("out of memory")]
    NoMemory,
}

impl RenderError {
    /// The error that it carries in words, or its own.
    pub fn text(&self) -> &'static str
        ensures { result.now ≡ words_of_refusal self.now }
    {
        match self {
            RenderError::Bundle(_, cause) => cause.text(),
            RenderError::DuplicateLocale(_) => "locale of an earlier bundle",
            RenderError::Root(error) => error.text(),
            RenderError::Tag(cause) => cause.text(),
            RenderError::ChainLoops => "fallback loops",
            RenderError::Sink => "write fault",
            RenderError::NoMemory => "out of memory",
        }
    }
}

/// The walk from a wanted locale comes round before a locale translates.
#[derive(Clone, Copy, Debug, PartialEq, Eq, ErrorType)]
#[error("fallback loops")]
pub struct ChainLoops;

impl ChainLoops {
    /// The error in words.
    pub fn text(&self) -> &'static str
        ensures { result.now ≡ words_of_loops }
    {
        "fallback loops"
    }
}

/// A bundle whose tag has this cause.
pub(crate) fn in_tag(number: usize, cause: TagCause) -> RenderError
    ensures memory { cause ≡ TagCause.NoMemory → result ≡ RenderError.NoMemory }
    ensures own { cause ≢ TagCause.NoMemory
        → result ≡ RenderError.Bundle number (BundleCause.Tag cause) }
{
    match cause {
        TagCause::NoMemory => RenderError::NoMemory,
        cause => RenderError::Bundle(number, BundleCause::Tag(cause)),
    }
}

/// A bundle whose MO file has this error.
pub(crate) fn in_catalog(number: usize, error: Error) -> RenderError
    ensures memory { error ≡ Error.NoMemory → result ≡ RenderError.NoMemory }
    ensures own { error ≢ Error.NoMemory
        → result ≡ RenderError.Bundle number (BundleCause.Mo error) }
{
    match error {
        Error::NoMemory => RenderError::NoMemory,
        error => RenderError::Bundle(number, BundleCause::Mo(error)),
    }
}

/// A bundle whose list has this error.
pub(crate) fn in_list(number: usize, error: DataError) -> RenderError
    ensures memory { error ≡ DataError.NoMemory → result ≡ RenderError.NoMemory }
    ensures own { error ≢ DataError.NoMemory
        → result ≡ RenderError.Bundle number (BundleCause.List error) }
{
    match error {
        DataError::NoMemory => RenderError::NoMemory,
        error => RenderError::Bundle(number, BundleCause::List(error)),
    }
}

/// The root's list has this error.
pub(crate) fn in_root(error: DataError) -> RenderError
    ensures memory { error ≡ DataError.NoMemory → result ≡ RenderError.NoMemory }
    ensures own { error ≢ DataError.NoMemory → result ≡ RenderError.Root error }
{
    match error {
        DataError::NoMemory => RenderError::NoMemory,
        error => RenderError::Root(error),
    }
}

/// The request's tag has this cause.
pub(crate) fn in_request(cause: TagCause) -> RenderError
    ensures memory { cause ≡ TagCause.NoMemory → result ≡ RenderError.NoMemory }
    ensures own { cause ≢ TagCause.NoMemory → result ≡ RenderError.Tag cause }
{
    match cause {
        TagCause::NoMemory => RenderError::NoMemory,
        cause => RenderError::Tag(cause),
    }
}
