ghost use Rattle.std.specs.Prelude.{◌≡◌, Some, IfOk, IfErr, IsSomeAnd};
ghost use Rattle.serde_json.specs.Data.{string};
ghost use Rattle.serde_json.specs.Find.{as_str};
ghost use Rattle.serde_json.specs.View.{view};
ghost use Rattle.unic_langid_impl.specs.Identifier.{print};
ghost use Rattle.unic_langid_impl.specs.JsonFaults.{IsJsonFault, json_error_of};
ghost use Rattle.unic_langid_impl.specs.Reading.{id_of};
ghost use Rattle.unic_langid_impl.specs.Words.{words_of_json};

use crate::parser::parse_language_identifier;
use crate::{LanguageIdentifier, ParserError};
use serde_json::Value;
use std::alloc::{AllocError, Global};
use thiserror::Error;

/// Why a JSON value is no identifier.
#[derive(Clone, Copy, Debug, PartialEq, Eq, Error)]
pub enum IdJsonError {
    /// It is no string.
    #[error("not a text")]
    NotText,
    /// The parser refused its text.
    #[error("{0}")]
    Parse(ParserError),
    /// Memory ran out.
    #[error("out of memory")]
    NoMemory,
}

impl IdJsonError {
    /// The error in words.
    pub fn text(&self) -> &'static str
        ensures { result.now ≡ words_of_json self.now }
    {
        match self {
            IdJsonError::NotText => "not a text",
            IdJsonError::Parse(error) => error.text(),
            IdJsonError::NoMemory => "out of memory",
        }
    }

    /// The error of the parser as one of a JSON value.
    fn of_parser(error: ParserError) -> IdJsonError
        ensures { result ≡ json_error_of error }
    {
        match error {
            ParserError::NoMemory => IdJsonError::NoMemory,
            error => IdJsonError::Parse(error),
        }
    }
}

impl LanguageIdentifier {
    /// The identifier that the text of a JSON string is.
    pub fn from_json(alloc: Global, value: &Value) -> Result<Self, IdJsonError>
        ensures ok { IfOk result (λ i. IsSomeAnd (as_str (view value.now)) (λ text. id_of text i)) }
        ensures err { IfErr result (IsJsonFault (as_str (view value.now))) }
    {
        let Some(text) = value.as_str() else {
            return Err(IdJsonError::NotText);
        };
        from_text(alloc, text.as_bytes())
    }

    /// The printed text as a JSON string.
    pub fn to_json(&self, alloc: Global) -> Result<Value, AllocError>
        ensures { IfOk result (λ value. view value ≡ string (print self.now)) }
    {
        Ok(Value::String(self.to_string(alloc)?))
    }
}

/// The identifier that the text of a JSON string is.
fn from_text(alloc: Global, text: &[u8]) -> Result<LanguageIdentifier, IdJsonError>
    ensures ok { IfOk result (id_of text.now) }
    ensures err { IfErr result (IsJsonFault (Some text.now)) }
{
    parse_language_identifier(alloc, text).map_err(IdJsonError::of_parser)
}
