//! Writeable values that are made of others, and sinks over others.

pub use writeable_adapters::{
    Concat, CoreWriteAsPartsWrite, LossyWrap, TryWriteableInfallibleAsWriteable, WithPart,
    WriteableAsTryWriteableInfallible,
};
pub use writeable_replace::Replace;
