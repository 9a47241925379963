ghost use Rattle.std.specs.Prelude.{◌≡◌, ◌+◌, ◌<◌, ◌≤◌, ◌^◌, length, vec_len, IfOk, IfErr, OnOk};
ghost use Rattle.std.specs.Prelude.{IfSome, IsErrOf};
ghost use Rattle.std.specs.Io.KnownBytes.{Consumes};
ghost use Rattle.reading.specs.Reading.{most_bytes, IsReadToEnd, IsReadError};

use crate::ReadError;
use std::alloc::Global;
use writeable_core::Source;

/// The most bytes that are read.
pub const MOST_BYTES: usize = 67_108_864;

/// How many bytes a read asks for.
const PIECE: usize = 65_536;

/// All bytes that a source has left, if they are no more than [`MOST_BYTES`].
///
/// A read that fails ends it: neither bytes nor [`ReadError::TooLong`] come after one. What was
/// read before an error is lost.
pub fn read_all<S: Source>(alloc: Global, source: &mut S) -> Result<Vec<u8>, ReadError>
    ensures all { IfOk result (λ bytes. IfSome (S.left source.old) (λ told. bytes.items ≡ told)) }
    ensures within { IfOk result (λ bytes. length bytes.items ≤ most_bytes) }
    ensures read_to_end { OnOk result (IsReadToEnd S.left S.ended S.faults source.old source.new) }
    ensures err { IfErr result (IsReadError most_bytes (S.faults source.old) (S.faults source.new)
        (S.left source.old)) }
    ensures no_fault { IsErrOf result ReadError.TooLong
        → S.faults source.new ≡ S.faults source.old }
    ensures later { S.faults source.old ≤ S.faults source.new }
{
    let mut piece = zeros(alloc, PIECE)?;
    read_turns(alloc, source, &mut piece, MOST_BYTES)
}

fn zeros(alloc: Global, count: usize) -> Result<Vec<u8>, ReadError>
    ensures ok { IfOk result (λ piece. vec_len piece ≡ count) }
    ensures err { IfErr result (λ e. e ≡ ReadError.NoMemory) }
{
    vec![in alloc; 0u8; count].map_err(|_| ReadError::NoMemory)
}

/// Reads a piece a turn, until nothing is left. Each turn but the last gives a byte at least.
fn read_turns<S: Source>(
    alloc: Global,
    source: &mut S,
    piece: &mut [u8],
    most: usize,
) -> Result<Vec<u8>, ReadError>
    requires room { 0 < length piece.old }
    requires small { most + 2 < 2 ^ 64 }
    ensures all { IfOk result (λ bytes. Consumes (S.left source.old)
        (S.left source.new) bytes.items) }
    ensures within { IfOk result (λ bytes. length bytes.items ≤ most) }
    ensures read_to_end { OnOk result (IsReadToEnd S.left S.ended S.faults source.old source.new) }
    ensures err { IfErr result (IsReadError most (S.faults source.old) (S.faults source.new)
        (S.left source.old)) }
    ensures no_fault { IsErrOf result ReadError.TooLong
        → S.faults source.new ≡ S.faults source.old }
    ensures later { S.faults source.old ≤ S.faults source.new }
{
    let mut bytes = Vec::new(alloc);
    for _turn in 0..most + 2 {
        let count = source.read(piece).map_err(|_| ReadError::Fault)?;
        if count == 0 {
            return Ok(bytes);
        }
        if count > most - bytes.len() {
            return Err(ReadError::TooLong);
        }
        bytes
            .extend_from_slice(&piece[..count])
            .map_err(|_| ReadError::NoMemory)?;
    }
    unreachable!()
}
