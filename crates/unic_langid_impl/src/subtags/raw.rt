//! The number of a subtag: the little-endian reading of its bytes, with zeros behind them.
ghost use Rattle.std.specs.Prelude.{◌≡◌, ◌≤◌, ◌==◌, length, position};
ghost use Rattle.std.specs.Int.{w32, w64};
ghost use Rattle.tinystr.specs.Text.{unpadded};
ghost use Rattle.unic_langid_impl.specs.Subtags.{raw};

/// The number of at most four bytes.
pub(super) fn number_u32(text: &[u8]) -> u32
    requires { length text.now ≤ 4 }
    ensures { result ≡ raw w32 text.now }
{
    let mut bytes = [0; 4];
    bytes[..text.len()].copy_from_slice(text);
    u32::from_le_bytes(bytes)
}

/// The number of at most eight bytes.
pub(super) fn number_u64(text: &[u8]) -> u64
    requires { length text.now ≤ 8 }
    ensures { result ≡ raw w64 text.now }
{
    let mut bytes = [0; 8];
    bytes[..text.len()].copy_from_slice(text);
    u64::from_le_bytes(bytes)
}

/// What stands before the first NUL.
pub(super) fn without_zeros(bytes: &[u8]) -> &[u8]
    ensures { result.now ≡ unpadded bytes.now }
{
    match first_zero(bytes) {
        Some(end) => &bytes[..end],
        None => bytes,
    }
}

/// Where the first NUL stands.
fn first_zero(bytes: &[u8]) -> Option<usize>
    ensures { result ≡ position (λ byte. byte == 0) bytes.now }
{
    bytes.iter().position(|byte| *byte == 0)
}
