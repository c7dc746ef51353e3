// Bytes that are copied into the caller's memory.
ghost use Rattle.std.specs.Prelude.{◌≡◌, length, pos};
ghost use Rattle.dine_ffi.specs.Written.{over_front};

/// Copies the bytes to the front of `out`, or as many as it has. Returns the number of bytes.
pub(crate) fn copy_bytes(bytes: &[u8], out: &mut [u8]) -> i64
    ensures number { result ≡ pos (length bytes.now) }
    ensures bytes { out.new ≡ over_front bytes.now out.old }
{
    let count = bytes.len().min(out.len());
    out[..count].copy_from_slice(&bytes[..count]);
    bytes.len() as i64
}
