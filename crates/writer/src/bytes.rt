// Bytes into a buffer.
ghost use Rattle.std.specs.Prelude.{◌≡◌, ◌+◌, ◌<◌, ◌≤◌, [], ◌∷◌, length};
ghost use Rattle.writer.specs.Written.{pasted};

// Writes one byte at a place of the buffer.
pub(crate) fn put_byte(out: &mut [u8], at: usize, byte: u8)
    requires { at < length out.old }
    ensures { out.new ≡ pasted at (byte ∷ []) out.old }
{
    out[at] = byte;
}

// Writes some bytes, and answers the place behind them.
pub(crate) fn put_bytes(out: &mut [u8], at: usize, bytes: &[u8]) -> usize
    requires { at + length bytes.now ≤ length out.old }
    ensures bytes { out.new ≡ pasted at bytes.now out.old }
    ensures end { result ≡ at + length bytes.now }
{
    let end = at + bytes.len();
    out[at..end].copy_from_slice(bytes);
    end
}
