// Bytes that must be zero.
ghost use Rattle.std.specs.Prelude.{◌≡◌, length, replicate};
ghost use Rattle.kinds.specs.Kind.{Whether};

// Whether all bytes are zero.
pub(crate) fn zeros(bytes: &[u8]) -> bool
    ensures { Whether result (bytes.now ≡ replicate (length bytes.now) 0) }
{
    bytes.iter().all(|b| *b == 0)
}
