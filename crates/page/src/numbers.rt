// Numbers in the bytes of a page, the lowest byte first: one function for each width. Bytes cut by one function for any width would leave each caller to turn them, as `from_le_bytes` of `u16` and of `u32` are two functions without a trait.
ghost use Rattle.std.specs.Prelude.{◌≡◌, ℕ, ◌+◌, ◌^◌, ◌<◌, ◌≤◌, length, take, drop};
ghost use Rattle.kinds.specs.Bytes.{bytes as bytes_of};

// The number in the two bytes at a place.
pub(crate) fn two_bytes(bytes: &[u8], at: usize) -> u16
    requires { at + 2 ≤ length bytes.now }
    ensures form { bytes_of 2 result ≡ take 2 (drop at bytes.now) }
    ensures fits { result < 65536 }
{
    u16::from_le_bytes([bytes[at], bytes[at + 1]])
}

// The number in the four bytes at a place.
pub(crate) fn four_bytes(bytes: &[u8], at: usize) -> u32
    requires { at + 4 ≤ length bytes.now }
    ensures form { bytes_of 4 result ≡ take 4 (drop at bytes.now) }
    ensures fits { result < 2 ^ 32 }
{
    u32::from_le_bytes([bytes[at], bytes[at + 1], bytes[at + 2], bytes[at + 3]])
}
