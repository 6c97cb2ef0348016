// Writing 64 bits at a time.
ghost use Rattle.std.specs.Prelude.{◌≡◌, ℕ, ◌+◌, ◌*◌, ◌≤◌, Bool, length};
ghost use Rattle.bits.specs.Words.{Holds};
ghost use Rattle.pioneer.specs.Packed.{FrontHolds};

// Writes the eight bytes of `x` from byte 8 `w` on, as far as there are bytes.
pub(crate) fn put_word(bytes: &mut [u8], w: usize, x: u64)
    requires within { 8 * w ≤ length bytes.old }
    ensures long { length bytes.new ≡ length bytes.old }
    ensures front { (f : ℕ → Bool) → Holds f (64 * w) 64 x → FrontHolds f (8 * w) bytes.old → FrontHolds f (8 * w + 8) bytes.new }
{
    let eight = x.to_le_bytes();
    let n = bytes.len() - 8 * w;
    if n >= 8 {
        bytes[8 * w..8 * w + 8].copy_from_slice(&eight);
    } else {
        bytes[8 * w..].copy_from_slice(&eight[..n]);
    }
}
