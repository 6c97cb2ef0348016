// Changes of a whole memory of bits.
ghost use Rattle.std.specs.Prelude.{◌≡◌, ℕ, ◌*◌, Bool, not, length};
ghost use Rattle.sets.specs.Packing.{pack};
ghost use Rattle.bits.specs.Rows.{first_bits};

/// Makes each bit after the `n`-th 0.
pub fn cut(bytes: &mut [u8], n: u32)
    ensures { (f : ℕ → Bool) → bytes.old ≡ pack (8 * length bytes.old) f → bytes.new ≡ pack (8 * length bytes.old) (first_bits n f) }
{
    let j = (n / 8) as usize;
    if j < bytes.len() {
        bytes[j] &= (1 << (n % 8)) - 1;
        bytes[j + 1..].fill(0);
    }
}

/// Turns each bit: those that are 1 become 0, and those that are 0 become 1.
pub fn turn(bytes: &mut [u8])
    ensures { (f : ℕ → Bool) → bytes.old ≡ pack (8 * length bytes.old) f → bytes.new ≡ pack (8 * length bytes.old) (λ j. not (f j)) }
{
    for byte in bytes.iter_mut() {
        *byte = !*byte;
    }
}
