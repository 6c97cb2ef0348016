// Eight answers of a test as the digits of a byte.
ghost use Rattle.std.specs.Prelude.{◌≡◌, ℕ, ◌≤◌, Bool};
ghost use Rattle.sets.specs.Packing.{value_of};

// The answers from 1 to 8, the first as the lowest digit.
pub(crate) fn byte_of<F: Fn(u32) -> bool>(row: F) -> u8
    requires callable { (j : _) → 1 ≤ j → j ≤ 8 → F.pre row j }
    ensures { (f : ℕ → Bool) → ((j : _) (b : Bool) → 1 ≤ j → j ≤ 8 → F.post row j b → b ≡ f j) → result ≡ value_of f 0 8 }
{
    let mut byte = 0;
    for j in (0..8).rev() {
        byte = 2 * byte + u8::from(row(j + 1));
    }
    byte
}
