// A run of ones.
ghost use Rattle.std.specs.Prelude.{◌≡◌, ℕ, ◌*◌, ◌≤◌, Bool, ◌||◌, List, length};
ghost use Rattle.sets.specs.Lists.{over};
ghost use Rattle.sets.specs.Packing.{bytes_for, pack};
ghost use Rattle.bits.specs.Rows.{run};

use super::laying::{fill, lay, lay_whole};

/// Makes the bits `first` to `last` 1, and keeps the other bits of the bitvector at the front, and what lies behind it.
pub fn mark(bytes: &mut [u8], first: u32, last: u32)
    requires first { 1 ≤ first }
    requires within { last ≤ 8 * length bytes.old }
    ensures bits { (n : ℕ) (f : ℕ → Bool) (old : List ℕ) → last ≤ n → bytes.old ≡ over (pack n f) old → bytes_for n ≤ length old
        → bytes.new ≡ over (pack n (λ j. run first last j || f j)) old }
    ensures long { length bytes.new ≡ length bytes.old }
{
    if first > last {
        return;
    }
    let (p, q) = (first - 1, last - 1);
    let (low, high) = (8 * (p / 64) as usize, 8 * (q / 64) as usize);
    let head = u64::MAX << (p % 64);
    let tail = u64::MAX >> (63 - q % 64);
    if low == high {
        lay(bytes, low, head & tail);
    } else {
        lay_whole(bytes, low, head);
        fill(bytes, low + 8, high);
        lay(bytes, high, tail);
    }
}
