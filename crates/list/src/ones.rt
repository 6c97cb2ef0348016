// The ones of 64 bits, written as rising numbers.
ghost use Rattle.std.specs.Prelude.{◌≡◌, true, ◌+◌, ◌<◌, ◌≤◌, length};
ghost use Rattle.bits.specs.Words.{digit};
ghost use Rattle.sets.specs.Lists.{over};
ghost use Rattle.list.specs.Words.{ones_after};

// Writes the numbers after `before` of which `w` has a 1 to the front of the memory, which has room for them; so many are written.
pub(crate) fn write_ones(w: u64, before: u32, numbers: &mut [u16]) -> usize
    requires room { length (ones_after w before) ≤ length numbers.old }
    requires near { before < 65536 }
    requires small { (s : _) → s < 64 → digit w s ≡ true → before + s < 65535 }
    ensures count { result ≡ length (ones_after w before) }
    ensures wrote { numbers.new ≡ over (ones_after w before) numbers.old }
{
    let mut left = w;
    let mut n = 0;
    while left != 0 {
        numbers[n] = (before + left.trailing_zeros() + 1) as u16;
        n += 1;
        left &= left - 1;
    }
    n
}
