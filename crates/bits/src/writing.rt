// Writing bitvectors to the front of a memory.
ghost use Rattle.std.specs.Prelude.{◌≡◌, ℕ, ◌*◌, ◌≤◌, Bool, false, ◌||◌, List, length, ◌==◌};
ghost use Rattle.sets.specs.Lists.{over};
ghost use Rattle.sets.specs.Packing.{bytes_for, pack};

/// Writes the bitvector of `n` bits of which none is 1.
pub fn clear(bytes: &mut [u8], n: u32)
    requires { bytes_for n ≤ length bytes.old }
    ensures { bytes.new ≡ over (pack n (λ i. false)) bytes.old }
{
    bytes[..(n as usize).div_ceil(8)].fill(0);
}

/// Makes bit `i` 1, and keeps the other bits of the bitvector at the front, and what lies behind it.
pub fn put(bytes: &mut [u8], i: u32)
    requires first { 1 ≤ i }
    requires within { i ≤ 8 * length bytes.old }
    ensures bits { (n : ℕ) (f : ℕ → Bool) (old : List ℕ) → i ≤ n → bytes.old ≡ over (pack n f) old → bytes_for n ≤ length old
        → bytes.new ≡ over (pack n (λ j. j == i || f j)) old }
    ensures long { length bytes.new ≡ length bytes.old }
{
    let p = i - 1;
    bytes[(p / 8) as usize] |= 1 << (p % 8);
}

/// Writes the bitvector of `n` bits of which bit `i` is 1 exactly if `row` says so of `i`.
pub fn write<F: Fn(u32) -> bool>(bytes: &mut [u8], n: u32, row: F)
    requires room { bytes_for n ≤ length bytes.old }
    requires small { n ≤ 131072 }
    requires callable { (i : _) → 1 ≤ i → i ≤ n → F.pre row i }
    ensures { (f : ℕ → Bool) → ((i : _) (b : Bool) → 1 ≤ i → i ≤ n → F.post row i b → b ≡ f i) → bytes.new ≡ over (pack n f) bytes.old }
{
    clear(bytes, n);
    for i in 1..n + 1 {
        if row(i) {
            put(bytes, i);
        }
    }
}
