// Writing the two parts of a set to the fronts of two memories, from the bits of its bays, 64 at a time.
ghost use Rattle.std.specs.Prelude.{◌≡◌, ℕ, ◌+◌, ◌*◌, ◌<◌, ◌≤◌, List, Bool, length};
ghost use Rattle.bits.specs.Bits.{bit_at};
ghost use Rattle.pioneer.specs.Filling.{count_of, starts_part, sums_part};
ghost use Rattle.pioneer.specs.Written.{TellsBays, SumsTo};
ghost use Rattle.sets.specs.Lists.{over};
ghost use Rattle.sets.specs.Packing.{bytes_for};
ghost use Rattle.sets.specs.Search.{count_to};

use super::words::put_word;
use sets::Walking;

// Writes the first bays of the runs: members behind bays that are none.
fn write_starts(row: &[u8], starts: &mut [u8])
    requires few { length row.now ≤ 8192 }
    requires room { length row.now ≤ length starts.old }
    ensures { (s : List Bool) → TellsBays s row.now → starts.new ≡ over (starts_part s) starts.old }
{
    let front = &mut starts[..row.len()];
    let mut carry = 0;
    for w in 0..row.len().div_ceil(8) {
        let members = bits::row(row, 64 * w as u32);
        put_word(front, w, members & !(members << 1 | carry));
        carry = members >> 63;
    }
}

// Puts the number of each member of word `w` that no member follows, where so many come before the word; and tells how many have come with it.
fn put_ends(row: &[u8], w: u32, before: u32, sums: &mut [u8]) -> u32
    requires few { length row.now ≤ 8192 }
    requires within { 8 * w < length row.now }
    requires all { before ≡ count_to (bit_at row.now) (64 * w) }
    requires room { count_to (bit_at row.now) (8 * length row.now) ≤ 8 * length sums.old }
    ensures count { result ≡ count_to (bit_at row.now) (64 * w + 64) }
    ensures long { length sums.new ≡ length sums.old }
    ensures sums { (s : List Bool) (old : List ℕ) → TellsBays s row.now → bytes_for (count_of s) ≤ length old
        → SumsTo s old (64 * w) sums.old → SumsTo s old (64 * w + 64) sums.new }
{
    let members = bits::row(row, 64 * w);
    let mut ends = members & !bits::row(row, 64 * w + 1);
    while ends != 0 {
        let up_to_end = members & (u64::MAX >> (63 - ends.trailing_zeros()));
        bits::put(sums, before + up_to_end.count_ones());
        ends &= ends - 1;
    }
    before + members.count_ones()
}

// Writes the sums of the run lengths: at the last bay of a run so many members have come.
fn write_sums(row: &[u8], count: u32, sums: &mut [u8])
    requires few { length row.now ≤ 8192 }
    requires all { count ≡ count_to (bit_at row.now) (8 * length row.now) }
    requires room { bytes_for count ≤ length sums.old }
    ensures { (s : List Bool) → TellsBays s row.now → sums.new ≡ over (sums_part s) sums.old }
{
    bits::clear(sums, count);
    let mut before = 0;
    for w in 0..row.len().div_ceil(8) as u32 {
        before = put_ends(row, w, before, sums);
    }
}

// Writes both parts.
pub(crate) fn write_parts<S: Walking>(set: &S, count: u32, starts: &mut [u8], sums: &mut [u8])
    requires all { count ≡ count_of (S.Walking.meant set.now) }
    requires room_starts { length (starts_part (S.Walking.meant set.now)) ≤ length starts.old }
    requires room_sums { length (sums_part (S.Walking.meant set.now)) ≤ length sums.old }
    ensures starts { starts.new ≡ over (starts_part (S.Walking.meant set.now)) starts.old }
    ensures sums { sums.new ≡ over (sums_part (S.Walking.meant set.now)) sums.old }
{
    let mut memory = [0; 8192];
    let row = &mut memory[..(set.last() as usize).div_ceil(8)];
    set.bits(0, row);
    write_starts(row, starts);
    write_sums(row, count, sums);
}
