// Two rows of bits in bytes, passed 64 bits at a time.
ghost use Rattle.std.specs.Prelude.{◌≡◌, ℕ, ◌+◌, ◌-◌, ◌*◌, ◌%◌, ◌^◌, ◌<◌, ◌≤◌, min, List, length};
ghost use Rattle.bits.specs.Bits.{bit_at};
ghost use Rattle.sets.specs.Lists.{over};
ghost use Rattle.sets.specs.Search.{count_to};
ghost use Rattle.strides.specs.Passage.{Passage};
ghost use Rattle.strides.specs.Strides.{row_of, numbered, both, begins, after};

use super::numbers::write_ones;
use super::passed::Passed;
use super::stance::pass;
use super::standing::Stance;
use bits::whole_word;

// The first `n` bits, of which there are at most 64.
fn front(word: u64, n: u32) -> u64
    requires { 1 ≤ n }
    ensures { result ≡ word % 2 ^ min n 64 }
{
    word & (u64::MAX >> (64 - n.min(64)))
}

// Passes 64 bits, of which those up to the `left`-th tell of stretches.
fn pass_word(
    passed: Passed,
    free: u64,
    class: u64,
    first: u32,
    left: u32,
    out: &mut [u32],
) -> Passed
    requires room { 64 ≤ length out.old }
    requires small { first + left < 2 ^ 31 }
    requires more { passed.bits < left }
    requires written { passed.written ≤ passed.bits }
    requires starts { passed.starts ≤ passed.bits }
    ensures bits { result.bits ≡ passed.bits + 64 }
    ensures stance { result.stance ≡ after (row_of free) (row_of class) passed.stance 64 }
    ensures writes { out.new ≡ over (numbered (both (row_of free) (row_of class)) (first + passed.bits) 64) out.old }
    ensures written { result.written ≡ passed.written + length (numbered (both (row_of free) (row_of class)) (first + passed.bits) 64) }
    ensures starts { result.starts ≡ passed.starts + count_to (begins (row_of free) (row_of class) passed.stance) (min (left - passed.bits) 64) }
{
    let (starts, stance) = pass(passed.stance, free, class);
    let written = write_ones(free & class, first + passed.bits, out);
    Passed {
        bits: passed.bits + 64,
        written: passed.written + written,
        starts: passed.starts + front(starts, left - passed.bits).count_ones(),
        stance,
    }
}

// Passes words of which no bit is in both rows, for as long as another word follows.
fn pass_apart(passed: Passed, free: &[u8], class: &[u8], left: u32) -> Passed
    requires more { passed.bits < left }
    requires words { passed.bits % 64 ≡ 0 }
    requires starts { passed.starts ≤ passed.bits }
    requires small { left < 2 ^ 31 }
    requires free { left ≤ 8 * length free.now }
    requires class { left ≤ 8 * length class.now }
    ensures going { (s : Stance) (first : ℕ) (old out : List ℕ) → 64 + passed.written ≤ length out
        → Passage (bit_at free.now) (bit_at class.now) s first left old passed out → Passage (bit_at free.now) (bit_at class.now) s first left old result out }
    ensures written { result.written ≡ passed.written }
    ensures on { passed.bits ≤ result.bits }
    ensures more { result.bits < left }
{
    let mut passed = passed;
    while passed.bits + 64 < left {
        let j = (passed.bits / 8) as usize;
        let in_free = whole_word(free, j);
        let in_class = whole_word(class, j);
        if in_free & in_class != 0 {
            return passed;
        }
        let (starts, stance) = pass(passed.stance, in_free, in_class);
        passed = Passed {
            bits: passed.bits + 64,
            written: passed.written,
            starts: passed.starts + starts.count_ones(),
            stance,
        };
    }
    passed
}

/// Passes the bits of the rows, 64 at a time, until the first `left` ones are passed or fewer than 64 numbers fit into the memory, and
/// writes there the numbers of the bits that are in both. Of the last word all bits are passed; the stretches are those that begin up to
/// the `left`-th bit.
pub fn pass_rows(
    stance: Stance,
    free: &[u8],
    class: &[u8],
    first: u32,
    left: u32,
    out: &mut [u32],
) -> Passed
    requires small { first + left < 2 ^ 31 }
    requires free { left ≤ 8 * length free.now }
    requires class { left ≤ 8 * length class.now }
    requires whole { (length free.now % 8 ≡ 0) × (length class.now % 8 ≡ 0) }
    ensures passage { Passage (bit_at free.now) (bit_at class.now) stance first left out.old result out.new }
    ensures some { 1 ≤ left → 64 ≤ length out.old → 64 ≤ result.bits }
    ensures stops { result.bits < left → length out.old < 64 + result.written }
{
    let mut passed = Passed {
        bits: 0,
        written: 0,
        starts: 0,
        stance,
    };
    while passed.bits < left && out.len() - passed.written as usize >= 64 {
        passed = pass_apart(passed, free, class, left);
        let j = (passed.bits / 8) as usize;
        passed = pass_word(
            passed,
            whole_word(free, j),
            whole_word(class, j),
            first,
            left,
            &mut out[passed.written as usize..],
        );
    }
    passed
}
