// The bits of the bays, made 64 at a time from the runs that begin among them and from the last one before.
ghost use Rattle.std.specs.Prelude.{◌≡◌, ◌+◌, ◌*◌, ◌<◌, ◌≤◌, ◌&&◌, length, nat_le, nat_lt};
ghost use Rattle.bits.specs.Words.{Holds};
ghost use Rattle.pioneer.specs.Found.{member_of, WalkedTo};
ghost use Rattle.pioneer.specs.Runs.{set_of};
ghost use Rattle.sets.specs.Packing.{pack, member_after};

use super::index::Pioneer;
use super::ones::Ones;
use super::words::put_word;

// How far a walk through the runs has come: the first bay behind the last run that has begun, and the sums behind that of this run.
#[derive(Clone, Copy)]
struct Walk<'a> {
    behind: u32,
    sums: Ones<'a>,
}

// Of the 64 bays after `base` those from `first` on, and before `behind`.
fn stretch(base: u32, first: u32, behind: u32) -> u64
    requires low { base < first }
    requires high { first ≤ base + 64 }
    requires few { base ≤ 65535 }
    ensures { Holds (λ i. nat_le first i && nat_lt i behind) base 64 result }
{
    let ones = u64::MAX << (first - base - 1);
    let n = behind.saturating_sub(base + 1);
    if n < 64 {
        ones & ((1u64 << n) - 1)
    } else {
        ones
    }
}

impl<'a> Pioneer<'a> {
    // The walk to bay `i`.
    fn walk(&self, i: u32) -> Walk<'a>
        requires { i ≤ self.now.last }
        ensures rows { result.sums.bytes.now ≡ self.now.sums.now }
        ensures walked { WalkedTo self.now i result.sums.place result.behind }
    {
        match self.begun(i) {
            Some(run) => Walk {
                behind: run.behind(),
                sums: Ones::after(self.sums, run.before + run.length),
            },
            None => Walk {
                behind: 0,
                sums: Ones::after(self.sums, 0),
            },
        }
    }

    // The bits of the 64 bays after `base`, to which the walk has come, and which it passes.
    fn word(&self, base: u32, walk: &mut Walk<'a>) -> u64
        requires within { base < self.now.last }
        requires rows { walk.old.sums.bytes.now ≡ self.now.sums.now }
        requires walked { WalkedTo self.now base walk.old.sums.place walk.old.behind }
        ensures bits { Holds (member_of self.now) base 64 result }
        ensures rows { walk.new.sums.bytes.now ≡ self.now.sums.now }
        ensures walked { WalkedTo self.now (base + 64) walk.new.sums.place walk.new.behind }
    {
        let mut left = bits::row(self.starts, base);
        let mut word = stretch(base, base + 1, walk.behind);
        while left != 0 {
            let start = base + 1 + left.trailing_zeros();
            let before = walk.sums.place;
            let sum = walk.sums.next().unwrap_or(before);
            walk.behind = start + (sum - before);
            word |= stretch(base, start, walk.behind);
            left &= left - 1;
        }
        word
    }

    // Writes the bits of the bays after the first `before`.
    pub(crate) fn unpack(&self, before: u32, out: &mut [u8])
        ensures { out.new ≡ pack (8 * length out.old) (member_after (set_of self.now.last self.now.count self.now.starts.now self.now.sums.now) before) }
    {
        let mut walk = self.walk(before.min(self.last));
        let mut base = before;
        for w in 0..out.len().div_ceil(8) {
            let x = if base < self.last {
                self.word(base, &mut walk)
            } else {
                0
            };
            put_word(out, w, x);
            base = base.saturating_add(64);
        }
    }
}
