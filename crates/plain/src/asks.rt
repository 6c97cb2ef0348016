// The six questions, asked of the bits.
ghost use Rattle.bits.specs.Bits.{bit_at};
ghost use Rattle.plain.specs.Decoding.{set_of};
ghost use Rattle.sets.specs.Made.{made_sized};

use super::behind::{copy_bits, copy_bytes};
use super::index::Plain;
use sets::{Counting, Sort, Walking};

impl<'a> Walking for Plain<'a> {
    ghost meant = { λ p. set_of p.last p.bits.now };

    ghost sized = { λ p. made_sized p.last (bit_at p.bits.now) p.sized };

    fn last(&self) -> u32 {
        self.last
    }

    fn holds(&self, i: u32) -> bool {
        if i == 0 || i > self.last {
            return false;
        }
        bits::get(self.bits, i)
    }

    fn next(&self, sort: Sort, i: u32) -> Option<u32> {
        bits::next(self.bits, sort, i.max(1), self.last)
    }

    fn previous(&self, sort: Sort, i: u32) -> Option<u32> {
        bits::previous(self.bits, sort, i.min(self.last))
    }

    fn bits(&self, before: u32, out: &mut [u8]) {
        if before % 8 == 0 {
            copy_bytes(self.bits, (before / 8) as usize, out);
        } else {
            copy_bits(self.bits, before, out);
        }
    }
}

impl<'a> Counting for Plain<'a> {
    fn rank(&self, sort: Sort, i: u32) -> u32 {
        let to = i.min(self.last);
        sort.share(bits::ones(self.bits, to), to)
    }

    fn select(&self, sort: Sort, n: u32) -> Option<u32> {
        bits::kth(self.bits, sort, n, self.last)
    }
}
