// The bays of an index as bits, from block to block.
ghost use Rattle.std.specs.Prelude.{◌≡◌, ◌+◌, ◌*◌, ◌<◌, ◌≤◌, false, length, min};
ghost use Rattle.sets.specs.Packing.{pack, member_after};
ghost use Rattle.zombit.specs.Meant.{blocks, bits_before_block, meaning, MixedAt};
ghost use Rattle.zombit.specs.Unpacking.{Unpacked};

use super::index::Zombit;

// The block up to which the bays are written, and how many bits of the mixed row lie before those of it.
#[derive(Clone, Copy)]
struct Reached {
    block: u32,
    bits: u32,
}

impl<'a> Zombit<'a> {
    // Adds the members of the mixed blocks from one on, after the first `before` bays and up to bay `end`.
    fn unpack_mixed(&self, reached: Reached, before: u32, end: u32, out: &mut [u8]) -> Reached
        requires block { reached.block < blocks self.now }
        requires mixed { MixedAt self.now reached.block }
        requires bits { reached.bits ≡ bits_before_block self.now reached.block }
        requires low { before ≤ reached.block * self.now.blocks.size + self.now.blocks.size }
        requires high { reached.block * self.now.blocks.size ≤ end }
        requires order { before ≤ end }
        requires end { end ≡ min self.now.blocks.last (before + 8 * length out.old) }
        ensures more { reached.block < result.block }
        ensures within { result.block ≤ blocks self.now }
        ensures bits { result.bits ≡ bits_before_block self.now result.block }
        ensures wrote { Unpacked self.now before (reached.block * self.now.blocks.size) out.old
            → Unpacked self.now before (result.block * self.now.blocks.size) out.new }
        ensures long { length out.new ≡ length out.old }
    {
        let size = self.blocks.size;
        let block = self.mixed_to(reached.block);
        let first = reached.block * size;
        let from = before.max(first);
        let to = end.min(block * size);
        bits::copy(
            out,
            from - before,
            self.mixed,
            reached.bits + (from - first),
            to - from,
        );
        Reached {
            block,
            bits: reached.bits + (block - reached.block) * size,
        }
    }

    // Adds the members of a block, and of those after it if they are mixed as it is.
    fn unpack_block(&self, reached: Reached, before: u32, end: u32, out: &mut [u8]) -> Reached
        requires block { reached.block < blocks self.now }
        requires bits { reached.bits ≡ bits_before_block self.now reached.block }
        requires low { before ≤ reached.block * self.now.blocks.size + self.now.blocks.size }
        requires high { reached.block * self.now.blocks.size ≤ end }
        requires order { before ≤ end }
        requires end { end ≡ min self.now.blocks.last (before + 8 * length out.old) }
        ensures more { reached.block < result.block }
        ensures within { result.block ≤ blocks self.now }
        ensures bits { result.bits ≡ bits_before_block self.now result.block }
        ensures wrote { Unpacked self.now before (reached.block * self.now.blocks.size) out.old
            → Unpacked self.now before (result.block * self.now.blocks.size) out.new }
        ensures long { length out.new ≡ length out.old }
    {
        if !bits::get(self.uniform, reached.block + 1) {
            return self.unpack_mixed(reached, before, end, out);
        }
        if bits::get(self.marked, reached.block + 1) {
            let first = self.blocks.place(reached.block, 0);
            let from = before.max(first);
            let to = end.min(first + self.blocks.size);
            bits::mark(out, from - before + 1, to - before);
        }
        Reached {
            block: reached.block + 1,
            bits: reached.bits,
        }
    }

    // Adds the members after the first `before` bays, as far as there is room.
    pub(crate) fn unpack(&self, before: u32, out: &mut [u8])
        requires within { before < self.now.blocks.last }
        requires clear { out.old ≡ pack (8 * length out.old) (λ j. false) }
        ensures { out.new ≡ pack (8 * length out.old) (member_after (meaning self.now) before) }
    {
        let size = self.blocks.size;
        let room = 8 * out.len().min(8192) as u32;
        let end = self.blocks.last.min(before + room);
        let past = end.div_ceil(size);
        let block = before / size;
        let bits = self.bits_before(block);
        let mut reached = Reached { block, bits };
        while reached.block < past {
            reached = self.unpack_block(reached, before, end, out);
        }
    }
}
