// How the bays lie in blocks.
ghost use Rattle.std.specs.Prelude.{◌≡◌, ◌+◌, ◌*◌, ◌/◌, ◌<◌, ◌≤◌, length};
ghost use Rattle.sets.specs.Sets.{LastBay};
ghost use Rattle.bits.specs.Bits.{bit_at};
ghost use Rattle.zombit.specs.Blocks.{blocks_of, bits_before};
ghost use Rattle.zombit.specs.Lawful.{BlockSize};

// The bays 1 to `last` in blocks of `size` places each. The last block may have places past the last bay.
#[derive(Clone, Copy, PartialEq, Eq, Debug)]
pub(crate) struct Blocks {
    pub(crate) last: u32,
    pub(crate) size: u32,
    ghost sized: { LastBay last },
    ghost blocked: { BlockSize size },
}

// Place `at`, from 1, of block `block`, from 0.
#[derive(Clone, Copy)]
pub(crate) struct Spot {
    pub(crate) block: u32,
    pub(crate) at: u32,
}

impl Blocks {
    // How many blocks there are.
    pub(crate) fn count(self) -> u32
        ensures { result ≡ blocks_of self.last self.size }
    {
        self.last.div_ceil(self.size)
    }

    // How many blocks the first `n` places fill: by a shift where the size is a power of two, since a division takes longer.
    fn filled(self, n: u32) -> u32
        ensures { result ≡ n / self.size }
    {
        let log = self.size.ilog2();
        if self.size == 1 << log {
            n >> log
        } else {
            n / self.size
        }
    }

    // Where bay `i` lies.
    pub(crate) fn spot(self, i: u32) -> Spot
        requires first { 1 ≤ i }
        requires within { i ≤ self.last }
        ensures bay { result.block * self.size + result.at ≡ i }
        ensures block { result.block < blocks_of self.last self.size }
        ensures first { 1 ≤ result.at }
        ensures end { result.at ≤ self.size }
    {
        let block = self.filled(i - 1);
        Spot {
            block,
            at: i - block * self.size,
        }
    }

    // The place `at` of block `k`, counted over all blocks.
    pub(crate) fn place(self, k: u32, at: u32) -> u32
        requires block { k < blocks_of self.last self.size }
        requires end { at ≤ self.size }
        ensures { result ≡ k * self.size + at }
    {
        k * self.size + at
    }

    // How many bits the mixed ones of the first `k` blocks take.
    pub(crate) fn mixed_bits(self, uniform: &[u8], k: u32) -> u32
        requires block { k ≤ blocks_of self.last self.size }
        requires within { k ≤ 8 * length uniform.now }
        ensures value { result ≡ bits_before self.size (bit_at uniform.now) k }
        ensures few { result ≤ 69631 }
    {
        (k - bits::ones(uniform, k)) * self.size
    }
}
