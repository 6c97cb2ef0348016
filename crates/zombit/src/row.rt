// A set as a row of bits.
ghost use Rattle.std.specs.Prelude.{◌≡◌, length};
ghost use Rattle.zombit.specs.Looking.{set_in, RowOf};

use super::blocks::Blocks;
use sets::Walking;

// So many bytes hold the bays of every set, and the places of its last block behind them.
pub(crate) const ROW: usize = 8704;

// Writes a bit for each place of the blocks to the front of the memory: the row of the set.
pub(crate) fn decode<'m, S: Walking>(set: &S, blocks: Blocks, memory: &'m mut [u8; ROW]) -> &'m [u8]
    requires last { blocks.last ≡ length (S.Walking.meant set.now) }
    ensures set { set_in blocks.last result.now ≡ S.Walking.meant set.now }
    ensures row { RowOf blocks.last blocks.size result.now }
{
    let places = blocks.count() * blocks.size;
    let row = &mut memory[..(places as usize).div_ceil(8)];
    set.bits(0, row);
    row
}
