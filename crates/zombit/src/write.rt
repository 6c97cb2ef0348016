// Writing the rows of a set to the fronts of three memories that have room for them.
ghost use Rattle.std.specs.Prelude.{◌≡◌, ◌*◌, ◌≤◌, length};
ghost use Rattle.sets.specs.Lists.{over};
ghost use Rattle.bits.specs.Rows.{TellsRow};
ghost use Rattle.zombit.specs.Blocks.{blocks_of};
ghost use Rattle.zombit.specs.Filling.{uniform_bit, uniform_of, marked_of, mixed_of};
ghost use Rattle.zombit.specs.Looking.{set_in, RowOf};

use super::blocks::Blocks;

// Writes the mixed row. The uniform row is written already.
fn write_mixed(row: &[u8], blocks: Blocks, uniform: &[u8], mixed: &mut [u8])
    requires row { RowOf blocks.last blocks.size row.now }
    requires long { blocks_of blocks.last blocks.size ≤ 8 * length uniform.now }
    requires uniform { TellsRow (blocks_of blocks.last blocks.size) (uniform_bit blocks.size (set_in blocks.last row.now)) uniform.now }
    requires room { length (mixed_of blocks.size (set_in blocks.last row.now)) ≤ length mixed.old }
    ensures { mixed.new ≡ over (mixed_of blocks.size (set_in blocks.last row.now)) mixed.old }
{
    let count = blocks.count();
    bits::clear(mixed, blocks.mixed_bits(uniform, count));
    let mut start = 0;
    for k in 0..count {
        if !bits::get(uniform, k + 1) {
            bits::copy(mixed, start, row, blocks.place(k, 0), blocks.size);
            start += blocks.size;
        }
    }
}

// Writes the three rows of the set whose bays are the bits of the row.
pub(crate) fn write_rows(
    row: &[u8],
    blocks: Blocks,
    uniform: &mut [u8],
    marked: &mut [u8],
    mixed: &mut [u8],
)
    requires row { RowOf blocks.last blocks.size row.now }
    requires room_u { length (uniform_of blocks.size (set_in blocks.last row.now)) ≤ length uniform.old }
    requires room_o { length (marked_of blocks.size (set_in blocks.last row.now)) ≤ length marked.old }
    requires room_m { length (mixed_of blocks.size (set_in blocks.last row.now)) ≤ length mixed.old }
    ensures uniform { uniform.new ≡ over (uniform_of blocks.size (set_in blocks.last row.now)) uniform.old }
    ensures marked { marked.new ≡ over (marked_of blocks.size (set_in blocks.last row.now)) marked.old }
    ensures mixed { mixed.new ≡ over (mixed_of blocks.size (set_in blocks.last row.now)) mixed.old }
{
    let count = blocks.count();
    bits::write(uniform, count, |bit| !blocks.look(row, bit - 1).is_mixed());
    bits::write(marked, count, |bit| blocks.look(row, bit - 1).one);
    write_mixed(row, blocks, uniform, mixed);
}
