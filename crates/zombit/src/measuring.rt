// What a set takes in the zombit form, measured.
ghost use Rattle.std.specs.Prelude.{◌≡◌, ◌≤◌, length};
ghost use Rattle.sets.specs.Packing.{bytes_for};
ghost use Rattle.zombit.specs.Blocks.{blocks_of, mixed_before};
ghost use Rattle.zombit.specs.Filling.{uniform_bit};
ghost use Rattle.zombit.specs.Looking.{set_in, RowOf};
ghost use Rattle.zombit.specs.Measures.{telling, TellingIs, measuring, in_parts, MeasuringIs};

use super::blocks::Blocks;
use super::checks::check_size;
use super::row::{ROW, decode};
use super::slip::ZombitSlip;
use super::told::ZombitTold;
use faults::{Fault, Form, Located};
use sets::Walking;

// How many blocks are mixed of the set whose bays are the bits of the row.
fn count_mixed(row: &[u8], blocks: Blocks) -> u32
    requires { RowOf blocks.last blocks.size row.now }
    ensures value { result ≡ mixed_before (uniform_bit blocks.size (set_in blocks.last row.now)) (blocks_of blocks.last blocks.size) }
    ensures few { result ≤ blocks_of blocks.last blocks.size }
{
    let mut mixed = 0;
    for k in 0..blocks.count() {
        if blocks.look(row, k).is_mixed() {
            mixed += 1;
        }
    }
    mixed
}

// The bytes that `n` bits take.
fn bytes_for(n: u32) -> usize
    ensures { result ≡ bytes_for n }
{
    (n as usize).div_ceil(8)
}

impl ZombitTold {
    /// What the set takes, in blocks of `size` bays.
    pub fn of<S: Walking>(set: &S, size: u32) -> Result<ZombitTold, Fault>
        ensures answer { result ≡ telling size (S.Walking.meant set.now) }
        ensures law { TellingIs size (S.Walking.meant set.now) result }
    {
        check_size(size).at(Form::Zombit, 0)?;
        let last = set.last();
        let blocks = Blocks { last, size };
        let mut memory = [0; ROW];
        let row = decode(set, blocks, &mut memory);
        let length = bytes_for(blocks.count());
        Ok(ZombitTold {
            last,
            size,
            uniform: length,
            marked: length,
            mixed: bytes_for(count_mixed(row, blocks) * size),
        })
    }
}

/// Measures a set: the slip holds it, and tells what it takes. A block size that is refused gives the set back.
pub fn measure<S: Walking>(set: S, size: u32) -> Result<ZombitSlip<S>, (S, Fault)>
    ensures answer { in_parts result ≡ measuring size set (S.Walking.meant set) }
    ensures law { MeasuringIs size set result }
{
    match ZombitTold::of(&set, size) {
        Ok(told) => Ok(ZombitSlip { set, told }),
        Err(fault) => Err((set, fault)),
    }
}
