// Filling a set in the zombit form.
ghost use Rattle.std.specs.Prelude.{◌≡◌, [], ◌∷◌, Ok};
ghost use Rattle.faults.specs.declared.fault.Form.TheVariants as forms;
ghost use Rattle.filling.specs.Rooms.{room_check, filling, FillingIs, wrote};
ghost use Rattle.zombit.specs.Filling.{uniform_of, marked_of, mixed_of, parts_of};
ghost use Rattle.zombit.specs.Opening.{part_check};

use super::blocks::Blocks;
use super::row::{ROW, decode};
use super::slip::ZombitSlip;
use super::told::ZombitTold;
use super::write::write_rows;
use faults::{Fault, Form, Located};
use filling::check_room;
use sets::Walking;

// Checks that memories of these lengths have room for the parts that are told of, in their order.
fn check_rooms(told: ZombitTold, uniform: usize, marked: usize, mixed: usize) -> Result<(), Fault>
    ensures { result ≡
        part_check 1 (room_check told.uniform uniform)
        (part_check 2 (room_check told.marked marked)
        (part_check 3 (room_check told.mixed mixed) (Ok tt))) }
{
    check_room(told.uniform, uniform).at(Form::Zombit, 1)?;
    check_room(told.marked, marked).at(Form::Zombit, 2)?;
    check_room(told.mixed, mixed).at(Form::Zombit, 3)
}

impl<S: Walking> ZombitSlip<S> {
    /// What the set takes: the numbers for opening, and the length of each part.
    pub fn told(&self) -> ZombitTold
        ensures { result ≡ self.now.told }
    {
        self.told
    }

    /// Writes each part to the front of its memory, and gives the set back. All memories are looked at first: where one has no room
    /// for its part, nothing is written.
    pub fn fill(
        self,
        uniform: &mut [u8],
        marked: &mut [u8],
        mixed: &mut [u8],
    ) -> (S, Result<(), Fault>)
        ensures set { result.0 ≡ self.set }
        ensures answer { result.1 ≡
            filling forms.Zombit (parts_of self.told.size (S.Walking.meant self.set)) (uniform.old ∷ marked.old ∷ mixed.old ∷ []) }
        ensures law { FillingIs forms.Zombit (parts_of self.told.size (S.Walking.meant self.set)) (uniform.old ∷ marked.old ∷ mixed.old ∷ []) result.1 }
        ensures uniform { uniform.new ≡ wrote result.1 (uniform_of self.told.size (S.Walking.meant self.set)) uniform.old }
        ensures marked { marked.new ≡ wrote result.1 (marked_of self.told.size (S.Walking.meant self.set)) marked.old }
        ensures mixed { mixed.new ≡ wrote result.1 (mixed_of self.told.size (S.Walking.meant self.set)) mixed.old }
    {
        let ZombitSlip { set, told } = self;
        let checked = check_rooms(told, uniform.len(), marked.len(), mixed.len());
        if checked.is_ok() {
            let ZombitTold { last, size, .. } = told;
            let blocks = Blocks { last, size };
            let mut memory = [0; ROW];
            let row = decode(&set, blocks, &mut memory);
            write_rows(row, blocks, uniform, marked, mixed);
        }
        (set, checked)
    }
}
