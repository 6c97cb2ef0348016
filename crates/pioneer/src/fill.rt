// Filling a set in the pioneer form.
ghost use Rattle.std.specs.Prelude.{◌≡◌, [], ◌∷◌, Ok};
ghost use Rattle.faults.specs.Checks.{located, first_of};
ghost use Rattle.faults.specs.declared.fault.Form.TheVariants as forms;
ghost use Rattle.filling.specs.Rooms.{room_check, filling, FillingIs, wrote};
ghost use Rattle.pioneer.specs.Filling.{starts_part, sums_part, parts_of};

use super::slip::PioneerSlip;
use super::told::PioneerTold;
use super::write::write_parts;
use faults::{Fault, Form, Located};
use filling::check_room;
use sets::Walking;

// Checks that memories of these lengths have room for the parts that are told of, in their order.
fn check_rooms(told: PioneerTold, starts: usize, sums: usize) -> Result<(), Fault>
    ensures { result ≡
        first_of (located forms.Pioneer 1 (room_check told.starts starts))
        (first_of (located forms.Pioneer 2 (room_check told.sums sums)) (Ok tt)) }
{
    check_room(told.starts, starts).at(Form::Pioneer, 1)?;
    check_room(told.sums, sums).at(Form::Pioneer, 2)
}

impl<S: Walking> PioneerSlip<S> {
    /// What the set takes: the numbers for opening, and the length of each part.
    pub fn told(&self) -> PioneerTold
        ensures { result ≡ self.now.told }
    {
        self.told
    }

    /// Writes each part to the front of its memory, and gives the set back. All memories are looked at first: where one has no room
    /// for its part, nothing is written.
    pub fn fill(self, starts: &mut [u8], sums: &mut [u8]) -> (S, Result<(), Fault>)
        ensures set { result.0 ≡ self.set }
        ensures answer { result.1 ≡ filling forms.Pioneer (parts_of (S.Walking.meant self.set)) (starts.old ∷ sums.old ∷ []) }
        ensures law { FillingIs forms.Pioneer (parts_of (S.Walking.meant self.set)) (starts.old ∷ sums.old ∷ []) result.1 }
        ensures starts { starts.new ≡ wrote result.1 (starts_part (S.Walking.meant self.set)) starts.old }
        ensures sums { sums.new ≡ wrote result.1 (sums_part (S.Walking.meant self.set)) sums.old }
    {
        let PioneerSlip { set, told } = self;
        let checked = check_rooms(told, starts.len(), sums.len());
        if checked.is_ok() {
            write_parts(&set, told.count, starts, sums);
        }
        (set, checked)
    }
}
