// Filling a set in the plain form.
ghost use Rattle.std.specs.Prelude.{◌≡◌, [], ◌∷◌};
ghost use Rattle.faults.specs.declared.fault.Form.TheVariants as forms;
ghost use Rattle.filling.specs.Rooms.{filling, FillingIs, wrote};
ghost use Rattle.plain.specs.Filling.{bits_of, parts_of};

use super::slip::PlainSlip;
use super::told::PlainTold;
use faults::{Fault, Form, Located};
use filling::check_room;
use sets::Walking;

impl<S: Walking> PlainSlip<S> {
    /// What the set takes: the numbers for opening, and the length of each part.
    pub fn told(&self) -> PlainTold
        ensures { result ≡ self.now.told }
    {
        self.told
    }

    /// Writes the part to the front of its memory, and gives the set back. The memory is looked at first: where it has no room for the
    /// part, nothing is written.
    pub fn fill(self, bits: &mut [u8]) -> (S, Result<(), Fault>)
        ensures set { result.0 ≡ self.set }
        ensures answer { result.1 ≡ filling forms.Plain (parts_of (S.Walking.meant self.set)) (bits.old ∷ []) }
        ensures law { FillingIs forms.Plain (parts_of (S.Walking.meant self.set)) (bits.old ∷ []) result.1 }
        ensures bits { bits.new ≡ wrote result.1 (bits_of (S.Walking.meant self.set)) bits.old }
    {
        let PlainSlip { set, told } = self;
        let room = check_room(told.bits, bits.len()).at(Form::Plain, 1);
        if room.is_ok() {
            set.bits(0, &mut bits[..told.bits]);
        }
        (set, room)
    }
}
