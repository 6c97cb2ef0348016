// Filling a set in the list form.
ghost use Rattle.std.specs.Prelude.{◌≡◌, ◌≤◌, [], ◌∷◌, length};
ghost use Rattle.faults.specs.declared.fault.Form.TheVariants as forms;
ghost use Rattle.filling.specs.Rooms.{filling, FillingIs, wrote};
ghost use Rattle.sets.specs.Lists.{over};
ghost use Rattle.list.specs.Filling.{numbers_of, parts_of};

use super::ones::write_ones;
use super::row::row_of;
use super::slip::ListSlip;
use super::told::ListTold;
use faults::{Fault, Form, Located};
use filling::check_room;
use sets::Walking;

// Writes the members of the set to the front of the memory, which has room for them.
fn write_members<S: Walking>(set: &S, numbers: &mut [u16])
    requires { length (numbers_of (S.Walking.meant set.now)) ≤ length numbers.old }
    ensures { numbers.new ≡ over (numbers_of (S.Walking.meant set.now)) numbers.old }
{
    let row = row_of(set);
    let mut n = 0;
    for k in 0..set.last().div_ceil(64) {
        let word = bits::whole_word(&row, 8 * k as usize);
        n += write_ones(word, 64 * k, &mut numbers[n..]);
    }
}

impl<S: Walking> ListSlip<S> {
    /// What the set takes: the numbers for opening, and the length of each part.
    pub fn told(&self) -> ListTold
        ensures { result ≡ self.now.told }
    {
        self.told
    }

    /// Writes the part to the front of its memory, and gives the set back. The memory is looked at first: where it has no room for the
    /// part, nothing is written.
    pub fn fill(self, numbers: &mut [u16]) -> (S, Result<(), Fault>)
        ensures set { result.0 ≡ self.set }
        ensures answer { result.1 ≡ filling forms.List (parts_of (S.Walking.meant self.set)) (numbers.old ∷ []) }
        ensures law { FillingIs forms.List (parts_of (S.Walking.meant self.set)) (numbers.old ∷ []) result.1 }
        ensures numbers { numbers.new ≡ wrote result.1 (numbers_of (S.Walking.meant self.set)) numbers.old }
    {
        let ListSlip { set, told } = self;
        let room = check_room(told.numbers, numbers.len()).at(Form::List, 1);
        if room.is_ok() {
            write_members(&set, numbers);
        }
        (set, room)
    }
}
