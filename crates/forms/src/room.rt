// Whether two memories have room for the parts of a form.
ghost use Rattle.std.specs.Prelude.{◌≡◌};
ghost use Rattle.forms.specs.Laying.{rooms_told, RoomsTold};

use super::told::Told;
use faults::{Fault, Form, Located};
use filling::check_room;
use pioneer::PioneerTold;
use zombit::ZombitTold;

// The first of the three parts, laid one behind the other, that has no room in so many bytes.
fn check_zombit(told: ZombitTold, bytes: usize) -> Result<(), Fault>
    ensures answer { result ≡ rooms_told (Told.Zombit told) bytes 0 }
    ensures law { RoomsTold (Told.Zombit told) bytes 0 result }
{
    check_room(told.uniform, bytes).at(Form::Zombit, 1)?;
    let rest = bytes - told.uniform;
    check_room(told.marked, rest).at(Form::Zombit, 2)?;
    check_room(told.mixed, rest - told.marked).at(Form::Zombit, 3)
}

// The same of the two parts of a pioneer index.
fn check_pioneer(told: PioneerTold, bytes: usize) -> Result<(), Fault>
    ensures answer { result ≡ rooms_told (Told.Pioneer told) bytes 0 }
    ensures law { RoomsTold (Told.Pioneer told) bytes 0 result }
{
    check_room(told.starts, bytes).at(Form::Pioneer, 1)?;
    check_room(told.sums, bytes - told.starts).at(Form::Pioneer, 2)
}

/// Checks that a memory of so many bytes and one of so many 16-bit numbers have room for the parts, laid one behind the other.
pub fn check_rooms(told: Told, bytes: usize, numbers: usize) -> Result<(), Fault>
    ensures answer { result ≡ rooms_told told bytes numbers }
    ensures law { RoomsTold told bytes numbers result }
{
    match told {
        Told::Plain(told) => check_room(told.bits, bytes).at(Form::Plain, 1),
        Told::List(told) => check_room(told.numbers, numbers).at(Form::List, 1),
        Told::Zombit(told) => check_zombit(told, bytes),
        Told::Pioneer(told) => check_pioneer(told, bytes),
    }
}
