// Whether a memory has room for a part.
ghost use Rattle.std.specs.Prelude.{◌≡◌, ◌≤◌};
ghost use Rattle.faults.specs.Checks.{CheckIs};
ghost use Rattle.filling.specs.Rooms.{room_check};

use faults::Flaw;

/// Checks that a memory of `has` numbers has room for `needs`.
pub fn check_room(needs: usize, has: usize) -> Result<(), Flaw>
    ensures answer { result ≡ room_check needs has }
    ensures law { CheckIs 5 (needs ≤ has) result }
{
    if needs <= has {
        Ok(())
    } else {
        Err(Flaw::Room)
    }
}
