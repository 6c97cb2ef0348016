// Whether numbers are the list of some bays.
ghost use Rattle.std.specs.Prelude.{◌≡◌, true, false};
ghost use Rattle.faults.specs.Checks.{CheckIs};
ghost use Rattle.list.specs.Lawful.{RisesWithin, Steps, EndsWithin, list_check};

use faults::Flaw;

// Whether each number is below the next. All are compared, whatever the first ones are, so that many can be compared at a time.
fn steps(numbers: &[u16]) -> bool
    ensures yes { result ≡ true → Steps numbers.now }
    ensures no { result ≡ false → Steps numbers.now → ⊥ }
{
    let mut rising = true;
    for place in 1..numbers.len() {
        rising &= numbers[place - 1] < numbers[place];
    }
    rising
}

// Whether the first number is 1 or above, and the last at most `last`.
fn ends_within(numbers: &[u16], last: u32) -> bool
    ensures yes { result ≡ true → EndsWithin last numbers.now }
    ensures no { result ≡ false → EndsWithin last numbers.now → ⊥ }
{
    numbers.is_empty() || (numbers[0] > 0 && numbers[numbers.len() - 1] as u32 <= last)
}

// Checks that the numbers are strictly rising from 1 to `last`. More numbers than bays cannot be, and are not looked at.
pub(crate) fn check_rising(numbers: &[u16], last: u32) -> Result<(), Flaw>
    ensures answer { result ≡ list_check last numbers.now }
    ensures law { CheckIs 3 (RisesWithin last numbers.now) result }
{
    if numbers.len() <= last as usize && ends_within(numbers, last) && steps(numbers) {
        Ok(())
    } else {
        Err(Flaw::Content)
    }
}
