// Whether two sets can go through their forms, before anything is written.
ghost use Rattle.std.specs.Prelude.{◌≡◌, ◌-◌, Bool, List, length, Ok, IfOk};
ghost use Rattle.faults.specs.Checks.{first_of};
ghost use Rattle.forms.specs.Choices.{layout_of};
ghost use Rattle.forms.specs.Laying.{rooms_told};
ghost use Rattle.forms.specs.Telling.{told_of, bytes_told, numbers_told};
ghost use Rattle.forms.specs.Verdicts.{verdict_of};
ghost use Rattle.chains.specs.Judging.{numbered, stages, sizing, rooming, judging, unit_of, JudgingIs};
ghost use Rattle.chains.specs.Laid.{laid_bytes, laid_numbers};

use super::extent::Extent;
use super::fault::ChainFault;
use super::plan::Plan;
use super::size::check_size;
use faults::Fault;
use forms::{Choice, Told, check_rooms};
use opening::Side;
use sets::Walking;

// Checks the block sizes of one side's steps, in order.
fn check_sizes(side: Side, choices: &[Choice]) -> Result<(), ChainFault>
    ensures { (s : List Bool) → result ≡ sizing (numbered side s 1 choices.now) }
{
    for (before, choice) in choices.iter().enumerate() {
        let step = before + 1;
        check_size(*choice).map_err(|fault| ChainFault { side, step, fault })?;
    }
    Ok(())
}

// Takes the room that a set needs in a form, and says what is left.
fn take_room<S: Walking>(set: &S, choice: Choice, room: Extent) -> Result<Extent, Fault>
    ensures answer { verdict_of result
        ≡ first_of (layout_of choice).measuring (rooms_told (told_of choice (S.Walking.meant set.now)) room.bytes room.numbers) }
    ensures left { IfOk result (λ left. left ≡ record {
      bytes = room.bytes - bytes_told (told_of choice (S.Walking.meant set.now));
      numbers = room.numbers - numbers_told (told_of choice (S.Walking.meant set.now));
    }) }
{
    let told = Told::of(set, choice)?;
    check_rooms(told, room.bytes, room.numbers)?;
    Ok(Extent {
        bytes: room.bytes - told.bytes(),
        numbers: room.numbers - told.numbers(),
    })
}

// Checks that the steps of one side have room, in order, and says what they leave.
fn check_chain<S: Walking>(
    side: Side,
    set: &S,
    choices: &[Choice],
    room: Extent,
) -> Result<Extent, ChainFault>
    requires { sizing (numbered side (S.Walking.meant set.now) 1 choices.now) ≡ Ok tt }
    ensures answer { unit_of result ≡ rooming (numbered side (S.Walking.meant set.now) 1 choices.now) room.bytes room.numbers }
    ensures left { IfOk result (λ left. left ≡ record {
      bytes = room.bytes - length (laid_bytes choices.now (S.Walking.meant set.now));
      numbers = room.numbers - length (laid_numbers choices.now (S.Walking.meant set.now));
    }) }
{
    let mut left = room;
    for (before, choice) in choices.iter().enumerate() {
        let step = before + 1;
        left = take_room(set, *choice, left).map_err(|fault| ChainFault { side, step, fault })?;
    }
    Ok(left)
}

/// Checks, before anything is written, that two sets can go through their forms: first the block sizes, and then the room, where the
/// parts of all steps lie one behind the other in a memory of so many bytes and in one of so many 16-bit numbers. F's steps come first
/// and then C's.
pub fn judge<F: Walking, C: Walking>(
    free: &F,
    class: &C,
    plan: Plan,
    bytes: usize,
    numbers: usize,
) -> Result<(), ChainFault>
    ensures answer { result ≡ judging (stages (F.Walking.meant free.now) (C.Walking.meant class.now) plan.entry) bytes numbers }
    ensures law { JudgingIs (stages (F.Walking.meant free.now) (C.Walking.meant class.now) plan.entry) bytes numbers result }
{
    check_sizes(Side::F, plan.free)?;
    check_sizes(Side::C, plan.class)?;
    let room = check_chain(Side::F, free, plan.free, Extent { bytes, numbers })?;
    check_chain(Side::C, class, plan.class, room)?;
    Ok(())
}
