// A call of the round, with all that is answered to it.
ghost use Rattle.std.specs.Prelude.{◌≡◌, ◌++◌, IfOk, OnErr, OnOk};
ghost use Rattle.std.specs.String.{string_bytes};
ghost use Rattle.replay.specs.Views.{step_of};
ghost use Rattle.replies.specs.Sheets.{memory_before, memory_text};
ghost use Rattle.replies.specs.Texts.{called_text};
ghost use Rattle.round.specs.Rounds.{SameSets};

use super::reply::Called;
use replay::Call;
use round::Round;
use sets::{Counting, Walking};
use std::alloc::{AllocError, Global};
use std::fmt::Write;

// What each number of a sheet's memory is before the call.
const BEFORE: u32 = 7;

/// Asks the round a call. Beside the answer stands the memory of a sheet, as it is afterwards.
pub fn call_round<F: Counting, C: Walking>(
    alloc: Global,
    round: &mut Round<F, C>,
    call: Call,
) -> Result<(Called, Vec<u32>), AllocError>
    ensures answer { IfOk result (λ told. told.0.0 ≡ (step_of round.old call (memory_before call)).answer) }
    ensures memory { IfOk result (λ told. told.1.items ≡ (step_of round.old call (memory_before call)).window) }
    ensures state { IfOk result (λ _. round.new.state ≡ (step_of round.old call (memory_before call)).state) }
    ensures sets { SameSets round.old round.new }
    ensures kept { OnErr result (round.new ≡ round.old) }
{
    let room = match call {
        Call::Sheet(n) => n as usize,
        _ => 0,
    };
    let mut memory = vec![in alloc; BEFORE; room]?;
    let answer = replay::ask(round, call, &mut memory);
    Ok((Called(answer), memory))
}

/// Writes what a call was answered behind a text, with the memory of a sheet. What the text holds where there is no memory is left open.
pub fn write_called(text: &mut String, called: Called, memory: &[u32]) -> Result<(), AllocError>
    ensures { OnOk result (string_bytes text.new ≡ string_bytes text.old ++ (called_text called.0 ++ memory_text memory.now)) }
{
    write!(text, "{called}")?;
    for number in memory {
        write!(text, " {number}")?;
    }
    Ok(())
}
