// Two readers, of which the later reads what the sets of the first were filled into.
ghost use Rattle.std.specs.Prelude.{◌≡◌, ◌++◌, Bool, List, take, drop, length, IfOk, IfErr};
ghost use Rattle.chains.specs.Judging.{stages, judging, unit_of, JudgingIs};
ghost use Rattle.chains.specs.Laid.{laid_bytes, laid_numbers, left_by};
ghost use Rattle.readers.specs.Claim.{TwoReaders};
ghost use Rattle.readers.specs.Memories.{room};
ghost use Rattle.readers.specs.Refilled.{Refilled};
ghost use Rattle.replay.specs.Views.{calls_of, first_seen, second_seen};

use super::both::read_both;
use chains::{ChainFault, Plan, latest, refill_pair};
use replay::Exchange;
use round::Report;
use sets::{Counting, Walking};

/// Takes two sets through the forms of a plan, and plays one list of calls on a round over the two and on one over what is opened at the
/// ends. Each reader has as much memory as the shorter of the two, and the second's begins as a copy of the first's. Where a form has no
/// such block size, or a part no room, nothing is written.
pub fn read_refilled<F: Counting + Drop, C: Walking + Drop>(
    free: F,
    class: C,
    plan: Plan,
    bytes: &mut [u8],
    numbers: &mut [u16],
    exchanges: &mut [Exchange],
    memory: &mut [u32],
    late_memory: &mut [u32],
) -> Result<(Report, Report), ChainFault>
    ensures answer { unit_of result
        ≡ judging (stages (F.Walking.meant free) (C.Walking.meant class) plan.entry) (length bytes.old) (length numbers.old) }
    ensures law { JudgingIs (stages (F.Walking.meant free) (C.Walking.meant class) plan.entry) (length bytes.old) (length numbers.old)
        (unit_of result) }
    ensures bytes { bytes.new ≡ left_by (unit_of result)
        (laid_bytes plan.entry.free.now (F.Walking.meant free) ++ laid_bytes plan.entry.class.now (C.Walking.meant class)) bytes.old }
    ensures numbers { numbers.new ≡ left_by (unit_of result)
        (laid_numbers plan.entry.free.now (F.Walking.meant free) ++ laid_numbers plan.entry.class.now (C.Walking.meant class)) numbers.old }
    ensures refused { IfErr result (λ _.
        (exchanges.new ≡ exchanges.old) × (memory.new ≡ memory.old) × (late_memory.new ≡ late_memory.old)) }
    ensures claim { IfOk result (λ reports. (f' c' : List Bool)
        × Refilled plan.entry (F.Walking.meant free) (C.Walking.meant class) f' c' bytes.old numbers.old bytes.new numbers.new
        × TwoReaders (F.Walking.meant free) (C.Walking.meant class) f' c' (calls_of exchanges.old)
        (take (room memory.old late_memory.old) memory.old) (take (room memory.old late_memory.old) memory.old) (calls_of exchanges.new)
        (first_seen exchanges.new (take (room memory.old late_memory.old) memory.new) reports.0)
        (second_seen exchanges.new (take (room memory.old late_memory.old) late_memory.new) reports.1)) }
    ensures same { IfOk result (λ reports.
        second_seen exchanges.new (take (room memory.old late_memory.old) late_memory.new) reports.1
        ≡ first_seen exchanges.new (take (room memory.old late_memory.old) memory.new) reports.0) }
    ensures behind { IfOk result (λ _.
        (drop (room memory.old late_memory.old) memory.new ≡ drop (room memory.old late_memory.old) memory.old)
        × (drop (room memory.old late_memory.old) late_memory.new ≡ drop (room memory.old late_memory.old) late_memory.old)) }
{
    let (free_last, class_last) = refill_pair(&free, &class, plan, bytes, numbers)?;
    let late_free = latest(&free, free_last, bytes, numbers);
    let late_class = latest(&class, class_last, bytes, numbers);
    let room = memory.len().min(late_memory.len());
    late_memory[..room].copy_from_slice(&memory[..room]);
    Ok(read_both(
        &free,
        &class,
        late_free,
        late_class,
        exchanges,
        &mut memory[..room],
        &mut late_memory[..room],
    ))
}
