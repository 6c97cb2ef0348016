// Two sets, filled one chain behind the other.
ghost use Rattle.std.specs.Prelude.{◌≡◌, ◌++◌, length, IfOk};
ghost use Rattle.chains.specs.Judging.{stages, judging, unit_of, JudgingIs};
ghost use Rattle.chains.specs.Laid.{laid_bytes, laid_numbers, left_by, LastIs, LiesIn};

use super::extent::Extent;
use super::fault::ChainFault;
use super::judging::judge;
use super::place::Last;
use super::plan::Plan;
use super::refilling::{behind, refill};
use sets::Walking;

/// Takes two sets through the forms of a plan, F's from the fronts of the two memories on and C's behind them, and says where the last
/// index of each lies. Where a form has no such block size, or a part no room, nothing is written.
pub fn refill_pair<F: Walking, C: Walking>(
    free: &F,
    class: &C,
    plan: Plan,
    bytes: &mut [u8],
    numbers: &mut [u16],
) -> Result<(Option<Last>, Option<Last>), ChainFault>
    ensures answer { unit_of result
        ≡ judging (stages (F.Walking.meant free.now) (C.Walking.meant class.now) plan.entry) (length bytes.old) (length numbers.old) }
    ensures law { JudgingIs (stages (F.Walking.meant free.now) (C.Walking.meant class.now) plan.entry) (length bytes.old) (length numbers.old)
        (unit_of result) }
    ensures bytes { bytes.new ≡ left_by (unit_of result)
        (laid_bytes plan.entry.free.now (F.Walking.meant free.now) ++ laid_bytes plan.entry.class.now (C.Walking.meant class.now))
        bytes.old }
    ensures numbers { numbers.new ≡ left_by (unit_of result)
        (laid_numbers plan.entry.free.now (F.Walking.meant free.now) ++ laid_numbers plan.entry.class.now (C.Walking.meant class.now))
        numbers.old }
    ensures lasts { IfOk result (λ lasts.
        LastIs (record { bytes = 0; numbers = 0 }) plan.entry.free.now (F.Walking.meant free.now) lasts.0
        × LastIs (record {
          bytes = length (laid_bytes plan.entry.free.now (F.Walking.meant free.now));
          numbers = length (laid_numbers plan.entry.free.now (F.Walking.meant free.now));
        }) plan.entry.class.now (C.Walking.meant class.now) lasts.1) }
    ensures lie { IfOk result (λ lasts.
        LiesIn lasts.0 (F.Walking.meant free.now) bytes.new numbers.new × LiesIn lasts.1 (C.Walking.meant class.now) bytes.new numbers.new) }
{
    judge(free, class, plan, bytes.len(), numbers.len())?;
    let front = Extent {
        bytes: 0,
        numbers: 0,
    };
    let free_last = refill(free, plan.free, front, bytes, numbers);
    let class_last = refill(class, plan.class, behind(free_last, front), bytes, numbers);
    Ok((free_last, class_last))
}
