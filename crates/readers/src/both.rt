// Two readers, whatever the sets of the later went through.
ghost use Rattle.readers.specs.Claim.{TwoReaders};
ghost use Rattle.replay.specs.Views.{calls_of, first_seen, second_seen};

use replay::{Exchange, two_readers};
use round::Report;
use sets::{Counting, Walking};

/// Plays one list of calls on two fresh rounds, each over two sets and with a memory of its own, and closes both.
pub fn read_both<F: Counting + Drop, C: Walking + Drop, G: Counting + Drop, D: Walking + Drop>(
    free: F,
    class: C,
    late_free: G,
    late_class: D,
    exchanges: &mut [Exchange],
    memory: &mut [u32],
    late_memory: &mut [u32],
) -> (Report, Report)
    ensures { TwoReaders (F.Walking.meant free) (C.Walking.meant class) (G.Walking.meant late_free) (D.Walking.meant late_class)
        (calls_of exchanges.old) memory.old late_memory.old
        (calls_of exchanges.new) (first_seen exchanges.new memory.new result.0) (second_seen exchanges.new late_memory.new result.1) }
{
    two_readers(
        free,
        class,
        late_free,
        late_class,
        exchanges,
        memory,
        late_memory,
    )
}
