// Two readers that are asked the same.
ghost use Rattle.std.specs.Prelude.{◌≡◌, ◌≤◌, ◌+◌, ◌++◌, length, min, take, drop};
ghost use Rattle.round.specs.Rounds.{SameSets};
ghost use Rattle.replay.specs.Plays.{room, run};
ghost use Rattle.replay.specs.Views.{turn_of, calls_of, first_seen, second_seen};
ghost use Rattle.replay.specs.Whole.{Kept};

use super::asking::ask;
use super::calls::{Answer, Call, Exchange};
use round::{Report, Round};
use sets::{Counting, Walking};

// How many numbers of the memory a call takes, where there are so many.
fn room(call: Call) -> usize
    ensures { result ≡ room call }
{
    match call {
        Call::Sheet(k) => k as usize,
        _ => 0,
    }
}

// Asks a round one call, for which it takes numbers of the memory from `at` on, and moves `at` behind them.
fn turn<F: Counting, C: Walking>(
    round: &mut Round<F, C>,
    call: Call,
    memory: &mut [u32],
    at: &mut usize,
) -> Answer
    requires { at.old ≤ length memory.old }
    ensures answer { result ≡ (turn_of round.old call at.old memory.old).answer }
    ensures writes { memory.new
        ≡ take at.old memory.old ++ ((turn_of round.old call at.old memory.old).window ++ drop at.new memory.old) }
    ensures moves { at.new ≡ min (at.old + room call) (length memory.old) }
    ensures state { round.new.state ≡ (turn_of round.old call at.old memory.old).state }
    ensures sets { SameSets round.old round.new }
{
    let start = *at;
    *at += room(call).min(memory.len() - start);
    ask(round, call, &mut memory[start..*at])
}

/// Plays one list of calls on two fresh rounds, each over two sets and with a memory of its own, writes what each is answered beside
/// the calls, and closes both. A sheet takes the next numbers of the reader's memory, or all that are left.
pub fn two_readers<F: Counting + Drop, C: Walking + Drop, G: Counting + Drop, D: Walking + Drop>(
    free: F,
    class: C,
    late_free: G,
    late_class: D,
    exchanges: &mut [Exchange],
    memory: &mut [u32],
    late_memory: &mut [u32],
) -> (Report, Report)
    ensures calls { calls_of exchanges.new ≡ calls_of exchanges.old }
    ensures plain { first_seen exchanges.new memory.new result.0
        ≡ run (F.Walking.meant free) (C.Walking.meant class) (calls_of exchanges.old) memory.old }
    ensures late_plain { second_seen exchanges.new late_memory.new result.1
        ≡ run (G.Walking.meant late_free) (D.Walking.meant late_class) (calls_of exchanges.old) late_memory.old }
    ensures kept { Kept (F.Walking.meant free) (C.Walking.meant class) (calls_of exchanges.old) memory.old
        (first_seen exchanges.new memory.new result.0) }
    ensures late_kept { Kept (G.Walking.meant late_free) (D.Walking.meant late_class) (calls_of exchanges.old) late_memory.old
        (second_seen exchanges.new late_memory.new result.1) }
    ensures same { G.Walking.meant late_free ≡ F.Walking.meant free → D.Walking.meant late_class ≡ C.Walking.meant class
        → late_memory.old ≡ memory.old
        → second_seen exchanges.new late_memory.new result.1 ≡ first_seen exchanges.new memory.new result.0 }
{
    let mut round = Round::new(free, class);
    let mut late_round = Round::new(late_free, late_class);
    let mut at = 0;
    let mut late_at = 0;
    for exchange in exchanges.iter_mut() {
        let call = exchange.call;
        let first = turn(&mut round, call, memory, &mut at);
        let second = turn(&mut late_round, call, late_memory, &mut late_at);
        *exchange = Exchange {
            call,
            first,
            second,
        };
    }
    (round.close(), late_round.close())
}
