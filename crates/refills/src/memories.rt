// Filling each form into memories that are longer than their parts, as long, one short, and empty; and what its slip tells.
use super::alike::alike;
use super::garages::{Garage, NONE, ODD, ONE, WORKED, opened};
use faults::{Fault, Flaw, Form};
use list::ListTold;
use pioneer::PioneerTold;
use plain::PlainTold;
use std::fmt::Debug;
use std::process::Abort;

// What each memory holds before.
const HELD: u8 = 170;

// What is answered where the first part without room is this one; 0 where each has room.
fn due(form: Form, part: u8) -> Result<(), Fault> {
    let flaw = Flaw::Room;
    if part == 0 {
        Ok(())
    } else {
        Err(Fault { flaw, form, part })
    }
}

// A memory has the part at its front if it was filled, and behind what it held.
fn shows<T: Copy + PartialEq + Debug + From<u8>>(
    rt: &impl Abort,
    memory: &[T],
    part: &[T],
    filled: bool,
) {
    let held = T::from(HELD);
    let front = if filled { part } else { &[] };
    assert!(rt; front.len() <= memory.len());
    for (n, number) in memory.iter().enumerate() {
        assert_eq!(rt; number, front.get(n).unwrap_or(&held), "{n}");
    }
}

#[test]
fn in_bits(rt: HostRuntime) {
    let cases: [(Garage, &[(usize, u8)]); 4] = [
        (WORKED, &[(0, 1), (1, 1), (2, 0), (3, 0)]),
        (ODD, &[(0, 1), (1, 1), (2, 1), (3, 0), (5, 0)]),
        (ONE, &[(0, 1), (1, 0), (2, 0)]),
        (NONE, &[(0, 1), (1, 0), (2, 0)]),
    ];
    for ((last, members), lengths) in cases {
        let set = opened(&rt, last, members);
        let bits = members.len();
        assert_eq!(rt; PlainTold::of(&set), PlainTold { last, bits });
        for (length, part) in lengths {
            let mut memory = [HELD; 5];
            assert!(rt; *length <= memory.len());
            let slip = plain::measure(set);
            assert_eq!(rt; slip.told(), PlainTold { last, bits });
            let (back, filled) = slip.fill(&mut memory[..*length]);
            alike(&rt, &back, &set, 1);
            assert_eq!(rt; filled, due(Form::Plain, *part), "{length}");
            shows(&rt, &memory, members, *part == 0);
        }
    }
}

#[test]
fn in_numbers(rt: HostRuntime) {
    let cases: [(Garage, &[u16], &[(usize, u8)]); 4] = [
        (
            WORKED,
            &[1, 2, 3, 8, 9, 10, 11],
            &[(0, 1), (6, 1), (7, 0), (8, 0)],
        ),
        (
            ODD,
            &[1, 3, 5, 7, 9, 11, 13, 15, 17],
            &[(8, 1), (9, 0), (10, 0)],
        ),
        (ONE, &[1], &[(0, 1), (1, 0), (2, 0)]),
        (NONE, &[], &[(0, 0), (1, 0)]),
    ];
    for ((last, bits), members, lengths) in cases {
        let set = opened(&rt, last, bits);
        let numbers = members.len();
        assert_eq!(rt; ListTold::of(&set), ListTold { last, numbers });
        for (length, part) in lengths {
            let mut memory = [u16::from(HELD); 10];
            assert!(rt; *length <= memory.len());
            let slip = list::measure(set);
            assert_eq!(rt; slip.told(), ListTold { last, numbers });
            let (back, filled) = slip.fill(&mut memory[..*length]);
            alike(&rt, &back, &set, 1);
            assert_eq!(rt; filled, due(Form::List, *part), "{length}");
            shows(&rt, &memory, members, *part == 0);
        }
    }
}

// Blocks of two, and memories for U, O and M.
fn fills_blocks(
    rt: &impl Abort,
    (last, bits): Garage,
    parts: [&[u8]; 3],
    lengths: &[([usize; 3], u8)],
) {
    let set = opened(rt, last, bits);
    for ([u, o, m], part) in lengths {
        let mut uniform = [HELD; 4];
        let mut marked = [HELD; 4];
        let mut mixed = [HELD; 4];
        assert!(rt; *u <= uniform.len() && *o <= marked.len() && *m <= mixed.len());
        match zombit::measure(set, 2) {
            Ok(slip) => {
                let (back, filled) = slip.fill(
                    &mut uniform[..*u],
                    &mut marked[..*o],
                    &mut mixed[..*m],
                );
                alike(rt, &back, &set, 1);
                assert_eq!(rt; filled, due(Form::Zombit, *part), "{u} {o} {m}");
            }
            Err((_, fault)) => panic!(rt; "{fault}"),
        }
        for (memory, written) in [uniform, marked, mixed].iter().zip(parts) {
            shows(rt, memory, written, *part == 0);
        }
    }
}

#[test]
fn in_blocks(rt: HostRuntime) {
    let cases = [
        ([4, 4, 4], 0),
        ([1, 1, 1], 0),
        ([0, 1, 1], 1),
        ([1, 0, 1], 2),
        ([1, 1, 0], 3),
        ([0, 0, 4], 1),
        ([4, 0, 0], 2),
    ];
    fills_blocks(&rt, WORKED, [&[213], &[59], &[25]], &cases);
    fills_blocks(&rt, ONE, [&[0], &[1], &[1]], &cases);
    let cases = [
        ([4, 4, 4], 0),
        ([2, 2, 3], 0),
        ([1, 2, 3], 1),
        ([2, 1, 3], 2),
        ([2, 2, 2], 3),
        ([2, 2, 0], 3),
        ([1, 1, 2], 1),
        ([4, 1, 2], 2),
        ([0, 0, 0], 1),
    ];
    fills_blocks(&rt, ODD, [&[0, 0], &[255, 1], &[85, 85, 1]], &cases);
    let cases = [
        ([4, 4, 4], 0),
        ([1, 1, 0], 0),
        ([0, 1, 0], 1),
        ([1, 0, 0], 2),
    ];
    fills_blocks(&rt, NONE, [&[3], &[0], &[]], &cases);
}

// So many members, and memories for the starts and the sums.
fn fills_runs(
    rt: &impl Abort,
    (last, bits): Garage,
    count: u32,
    parts: [&[u8]; 2],
    lengths: &[([usize; 2], u8)],
) {
    let set = opened(rt, last, bits);
    let told = PioneerTold {
        last,
        count,
        starts: parts[0].len(),
        sums: parts[1].len(),
    };
    assert_eq!(rt; PioneerTold::of(&set), told);
    for ([p, l], part) in lengths {
        let mut starts = [HELD; 4];
        let mut sums = [HELD; 4];
        assert!(rt; *p <= starts.len() && *l <= sums.len());
        let slip = pioneer::measure(set);
        assert_eq!(rt; slip.told(), told);
        let (back, filled) = slip.fill(&mut starts[..*p], &mut sums[..*l]);
        alike(rt, &back, &set, 1);
        assert_eq!(rt; filled, due(Form::Pioneer, *part), "{p} {l}");
        for (memory, written) in [starts, sums].iter().zip(parts) {
            shows(rt, memory, written, *part == 0);
        }
    }
}

#[test]
fn in_runs(rt: HostRuntime) {
    let cases = [
        ([4, 4], 0),
        ([2, 1], 0),
        ([1, 1], 1),
        ([2, 0], 2),
        ([0, 0], 1),
        ([0, 4], 1),
        ([4, 0], 2),
    ];
    fills_runs(&rt, WORKED, 7, [&[129, 0], &[68]], &cases);
    let cases = [([3, 2], 0), ([2, 2], 1), ([3, 1], 2), ([2, 1], 1)];
    fills_runs(&rt, ODD, 9, [&[85, 85, 1], &[255, 1]], &cases);
    let cases = [([1, 1], 0), ([0, 1], 1), ([1, 0], 2)];
    fills_runs(&rt, ONE, 1, [&[1], &[1]], &cases);
    let cases = [([1, 0], 0), ([4, 4], 0), ([0, 0], 1)];
    fills_runs(&rt, NONE, 0, [&[0], &[]], &cases);
}
