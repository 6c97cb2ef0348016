// Measuring in blocks: which block sizes are refused, and what is told of the others.
use super::alike::alike;
use super::garages::{Garage, NONE, ODD, ONE, WORKED, opened};
use faults::{Fault, Flaw, Form};
use plain::Plain;
use std::process::Abort;
use zombit::{ZombitTold, measure};

// Measures a set, which comes back from a refusal, and from a slip that was spent on no memory.
fn measured(rt: &impl Abort, set: Plain, size: u32) -> Result<ZombitTold, Fault> {
    match measure(set, size) {
        Ok(slip) => {
            let told = slip.told();
            let (back, filled) = slip.fill(&mut [], &mut [], &mut []);
            assert!(rt; filled.is_err());
            alike(rt, &back, &set, 1);
            Ok(told)
        }
        Err((back, fault)) => {
            alike(rt, &back, &set, 1);
            Err(fault)
        }
    }
}

#[test]
fn block_sizes(rt: HostRuntime) {
    let fault = Fault {
        flaw: Flaw::BlockSize,
        form: Form::Zombit,
        part: 0,
    };
    assert_eq!(rt; fault.flaw.number(), 4);
    for (last, bits) in [WORKED, ODD, ONE, NONE] {
        let set = opened(&rt, last, bits);
        for size in [0, 1, 4097, u32::MAX] {
            assert_eq!(rt; measured(&rt, set, size), Err(fault), "{size}");
            assert_eq!(rt; ZombitTold::of(&set, size), Err(fault), "{size}");
        }
    }
}

// Bytes of U, O and M.
#[test]
fn lengths(rt: HostRuntime) {
    let cases: [(Garage, u32, [usize; 3]); 9] = [
        (WORKED, 2, [1, 1, 1]),
        (ODD, 2, [2, 2, 3]),
        (ONE, 2, [1, 1, 1]),
        (NONE, 2, [1, 1, 0]),
        (WORKED, 8, [1, 1, 2]),
        (WORKED, 4096, [1, 1, 512]),
        (ODD, 4096, [1, 1, 512]),
        (ONE, 4096, [1, 1, 512]),
        (NONE, 4096, [1, 1, 0]),
    ];
    for ((last, bits), size, [uniform, marked, mixed]) in cases {
        let set = opened(&rt, last, bits);
        let due = ZombitTold {
            last,
            size,
            uniform,
            marked,
            mixed,
        };
        assert_eq!(rt; measured(&rt, set, size), Ok(due));
        assert_eq!(rt; ZombitTold::of(&set, size), Ok(due));
    }
}
