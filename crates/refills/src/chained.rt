// Two fills, one upon the other, in every pair of forms: what is opened at the end, and what was written.
use super::alike::alike;
use super::garages::opened;
use super::steps::Filled;
use forms::Choice;
use plain::Plain;
use std::alloc::{AllocError, Global};
use std::process::Abort;
use std::test::Fail;

const CHOICES: [Choice; 9] = [
    Choice::Plain,
    Choice::List,
    Choice::Zombit { size: 2 },
    Choice::Zombit { size: 3 },
    Choice::Zombit { size: 7 },
    Choice::Zombit { size: 16 },
    Choice::Zombit { size: 100 },
    Choice::Zombit { size: 4096 },
    Choice::Pioneer,
];

// Short and long runs.
const RUNS: [u8; 16] = [
    231, 0, 255, 60, 0, 0, 0, 254, 255, 255, 255, 63, 0, 1, 128, 37,
];
// Every second bay; runs; none; all.
const PATTERNS: [[u8; 16]; 4] = [[85; 16], RUNS, [0; 16], [255; 16]];

// The bits of the pattern, over and over, up to the last bay.
fn bits_of(alloc: Global, pattern: [u8; 16], last: u32) -> Result<Vec<u8>, AllocError> {
    let mut bits: Vec<u8> = pattern
        .iter()
        .copied()
        .cycle()
        .take((last as usize).div_ceil(8))
        .collect(alloc)?;
    if let Some(byte) = bits.last_mut() {
        *byte &= 255 >> ((8 - last % 8) % 8);
    }
    Ok(bits)
}

// Fills a set in one form, and what is opened there in another, as if the set had been filled there at once.
fn refills<R: Abort + AllocGlobal>(
    rt: &R,
    set: &Plain,
    [first, second]: [Choice; 2],
    step: usize,
) -> Result<(), Fail> {
    let once = Filled::new(rt, rt.alloc(), set, first)?;
    let twice = Filled::new(rt, rt.alloc(), &once.open(rt)?, second)?;
    let at_once = Filled::new(rt, rt.alloc(), set, second)?;
    assert_eq!(rt; twice, at_once, "{first:?} {second:?}");
    alike(rt, &twice.open(rt)?, set, step);
    Ok(())
}

#[test]
fn every_pair_of_forms(rt: HostRuntime) -> Result<(), Fail> {
    for last in [1, 2, 3, 7, 8, 9, 16, 63, 64, 65, 320] {
        for pattern in PATTERNS {
            let bits = bits_of(rt.alloc(), pattern, last)?;
            let set = opened(&rt, last, &bits);
            for first in CHOICES {
                for second in CHOICES {
                    refills(&rt, &set, [first, second], 1)?;
                }
            }
        }
    }
    Ok(())
}

// As many bays as a set can have, of which every 4,093rd is asked.
#[test]
fn most_bays(rt: HostRuntime) -> Result<(), Fail> {
    let bits = bits_of(rt.alloc(), RUNS, 65535)?;
    let set = opened(&rt, 65535, &bits);
    for first in CHOICES {
        for second in CHOICES {
            refills(&rt, &set, [first, second], 4093)?;
        }
    }
    Ok(())
}
