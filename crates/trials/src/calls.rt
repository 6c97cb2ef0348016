// The calls of a round at their edges.
use super::openings::opened;
use faults::Refusal;
use plain::{Plain, PlainSource};
use round::{Report, Round, Taken, Written};
use sets::{Counting, Walking};
use std::process::Abort;

// Bays 1, 2, 3, 8, 9, 10 and 11 of 16.
const FREE: [u8; 2] = [135, 7];
// Bays 2, 5, 9, 10 and 14 of 16.
const CHARGING: [u8; 2] = [18, 35];

// Bays 4 and 8 of 9.
const SIDES: [u8; 2] = [136, 0];

// The plain index of the bits, which are lawful.
fn index_of<'a>(rt: &impl Abort, last: u32, bits: &'a [u8]) -> Plain<'a> {
    opened(rt, Plain::empty(), PlainSource { last, bits })
}

fn report(handed: u32, stretches: u32, place: u32) -> Report {
    Report {
        handed,
        stretches,
        place,
    }
}

fn taken(bay: Option<u32>, stretches: u32) -> Taken {
    Taken { bay, stretches }
}

fn written(bays: u32, stretches: u32) -> Written {
    Written { bays, stretches }
}

fn counts<F: Counting, C: Walking>(rt: &impl Abort, round: &Round<F, C>) {
    let cases = [
        (0, 0, Err(Refusal::NoBay)),
        (0, 17, Err(Refusal::NoBay)),
        (1, 0, Err(Refusal::NoBay)),
        (17, 16, Err(Refusal::NoBay)),
        (u32::MAX, 1, Err(Refusal::NoBay)),
        (1, 1, Ok(1)),
        (1, 16, Ok(7)),
        (4, 7, Ok(0)),
        (3, 8, Ok(2)),
        (16, 16, Ok(0)),
        (1, 17, Err(Refusal::Beyond)),
        (17, 17, Err(Refusal::Beyond)),
        (1, u32::MAX, Err(Refusal::Beyond)),
        (u32::MAX, u32::MAX, Err(Refusal::Beyond)),
    ];
    for (a, b, due) in cases {
        assert_eq!(rt; round.count(a, b), due);
    }
}

fn nearests<F: Counting, C: Walking>(rt: &impl Abort, round: &Round<F, C>) {
    let cases = [
        (0, Err(Refusal::NoBay)),
        (1, Ok(Some(1))),
        (5, Ok(Some(3))),
        (6, Ok(Some(8))),
        (16, Ok(Some(11))),
        (17, Err(Refusal::Beyond)),
        (u32::MAX, Err(Refusal::Beyond)),
    ];
    for (p, due) in cases {
        assert_eq!(rt; round.nearest(p), due);
    }
}

fn signs<F: Counting, C: Walking>(rt: &impl Abort, round: &Round<F, C>) {
    let cases = [
        (0, Err(Refusal::NoSign)),
        (1, Ok(Some(1))),
        (2, Err(Refusal::Beyond)),
        (16, Err(Refusal::Beyond)),
        (17, Err(Refusal::NoSign)),
        (u32::MAX, Err(Refusal::NoSign)),
    ];
    for (sign, due) in cases {
        assert_eq!(rt; round.sign(sign), due);
    }
}

fn picks<F: Counting, C: Walking>(rt: &impl Abort, round: &Round<F, C>) {
    let cases = [
        (0, Err(Refusal::NoBay)),
        (1, Ok(1)),
        (7, Ok(11)),
        (8, Err(Refusal::TooFew)),
        (16, Err(Refusal::TooFew)),
        (17, Err(Refusal::TooFew)),
        (u32::MAX, Err(Refusal::TooFew)),
    ];
    for (k, due) in cases {
        assert_eq!(rt; round.pick(k), due);
    }
}

fn asks<F: Counting, C: Walking>(rt: &impl Abort, round: &Round<F, C>) {
    counts(rt, round);
    nearests(rt, round);
    signs(rt, round);
    picks(rt, round);
}

fn goes<F: Counting, C: Walking>(rt: &impl Abort, round: &mut Round<F, C>) {
    let cases = [
        (0, Err(Refusal::NoBay)),
        (1, Ok(())),
        (9, Ok(())),
        (8, Err(Refusal::Behind)),
        (16, Ok(())),
        (18, Err(Refusal::Beyond)),
        (u32::MAX, Err(Refusal::Beyond)),
        (17, Ok(())),
        (16, Err(Refusal::Behind)),
        (0, Err(Refusal::NoBay)),
        (17, Ok(())),
    ];
    for (q, due) in cases {
        assert_eq!(rt; round.go(q), due);
    }
    // At the end there is no bay and no stretch.
    assert_eq!(rt; round.next(), taken(None, 0));
}

fn sheets<F: Counting, C: Walking>(rt: &impl Abort, round: &mut Round<F, C>) {
    let mut empty = [];
    assert_eq!(rt; round.sheet(&mut empty), written(0, 0));
    let mut first = [7, 7];
    assert_eq!(rt; round.sheet(&mut first), written(2, 6));
    assert_eq!(rt; first, [2, 9]);
    let mut second = [7, 7, 7];
    assert_eq!(rt; round.sheet(&mut second), written(1, 3));
    assert_eq!(rt; second, [10, 7, 7]);
    assert_eq!(rt; round.sheet(&mut second), written(0, 0));
    assert_eq!(rt; second, [10, 7, 7]);
}

#[test]
fn calls_that_ask(rt: HostRuntime) {
    let free = index_of(&rt, 16, &FREE);
    let charging = index_of(&rt, 16, &CHARGING);
    let round = Round::new(&free, &charging);
    asks(&rt, &round);
    let closed = round.close();
    assert_eq!(rt; closed, report(0, 0, 1));
}

#[test]
fn calls_that_go(rt: HostRuntime) {
    let free = index_of(&rt, 16, &FREE);
    let charging = index_of(&rt, 16, &CHARGING);
    let mut round = Round::new(free, charging);
    goes(&rt, &mut round);
    let closed = round.close();
    assert_eq!(rt; closed, report(0, 0, 17));
}

#[test]
fn calls_that_write(rt: HostRuntime) {
    let free = index_of(&rt, 16, &FREE);
    let charging = index_of(&rt, 16, &CHARGING);
    let mut round = Round::new(free, charging);
    sheets(&rt, &mut round);
    let closed = round.close();
    assert_eq!(rt; closed, report(3, 9, 17));
}

// A round ends at the smaller of the two last bays, and sees no bay beyond it.
fn shorter<F: Counting, C: Walking>(rt: &impl Abort, round: &mut Round<F, C>) {
    assert_eq!(rt; round.count(1, 9), Ok(5));
    assert_eq!(rt; round.count(1, 10), Err(Refusal::Beyond));
    assert_eq!(rt; round.nearest(9), Ok(Some(9)));
    assert_eq!(rt; round.nearest(10), Err(Refusal::Beyond));
    assert_eq!(rt; round.pick(5), Ok(9));
    assert_eq!(rt; round.pick(6), Err(Refusal::TooFew));
    assert_eq!(rt; round.next(), taken(Some(8), 3));
    assert_eq!(rt; round.go(11), Err(Refusal::Beyond));
    assert_eq!(rt; round.next(), taken(None, 1));
    assert_eq!(rt; round.go(10), Ok(()));
}

#[test]
fn calls_up_to_the_smaller_last_bay(rt: HostRuntime) {
    let free = index_of(&rt, 16, &FREE);
    let sides = index_of(&rt, 9, &SIDES);
    let mut round = Round::new(free, sides);
    shorter(&rt, &mut round);
    let closed = round.close();
    assert_eq!(rt; closed, report(1, 4, 10));
}

#[test]
fn the_lower_bay_at_equal_distance(rt: HostRuntime) {
    let sides = index_of(&rt, 9, &SIDES);
    let round = Round::new(sides, sides);
    let nearest = round.nearest(6);
    let past = round.nearest(7);
    let _ = round.close();
    assert_eq!(rt; nearest, Ok(Some(4)));
    assert_eq!(rt; past, Ok(Some(8)));
}

// All 65,535 bays are common.
fn largest<F: Counting, C: Walking>(rt: &impl Abort, round: &mut Round<F, C>) {
    assert_eq!(rt; round.count(1, 65535), Ok(65535));
    assert_eq!(rt; round.count(1, 65536), Err(Refusal::Beyond));
    assert_eq!(rt; round.nearest(65535), Ok(Some(65535)));
    assert_eq!(rt; round.sign(16), Ok(Some(402)));
    assert_eq!(rt; round.pick(65535), Ok(65535));
    assert_eq!(rt; round.pick(65536), Err(Refusal::TooFew));
    assert_eq!(rt; round.next(), taken(Some(1), 1));
    assert_eq!(rt; round.go(65537), Err(Refusal::Beyond));
    assert_eq!(rt; round.go(65535), Ok(()));
    assert_eq!(rt; round.next(), taken(Some(65535), 1));
    assert_eq!(rt; round.next(), taken(None, 0));
    assert_eq!(rt; round.go(65536), Ok(()));
}

#[test]
fn calls_in_the_largest_garage(rt: HostRuntime) {
    let mut memory = [255; 8192];
    memory[8191] = 127;
    let all = index_of(&rt, 65535, &memory);
    let mut round = Round::new(all, all);
    largest(&rt, &mut round);
    let closed = round.close();
    assert_eq!(rt; closed, report(2, 2, 65536));
}
