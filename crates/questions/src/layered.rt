// The layers over plain sets and over one another, at every bay, against rows that are cut and turned.
use super::asked::questions;
use super::plain_form::opened;
use faults::Refusal;
use layers::{Level, Turned};
use sets::{Counting, Sort, Walking};
use std::process::Abort;
use std::test::Fail;

// Members 1, 2, 3, 8, 9, 10 and 11 of 16 bays.
const FREE: [u8; 2] = [135, 7];

const ROW: [bool; 16] = [
    true, true, true, false, false, false, false, true, true, true, true, false, false, false,
    false, false,
];

// A row with members and non-members exchanged.
fn turned(row: [bool; 16]) -> [bool; 16] {
    row.map(|member| !member)
}

// The bays `a` to `b` of a row.
fn part<'a>(rt: &'a impl Abort, row: &'a [bool], a: u32, b: u32) -> &'a [bool] {
    assert!(rt; 1 <= a && a <= b && b as usize <= row.len());
    &row[a as usize - 1..b as usize]
}

// The bays `a` to `b` of a set as a level, of which `row` has the members, and the level turned.
fn levels<S: Counting + Copy>(
    rt: &(impl Abort + AllocGlobal),
    set: S,
    row: &[bool; 16],
    a: u32,
    b: u32,
) -> Result<(), Fail> {
    let Ok(level) = Level::new(set, a, b) else {
        panic!(rt; "bays {a} to {b} were refused")
    };
    questions(rt, &level, part(rt, row, a, b))?;
    let over = Turned::new(level);
    questions(rt, &over, part(rt, &turned(*row), a, b))?;
    questions(rt, &over.into_below().into_below(), row)
}

#[test]
fn a_set_turned(rt: HostRuntime) -> Result<(), Fail> {
    let free = opened(&rt, 16, &FREE);
    questions(&rt, &free, &ROW)?;
    questions(&rt, &Turned::new(free), &turned(ROW))?;
    questions(&rt, &Turned::new(Turned::new(&free)), &ROW)?;
    questions(&rt, &Turned::new(free).into_below(), &ROW)
}

// A level over an index by value, and a level over that one.
#[test]
fn a_level_by_value(rt: HostRuntime) -> Result<(), Fail> {
    let free = opened(&rt, 16, &FREE);
    levels(&rt, free, &ROW, 3, 16)?;
    level_of_level(&rt, free, (3, 16), (2, 9))
}

#[test]
fn each_level_of_each_layer(rt: HostRuntime) -> Result<(), Fail> {
    let free = opened(&rt, 16, &FREE);
    let others = Turned::new(&free);
    for a in 1..=16 {
        for b in a..=16 {
            levels(&rt, &free, &ROW, a, b)?;
            levels(&rt, others, &turned(ROW), a, b)?;
        }
    }
    Ok(())
}

// Levels of levels: the bays `c` to `d` of the bays `a` to `b`.
fn level_of_level<S: Counting + Copy>(
    rt: &(impl Abort + AllocGlobal),
    set: S,
    (a, b): (u32, u32),
    (c, d): (u32, u32),
) -> Result<(), Fail> {
    let Ok(level) = Level::new(set, a, b) else {
        panic!(rt; "bays {a} to {b} were refused")
    };
    let Ok(upper) = Level::new(level, c, d) else {
        panic!(rt; "bays {c} to {d} of bays {a} to {b} were refused")
    };
    questions(rt, &upper, part(rt, part(rt, &ROW, a, b), c, d))
}

#[test]
fn levels_of_levels(rt: HostRuntime) -> Result<(), Fail> {
    let free = opened(&rt, 16, &FREE);
    let twice = Turned::new(Turned::new(&free));
    for (a, b, c, d) in [(1, 16, 1, 16), (3, 16, 1, 14), (3, 16, 6, 9), (2, 9, 8, 8)] {
        level_of_level(&rt, &free, (a, b), (c, d))?;
        level_of_level(&rt, twice, (a, b), (c, d))?;
    }
    Ok(())
}

// A level that is refused gives its set back.
fn refused<S: Counting + Copy>(
    rt: &(impl Abort + AllocGlobal),
    set: S,
    a: u32,
    b: u32,
    due: Refusal,
) -> Result<(), Fail> {
    let Err((back, refusal)) = Level::new(set, a, b) else {
        panic!(rt; "bays {a} to {b} were not refused")
    };
    assert_eq!(rt; refusal, due);
    questions(rt, &back, &ROW)
}

#[test]
fn refusals(rt: HostRuntime) -> Result<(), Fail> {
    let free = opened(&rt, 16, &FREE);
    let cases = [
        (0, 0, Refusal::NoBay),
        (0, 5, Refusal::NoBay),
        (5, 0, Refusal::NoBay),
        (0, 17, Refusal::NoBay),
        (0, u32::MAX, Refusal::NoBay),
        (4, 3, Refusal::NoBay),
        (18, 17, Refusal::NoBay),
        (u32::MAX, 1, Refusal::NoBay),
        (3, 17, Refusal::Beyond),
        (17, 17, Refusal::Beyond),
        (1, u32::MAX, Refusal::Beyond),
        (u32::MAX, u32::MAX, Refusal::Beyond),
    ];
    for (a, b, due) in cases {
        refused(&rt, &free, a, b, due)?;
        refused(&rt, Turned::new(Turned::new(&free)), a, b, due)?;
    }
    Ok(())
}

#[test]
fn an_upper_level(rt: HostRuntime) {
    let free = opened(&rt, 16, &FREE);
    let Ok(level) = Level::new(&free, 3, 16) else {
        panic!(&rt; "bays 3 to 16 were refused")
    };
    assert_eq!(rt; level.last(), 14);
    assert_eq!(rt; level.next(Sort::Members, 2), Some(6));
    assert_eq!(rt; level.previous(Sort::Members, 5), Some(1));
    assert_eq!(rt; level.rank(Sort::Members, 14), 5);
    assert_eq!(rt; level.select(Sort::Members, 5), Some(9));
    assert_eq!(rt; level.select(Sort::Others, 5), Some(10));
}

// The bays 2 to 65,535 of the largest garage, of which all but the last are members.
#[test]
fn the_largest_level(rt: HostRuntime) {
    let mut memory = [255; 8192];
    memory[8191] = 63;
    let most = opened(&rt, 65535, &memory);
    let Ok(level) = Level::new(&most, 2, 65535) else {
        panic!(&rt; "bays 2 to 65,535 were refused")
    };
    assert_eq!(rt; level.last(), 65534);
    assert_eq!(rt; level.next(Sort::Others, 0), Some(65534));
    assert_eq!(rt; level.previous(Sort::Members, u32::MAX), Some(65533));
    assert_eq!(rt; level.rank(Sort::Members, u32::MAX), 65533);
    assert_eq!(rt; level.select(Sort::Members, 65533), Some(65533));
    assert_eq!(rt; level.select(Sort::Members, 65534), None);
    assert_eq!(rt; level.select(Sort::Members, u32::MAX), None);
    assert_eq!(rt; level.select(Sort::Others, u32::MAX), None);
}
