// Fills the two sets of the worked garage through several forms, and asks two readers, one of the first sets and one of what came
// from them, the same list of calls.
#![tactic(auto)]

use chains::Plan;
use forms::Choice;
use opening::open_pair;
use plain::{Plain, PlainSource};
use readers::read_refilled;
use replay::{Call, Exchange};

// The garage has 16 bays.
const LAST: u32 = 16;
// Bays 1, 2, 3, 8, 9, 10 and 11 are free.
const FREE: [u8; 2] = [135, 7];
// Bays 2, 5, 9, 10 and 14 are charging bays.
const CHARGING: [u8; 2] = [18, 35];

// The forms that the free bays go through, and those that the charging bays go through.
const FREE_FORMS: [Choice; 5] = [
    Choice::Zombit { size: 2 },
    Choice::List,
    Choice::Pioneer,
    Choice::Plain,
    Choice::Zombit { size: 4096 },
];

const CHARGING_FORMS: [Choice; 3] = [Choice::Pioneer, Choice::Zombit { size: 3 }, Choice::List];

const CALLS: [Call; 16] = [
    Call::Count { a: 1, b: 16 },
    Call::Count { a: 9, b: 17 },
    Call::Nearest(6),
    Call::Sign(1),
    Call::Sign(2),
    Call::Pick(5),
    Call::Pick(8),
    Call::Next,
    Call::Go(2),
    Call::Go(4),
    Call::Sheet(1),
    Call::Sheet(0),
    Call::Next,
    Call::Sheet(3),
    Call::Next,
    Call::Sign(17),
];

// Numbers of a reader's memory: those that the sheets take, and one more.
const ROOM: usize = 5;

fn run(rt: &HostRuntime) -> anyhow::Result<()> {
    let mut free = Plain::empty();
    let mut charging = Plain::empty();
    open_pair(
        &mut free,
        &mut charging,
        PlainSource {
            last: LAST,
            bits: &FREE,
        },
        PlainSource {
            last: LAST,
            bits: &CHARGING,
        },
    )?;
    let plan = Plan {
        free: &FREE_FORMS,
        class: &CHARGING_FORMS,
    };
    let mut bytes = [0; 600];
    let mut numbers = [0; 16];
    let mut exchanges = CALLS.map(Exchange::new);
    let mut memory = [0; ROOM];
    let mut late_memory = [0; ROOM];
    let (report, late_report) = read_refilled(
        free,
        charging,
        plan,
        &mut bytes,
        &mut numbers,
        &mut exchanges,
        &mut memory,
        &mut late_memory,
    )?;
    for choice in plan.free {
        println!(rt; "F {choice}")?;
    }
    for choice in plan.class {
        println!(rt; "C {choice}")?;
    }
    for exchange in &exchanges {
        println!(rt; "{exchange}")?;
    }
    for (bay, late_bay) in memory.iter().zip(&late_memory) {
        println!(rt; "memory: {bay} | {late_bay}")?;
    }
    println!(rt; "closed: {report} | {late_report}")?;
    Ok(())
}

fn main(rt: HostRuntime) -> anyhow::Result<()> {
    run(&rt)
}
