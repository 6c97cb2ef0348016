// Prints the rows of the round through the worked garage, and its closing report.
#![tactic(auto)]

use listing::list_round;
use opening::open_pair;
use plain::{Plain, PlainSource};
use round::Taken;

// The garage has 16 bays.
const LAST: u32 = 16;
// Bays 1, 2, 3, 8, 9, 10 and 11 are free.
const FREE: [u8; 2] = [135, 7];
// Bays 2, 5, 9, 10 and 14 are charging bays.
const CHARGING: [u8; 2] = [18, 35];
// A row for each bay, and one for none.
const ROWS: usize = 17;

fn run(rt: &HostRuntime) -> anyhow::Result<()> {
    let mut free = Plain::empty();
    let mut charging = Plain::empty();
    open_pair(
        &mut free,
        &mut charging,
        PlainSource {
            last: LAST,
            bits: &FREE,
        },
        PlainSource {
            last: LAST,
            bits: &CHARGING,
        },
    )?;
    let mut rows = [Taken {
        bay: None,
        stretches: 0,
    }; ROWS];
    let listed = list_round(free, charging, &mut rows);
    for row in rows.iter().take(listed.rows) {
        println!(rt; "{row}")?;
    }
    let report = listed.report;
    println!(rt; "{report}")?;
    Ok(())
}

fn main(rt: HostRuntime) -> anyhow::Result<()> {
    run(&rt)
}
