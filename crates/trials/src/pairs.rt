// Opening a pair of each form: each side damaged in turn, and what the two indexes are then.
use super::openings::{old, opened};
use super::plain_form::source;
use faults::{Fault, Flaw, Form};
use list::{List, ListSource};
use opening::{Opens, PairFault, Side, open_pair};
use pioneer::{Pioneer, PioneerSource};
use plain::Plain;
use sets::Walking;
use std::process::Abort;
use zombit::{Zombit, ZombitSource};

fn refused(side: Side, flaw: Flaw, part: u8) -> Result<(), PairFault> {
    let form = Form::Plain;
    Err(PairFault {
        side,
        fault: Fault { flaw, form, part },
    })
}

// Opens two sources in the places of two indexes, which are still there after a refusal.
fn open_over<X: Opens + PartialEq>(
    rt: &impl Abort,
    old: (X, X),
    sources: (X::Source, X::Source),
    due: Result<(), PairFault>,
) -> (X, X) {
    let (mut f, mut c) = old;
    assert_eq!(rt; open_pair(&mut f, &mut c, sources.0, sources.1), due);
    assert!(rt; due.is_ok() || f == old.0 && c == old.1);
    (f, c)
}

#[test]
fn pairs(rt: HostRuntime) {
    let old_f = old(&rt, Plain::empty(), source(3, &[5]));
    let old_c = opened(&rt, Plain::empty(), source(3, &[2]));
    assert_eq!(rt; old_c.last(), 3);
    assert!(rt; !old_c.holds(1) && old_c.holds(2) && !old_c.holds(3));
    let cases = [
        (8, 8, Ok(())),
        (8, 4, Ok(())),
        (0, 8, refused(Side::F, Flaw::Numbers, 0)),
        (9, 8, refused(Side::F, Flaw::Length, 1)),
        (7, 8, refused(Side::F, Flaw::Content, 1)),
        (8, 65536, refused(Side::C, Flaw::Numbers, 0)),
        (8, 9, refused(Side::C, Flaw::Length, 1)),
        (8, 1, refused(Side::C, Flaw::Content, 1)),
        (7, 0, refused(Side::F, Flaw::Content, 1)),
        (9, 1, refused(Side::F, Flaw::Length, 1)),
        (0, 0, refused(Side::F, Flaw::Numbers, 0)),
    ];
    for (f_last, c_last, due) in cases {
        let sources = (source(f_last, &[128]), source(c_last, &[2]));
        let (f, c) = open_over(&rt, (old_f, old_c), sources, due);
        if due.is_ok() {
            assert!(rt; f.last() == f_last && c.last() == c_last);
            assert!(rt; f.holds(8) && !f.holds(2) && c.holds(2) && !c.holds(8));
        }
    }
}

// Opens two sources over copies of an index of one bay: of 16 bays where there is no fault.
fn open_sources<X: Opens + PartialEq>(
    rt: &impl Abort,
    empty: X,
    f_source: X::Source,
    c_source: X::Source,
    due: Result<(), PairFault>,
) {
    let (f, c) = open_over(rt, (empty, empty), (f_source, c_source), due);
    let last = if due.is_ok() { 16 } else { 1 };
    assert!(rt; f.last() == last && c.last() == last);
}

// A lawful source of 16 bays, and a damaged one, on either side.
fn each_side<X: Opens + PartialEq>(
    rt: &impl Abort,
    empty: X,
    lawful: X::Source,
    damaged: X::Source,
    fault: Fault,
) {
    let of_f = Err(PairFault {
        side: Side::F,
        fault,
    });
    let of_c = Err(PairFault {
        side: Side::C,
        fault,
    });
    open_sources(rt, empty, lawful, lawful, Ok(()));
    open_sources(rt, empty, damaged, lawful, of_f);
    open_sources(rt, empty, lawful, damaged, of_c);
    open_sources(rt, empty, damaged, damaged, of_f);
}

fn fault(flaw: Flaw, form: Form, part: u8) -> Fault {
    Fault { flaw, form, part }
}

#[test]
fn pairs_of_lists(rt: HostRuntime) {
    let lawful = ListSource {
        last: 16,
        numbers: &[1, 2, 3, 8, 9, 10, 11],
    };
    let damaged = ListSource {
        numbers: &[2, 1],
        ..lawful
    };
    let due = fault(Flaw::Content, Form::List, 1);
    each_side(&rt, List::empty(), lawful, damaged, due);
}

#[test]
fn pairs_in_blocks(rt: HostRuntime) {
    let lawful = ZombitSource {
        last: 16,
        size: 2,
        uniform: &[213],
        marked: &[59],
        mixed: &[25],
    };
    let small = ZombitSource { size: 1, ..lawful };
    let full = ZombitSource {
        mixed: &[27],
        ..lawful
    };
    let unmarked = ZombitSource {
        marked: &[57],
        ..full
    };
    let cases = [
        (small, fault(Flaw::BlockSize, Form::Zombit, 0)),
        (unmarked, fault(Flaw::Unlawful, Form::Zombit, 2)),
        (full, fault(Flaw::Unlawful, Form::Zombit, 3)),
    ];
    for (damaged, due) in cases {
        each_side(&rt, Zombit::empty(), lawful, damaged, due);
    }
}

#[test]
fn pairs_of_runs(rt: HostRuntime) {
    let lawful = PioneerSource {
        last: 16,
        count: 7,
        starts: &[129, 0],
        sums: &[68],
    };
    let touching = PioneerSource {
        starts: &[9, 0],
        ..lawful
    };
    let due = fault(Flaw::Unlawful, Form::Pioneer, 2);
    each_side(&rt, Pioneer::empty(), lawful, touching, due);
}
