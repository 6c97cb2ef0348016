// Opening a list index: each refusal at its edge, and what the index is then.
use super::openings::{old, open_over, refused};
use faults::{Fault, Flaw, Form};
use list::{List, ListSource};
use sets::{Counting, Sort, Walking};
use std::process::Abort;
use std::test::Fail;

fn source<'a>(last: u32, numbers: &'a [u16]) -> ListSource<'a> {
    ListSource { last, numbers }
}

// Opens numbers in the place of another index.
fn opens(rt: &impl Abort, last: u32, numbers: &[u16], due: Result<(), Fault>) {
    let old = old(rt, List::empty(), source(3, &[1, 3]));
    let index = open_over(rt, old, source(last, numbers), due);
    if due.is_ok() {
        assert_eq!(rt; index.last(), last);
        assert_eq!(rt; index.rank(Sort::Members, last) as usize, numbers.len());
    }
}

#[test]
fn lawful_and_damaged(rt: HostRuntime) {
    let wrong = refused(Form::List, Flaw::Numbers, 0);
    let content = refused(Form::List, Flaw::Content, 1);
    let cases: [(u32, &[u16], Result<(), Fault>); 25] = [
        (0, &[], wrong),
        (0, &[0, 0, 0], wrong),
        (65536, &[1, 2, 3], wrong),
        (65536, &[3, 2, 1], wrong),
        (u32::MAX, &[], wrong),
        (1, &[], Ok(())),
        (1, &[1], Ok(())),
        (1, &[1, 2], content),
        (1, &[0], content),
        (1, &[2], content),
        (3, &[1, 2, 3], Ok(())),
        (2, &[1, 2, 3], content),
        (3, &[0, 1, 2], content),
        (3, &[1, 1, 2], content),
        (3, &[1, 2, 2], content),
        (3, &[1, 3, 2], content),
        (3, &[2, 1, 3], content),
        (3, &[1, 2, 0], content),
        (3, &[1, 2, 4], content),
        (65535, &[1, 65534, 65535], Ok(())),
        (65534, &[1, 65534, 65535], content),
        (65534, &[1, 65534], Ok(())),
        (65535, &[65535], Ok(())),
        (65535, &[65535, 65535], content),
        (65535, &[65535, 0], content),
    ];
    for (last, numbers, due) in cases {
        opens(&rt, last, numbers, due);
    }
}

#[test]
fn garage(rt: HostRuntime) {
    let numbers = [1, 2, 3, 8, 9, 10, 11];
    opens(&rt, 16, &numbers, Ok(()));
    opens(&rt, 11, &numbers, Ok(()));
    opens(&rt, 10, &numbers, refused(Form::List, Flaw::Content, 1));
    opens(&rt, 10, &numbers[..6], Ok(()));
}

// All 65,535 bays, and behind a 0.
#[test]
fn all_of_the_most_bays(rt: HostRuntime) -> Result<(), Fail> {
    let content = refused(Form::List, Flaw::Content, 1);
    let behind_zero: Vec<u16> = (0..=65535).collect(rt.alloc())?;
    let all: Vec<u16> = (1..=65535).collect(rt.alloc())?;
    let index = open_over(&rt, List::empty(), source(65535, &behind_zero), content);
    let index = open_over(&rt, index, source(65534, &all), content);
    assert_eq!(rt; index.last(), 1);
    let index = open_over(&rt, index, source(65535, &all), Ok(()));
    assert!(rt; index.holds(1) && index.holds(65535) && !index.holds(65536));
    assert_eq!(rt; index.rank(Sort::Members, u32::MAX), 65535);
    assert_eq!(rt; index.next(Sort::Others, 1), None);
    assert_eq!(rt; index.select(Sort::Members, 65535), Some(65535));
    assert_eq!(rt; index.select(Sort::Others, 1), None);
    Ok(())
}
