// Every question of a set, at each bay and beyond, against another that stands for the same bays.
use sets::{Counting, Sort};
use std::process::Abort;

// The questions at one number.
fn at<S: Counting, T: Counting>(rt: &impl Abort, set: &S, other: &T, sort: Sort, i: u32) {
    assert_eq!(rt; set.holds(i), other.holds(i), "{i}");
    assert_eq!(rt; set.next(sort, i), other.next(sort, i), "{sort:?} {i}");
    assert_eq!(rt;
        set.previous(sort, i),
        other.previous(sort, i),
        "{sort:?} {i}"
    );
    assert_eq!(rt; set.rank(sort, i), other.rank(sort, i), "{sort:?} {i}");
    assert_eq!(rt; set.select(sort, i), other.select(sort, i), "{sort:?} {i}");
}

// Every `step`th number up to the last bay, and the numbers beyond.
pub(crate) fn alike<S: Counting, T: Counting>(rt: &impl Abort, set: &S, other: &T, step: usize) {
    assert!(rt; step != 0);
    let last = other.last();
    assert_eq!(rt; set.last(), last);
    for sort in [Sort::Members, Sort::Others] {
        for i in (0..=last).step_by(step) {
            at(rt, set, other, sort, i);
        }
        for i in [last, last.saturating_add(1), 65536, u32::MAX] {
            at(rt, set, other, sort, i);
        }
    }
}
