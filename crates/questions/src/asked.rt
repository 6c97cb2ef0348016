// Every question of a set, at each bay and beyond, against a row of yes and no.
use sets::{Counting, Sort};
use std::alloc::{AllocError, Global};
use std::process::Abort;
use std::test::Fail;

// The bays of a sort in a row.
fn bays_of(alloc: Global, row: &[bool], sort: Sort) -> Result<Vec<u32>, AllocError> {
    (1..)
        .zip(row)
        .filter(|(_, member)| **member == (sort == Sort::Members))
        .map(|(bay, _)| bay)
        .collect(alloc)
}

// Holds, rank, previous and next at 0, at each bay and beyond the last, where `bays` are those of the sort.
fn walk<S: Counting>(rt: &impl Abort, set: &S, row: &[bool], sort: Sort, bays: &[u32]) {
    let last = set.last();
    for i in (0..=last).chain([last.saturating_add(1), 65535, 65536, u32::MAX]) {
        let member = i != 0 && matches!(row.get(i as usize - 1), Some(true));
        let up_to = bays.partition_point(|bay| *bay <= i);
        let below = bays.partition_point(|bay| *bay < i);
        let previous = bays[..up_to].last().copied();
        let next = bays[below..].first().copied();
        assert_eq!(rt; set.holds(i), member, "{i}");
        assert_eq!(rt; set.rank(sort, i) as usize, up_to, "{sort:?} {i}");
        assert_eq!(rt; set.previous(sort, i), previous, "{sort:?} {i}");
        assert_eq!(rt; set.next(sort, i), next, "{sort:?} {i}");
    }
}

// Select at 0, at the number of each bay of the sort and beyond.
fn count<S: Counting>(rt: &impl Abort, set: &S, sort: Sort, bays: &[u32]) {
    assert_eq!(rt; set.select(sort, 0), None);
    for (n, bay) in (1..).zip(bays.iter().map(|bay| Some(*bay)).chain([None])) {
        assert_eq!(rt; set.select(sort, n), bay, "{sort:?} {n}");
    }
    assert_eq!(rt; set.select(sort, u32::MAX), None);
}

// The bits after some bays, in memories of some lengths that held ones before.
fn pack<S: Counting>(rt: &impl Abort, set: &S, row: &[bool]) {
    let last = set.last();
    let ends = [last.saturating_sub(1), last, last.saturating_add(1)];
    let passed = [0, 1, 2, 7, 8, 9, 63, 64, 65, 65534, 65535, 65536, u32::MAX];
    for before in passed.into_iter().chain(ends) {
        for length in [0, 1, 9, 42] {
            let mut memory = [255u8; 42];
            set.bits(before, &mut memory[..length]);
            for place in 0..8 * length {
                let member = row.get(before as usize + place) == Some(&true);
                let bit = (memory[place / 8] >> (place % 8)) % 2 == 1;
                assert_eq!(rt; bit, member, "{before} {place}");
            }
            assert!(rt; memory[length..].iter().all(|byte| *byte == 255));
        }
    }
}

// Every question of a set, of which a row has the members.
pub(crate) fn questions<S: Counting>(
    rt: &(impl Abort + AllocGlobal),
    set: &S,
    row: &[bool],
) -> Result<(), Fail> {
    assert_eq!(rt; set.last() as usize, row.len());
    for sort in [Sort::Members, Sort::Others] {
        let bays = bays_of(rt.alloc(), row, sort)?;
        walk(rt, set, row, sort, &bays);
        count(rt, set, sort, &bays);
    }
    pack(rt, set, row);
    Ok(())
}

// The questions of the set of 65,535 bays whose members are 1, 64, 65 and 65,535.
pub(crate) fn far_members<S: Counting>(rt: &impl Abort, set: &S) {
    assert_eq!(rt; set.next(Sort::Members, 2), Some(64));
    assert_eq!(rt; set.next(Sort::Members, 66), Some(65535));
    assert_eq!(rt; set.next(Sort::Members, 65536), None);
    assert_eq!(rt; set.previous(Sort::Members, 65534), Some(65));
    assert_eq!(rt; set.previous(Sort::Others, 65535), Some(65534));
    assert_eq!(rt; set.next(Sort::Others, 64), Some(66));
    assert_eq!(rt; set.rank(Sort::Members, 65534), 3);
    assert_eq!(rt; set.rank(Sort::Others, 65535), 65531);
    assert_eq!(rt; set.select(Sort::Members, 4), Some(65535));
    assert_eq!(rt; set.select(Sort::Others, 65531), Some(65534));
    assert_eq!(rt; set.select(Sort::Others, 65532), None);
}
