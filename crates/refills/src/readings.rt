// The worked garage, read by two readers, of whom the second reads what its sets were filled into, step by step.
use super::desks::{Asked, Desk, Memories};
use chains::{ChainFault, Plan};
use faults::{Fault, Flaw, Form, Refusal};
use forms::Choice;
use opening::Side;
use replay::{Answer, Call};
use round::{Report, Taken, Written};
use std::process::Abort;
use std::test::Fail;

const PAIRS: Choice = Choice::Zombit { size: 2 };

const ONE_BLOCK: Choice = Choice::Zombit { size: 16 };

// The forms of the free bays, and those of the charging bays.
type Forms = (&'static [Choice], &'static [Choice]);

// Three and four forms, which take 13 bytes and 10 numbers.
const SHORT: Forms = (
    &[Choice::Plain, PAIRS, Choice::Pioneer],
    &[Choice::List, Choice::Plain, PAIRS, Choice::List],
);
// Five and five.
const LONG: Forms = (
    &[
        Choice::Pioneer,
        Choice::List,
        Choice::Plain,
        ONE_BLOCK,
        Choice::List,
    ],
    &[
        Choice::List,
        ONE_BLOCK,
        PAIRS,
        Choice::Plain,
        Choice::Pioneer,
    ],
);

// The memories of both readers before.
const FRESH: Memories = ([7; 6], [8; 8]);

fn taken(bay: Option<u32>, stretches: u32) -> Asked {
    (Call::Next, Answer::Next(Taken { bay, stretches }))
}

fn sheet(k: u32, bays: u32, stretches: u32) -> Asked {
    (Call::Sheet(k), Answer::Sheet(Written { bays, stretches }))
}

// Bay by bay to the end; the calls that are refused change nothing.
fn bay_by_bay() -> [Asked; 10] {
    [
        taken(Some(2), 2),
        (Call::Count { a: 1, b: 16 }, Answer::Count(Ok(7))),
        (
            Call::Count { a: 0, b: 16 },
            Answer::Count(Err(Refusal::NoBay)),
        ),
        (Call::Go(2), Answer::Go(Err(Refusal::Behind))),
        taken(Some(9), 4),
        (Call::Nearest(5), Answer::Nearest(Ok(Some(3)))),
        (Call::Sign(2), Answer::Sign(Err(Refusal::Beyond))),
        taken(Some(10), 1),
        (Call::Pick(8), Answer::Pick(Err(Refusal::TooFew))),
        taken(None, 2),
    ]
}

// Reads through accepted forms, into exactly the room that they take and into more.
fn reads<R: Abort + AllocGlobal>(
    rt: &R,
    (free, class): Forms,
    parts: (&[u8], &[u16]),
    asked: &[Asked],
    memories: Memories,
) -> Result<(), Fail> {
    let report = Report {
        handed: 3,
        stretches: 9,
        place: 17,
    };
    for spare in [0, 3] {
        let due = Desk::written(rt.alloc(), parts, spare, asked, memories)?;
        let mut desk = Desk::new(rt.alloc(), due.room(), asked, FRESH)?;
        let reports = desk.read(rt, Plan { free, class });
        assert_eq!(rt; reports, Ok((report, report)));
        assert_eq!(rt; desk, due);
    }
    Ok(())
}

#[test]
fn chains_of_any_length(rt: HostRuntime) -> Result<(), Fail> {
    let asked = bay_by_bay();
    let cases: [(Forms, (&[u8], &[u16])); 6] = [
        ((&[], &[]), (&[], &[])),
        ((&[Choice::Plain], &[]), (&[135, 7], &[])),
        ((&[], &[Choice::List]), (&[], &[2, 5, 9, 10, 14])),
        (
            (&[Choice::List], &[PAIRS, Choice::List, Choice::Pioneer]),
            (
                &[186, 85, 38, 18, 33, 27],
                &[1, 2, 3, 8, 9, 10, 11, 2, 5, 9, 10, 14],
            ),
        ),
        (
            SHORT,
            (
                &[135, 7, 213, 59, 25, 129, 0, 68, 18, 35, 186, 85, 38],
                &[2, 5, 9, 10, 14, 2, 5, 9, 10, 14],
            ),
        ),
        (
            LONG,
            (
                &[
                    129, 0, 68, 135, 7, 0, 1, 135, 7, 0, 1, 18, 35, 186, 85, 38, 18, 35, 18, 33, 27,
                ],
                &[
                    1, 2, 3, 8, 9, 10, 11, 1, 2, 3, 8, 9, 10, 11, 2, 5, 9, 10, 14,
                ],
            ),
        ),
    ];
    let memories = ([7; 6], [7, 7, 7, 7, 7, 7, 8, 8]);
    for (forms, parts) in cases {
        reads(&rt, forms, parts, &asked, memories)?;
    }
    Ok(())
}

// Each reader's sheets take the next numbers of its own memory, or what is left. The second's begins as a copy of the first's.
#[test]
fn sheets(rt: HostRuntime) -> Result<(), Fail> {
    let forms: Forms = (&[PAIRS, Choice::Plain], &[Choice::Pioneer]);
    let parts: (&[u8], &[u16]) = (&[213, 59, 25, 135, 7, 18, 33, 27], &[]);
    let by_two = [
        sheet(0, 0, 0),
        sheet(2, 2, 6),
        (Call::Go(0), Answer::Go(Err(Refusal::NoBay))),
        sheet(3, 1, 3),
        sheet(9, 0, 0),
    ];
    let memories = ([2, 9, 10, 7, 7, 7], [2, 9, 10, 7, 7, 7, 8, 8]);
    reads(&rt, forms, parts, &by_two, memories)?;
    let to_the_end = [
        sheet(1, 1, 2),
        sheet(u32::MAX, 2, 7),
        sheet(1, 0, 0),
        taken(None, 0),
    ];
    reads(&rt, forms, parts, &to_the_end, memories)
}

// The set, its step, and what is wrong there.
type Refused = (Side, usize, Fault);

// Chains that are refused leave all as it was.
fn refuses<R: Abort + AllocGlobal>(
    rt: &R,
    (free, class): Forms,
    room: (usize, usize),
    (side, step, fault): Refused,
) -> Result<(), Fail> {
    let due = ChainFault { side, step, fault };
    let asked = bay_by_bay();
    let before = Desk::new(rt.alloc(), room, &asked, FRESH)?;
    let mut desk = Desk::new(rt.alloc(), room, &asked, FRESH)?;
    let read = desk.read(rt, Plan { free, class });
    assert_eq!(rt; read, Err(due), "{room:?}");
    assert_eq!(rt; desk, before);
    Ok(())
}

// A block size is refused wherever it stands, before any room is looked at.
#[test]
fn block_sizes(rt: HostRuntime) -> Result<(), Fail> {
    const NONE: Choice = Choice::Zombit { size: 0 };
    const SMALL: Choice = Choice::Zombit { size: 1 };
    const LARGE: Choice = Choice::Zombit { size: 4097 };
    let fault = Fault {
        flaw: Flaw::BlockSize,
        form: Form::Zombit,
        part: 0,
    };
    let cases: [(Forms, Side, usize); 5] = [
        (
            (&[Choice::Plain], &[Choice::List, PAIRS, SMALL]),
            Side::C,
            3,
        ),
        ((&[Choice::Plain], &[LARGE, SMALL]), Side::C, 1),
        ((&[PAIRS, NONE, LARGE], &[SMALL]), Side::F, 2),
        ((&[LARGE], &[]), Side::F, 1),
        ((&[], &[PAIRS, NONE]), Side::C, 2),
    ];
    for (forms, side, step) in cases {
        for room in [(0, 0), (1, 3), (32, 32)] {
            refuses(&rt, forms, room, (side, step, fault))?;
        }
    }
    Ok(())
}

// The first part that has no room behind those before it.
#[test]
fn rooms(rt: HostRuntime) -> Result<(), Fail> {
    let cases = [
        (0, 0, Side::F, 1, Form::Plain, 1),
        (1, 10, Side::F, 1, Form::Plain, 1),
        (2, 0, Side::F, 2, Form::Zombit, 1),
        (3, 10, Side::F, 2, Form::Zombit, 2),
        (4, 10, Side::F, 2, Form::Zombit, 3),
        (5, 10, Side::F, 3, Form::Pioneer, 1),
        (6, 0, Side::F, 3, Form::Pioneer, 1),
        (7, 10, Side::F, 3, Form::Pioneer, 2),
        (8, 4, Side::C, 1, Form::List, 1),
        (8, 10, Side::C, 2, Form::Plain, 1),
        (9, 5, Side::C, 2, Form::Plain, 1),
        (10, 9, Side::C, 3, Form::Zombit, 1),
        (11, 10, Side::C, 3, Form::Zombit, 2),
        (12, 9, Side::C, 3, Form::Zombit, 3),
        (13, 0, Side::C, 1, Form::List, 1),
        (13, 5, Side::C, 4, Form::List, 1),
        (99, 9, Side::C, 4, Form::List, 1),
    ];
    for (bytes, numbers, side, step, form, part) in cases {
        let fault = Fault {
            flaw: Flaw::Room,
            form,
            part,
        };
        refuses(&rt, SHORT, (bytes, numbers), (side, step, fault))?;
    }
    Ok(())
}
