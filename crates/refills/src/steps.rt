// A set that is filled in a form chosen at run time, and opened again.
use forms::{Choice, Index, Told, fill, open};
use sets::Walking;
use std::alloc::Global;
use std::process::Abort;
use std::test::Fail;

// What was told of a set, and two memories of exactly the room that it takes.
#[derive(Drop, PartialEq, Debug)]
pub(crate) struct Filled {
    told: Told,
    bytes: Vec<u8>,
    numbers: Vec<u16>,
}

impl Filled {
    pub(crate) fn new<S: Walking>(
        rt: &impl Abort,
        alloc: Global,
        set: &S,
        choice: Choice,
    ) -> Result<Filled, Fail> {
        let told = Told::of(set, choice)?;
        let mut bytes = vec![in alloc; 170; told.bytes()]?;
        let mut numbers = vec![in alloc; 170; told.numbers()]?;
        assert_eq!(rt; fill(set, choice, &mut bytes, &mut numbers), Ok(told));
        Ok(Filled {
            told,
            bytes,
            numbers,
        })
    }

    pub(crate) fn open<'a>(&'a self, rt: &impl Abort) -> Result<Index<'a>, Fail> {
        let Filled {
            told,
            bytes,
            numbers,
        } = self;
        assert!(rt; told.bytes() <= bytes.len() && told.numbers() <= numbers.len());
        Ok(open(*told, bytes, numbers)?)
    }
}
