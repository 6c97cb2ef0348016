// All that two readers may write to, before and after: a record, the calls, and a memory for each reader.
use super::garages::{CHARGING, WORKED, opened};
use chains::{ChainFault, Plan};
use readers::read_refilled;
use replay::{Answer, Call, Exchange};
use round::Report;
use std::alloc::{AllocError, Global};
use std::process::Abort;

// A call, and what either reader is due to be answered.
pub(crate) type Asked = (Call, Answer);

// Six numbers for the sheets of the first reader, and eight for those of the second, of which six count.
pub(crate) type Memories = ([u32; 6], [u32; 8]);

#[derive(Drop, PartialEq, Debug)]
pub(crate) struct Desk {
    bytes: Vec<u8>,
    numbers: Vec<u16>,
    exchanges: Vec<Exchange>,
    memory: [u32; 6],
    late_memory: [u32; 8],
}

// The front, and so many 170s behind it.
fn padded<T: Copy + From<u8>>(
    alloc: Global,
    front: &[T],
    spare: usize,
) -> Result<Vec<T>, AllocError> {
    front
        .iter()
        .copied()
        .chain((0..spare).map(|_| T::from(170)))
        .collect(alloc)
}

impl Desk {
    // Room of 170s for so many bytes and so many numbers, and calls that are still to be asked.
    pub(crate) fn new(
        alloc: Global,
        room: (usize, usize),
        asked: &[Asked],
        (memory, late_memory): Memories,
    ) -> Result<Desk, AllocError> {
        Ok(Desk {
            bytes: padded(alloc, &[], room.0)?,
            numbers: padded(alloc, &[], room.1)?,
            exchanges: asked
                .iter()
                .map(|(call, _)| Exchange::new(*call))
                .collect(alloc)?,
            memory,
            late_memory,
        })
    }

    // The parts of all steps, with spare room behind them, and the calls with the answers that are due.
    pub(crate) fn written(
        alloc: Global,
        (bytes, numbers): (&[u8], &[u16]),
        spare: usize,
        asked: &[Asked],
        (memory, late_memory): Memories,
    ) -> Result<Desk, AllocError> {
        Ok(Desk {
            bytes: padded(alloc, bytes, spare)?,
            numbers: padded(alloc, numbers, spare)?,
            exchanges: asked
                .iter()
                .map(|(call, answer)| Exchange {
                    call: *call,
                    first: *answer,
                    second: *answer,
                })
                .collect(alloc)?,
            memory,
            late_memory,
        })
    }

    // How many bytes and numbers there is room for.
    pub(crate) fn room(&self) -> (usize, usize) {
        (self.bytes.len(), self.numbers.len())
    }

    // Two readers read the free and the charging bays of the worked garage.
    pub(crate) fn read(
        &mut self,
        rt: &impl Abort,
        plan: Plan,
    ) -> Result<(Report, Report), ChainFault> {
        read_refilled(
            opened(rt, WORKED.0, WORKED.1),
            opened(rt, CHARGING.0, CHARGING.1),
            plan,
            &mut self.bytes,
            &mut self.numbers,
            &mut self.exchanges,
            &mut self.memory,
            &mut self.late_memory,
        )
    }
}
