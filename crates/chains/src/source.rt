// The set that a step of a chain reads, or a reader at its end.
ghost use Rattle.chains.specs.Sources.{read_as, read_sized};

use forms::Index;
use sets::{Counting, Sort, Walking};

/// The set that a chain begins with, where nothing was filled yet, or the index that was filled last.
#[derive(Drop)]
pub enum Source<'a, S> {
    First(&'a S),
    Filled(Index<'a>),
}

impl<'a, S: Walking> Walking for Source<'a, S> {
    ghost meant = { read_as S.Walking.meant };

    ghost sized = { read_sized S.Walking.meant S.Walking.sized };

    fn last(&self) -> u32 {
        match self {
            Source::First(set) => set.last(),
            Source::Filled(index) => index.last(),
        }
    }

    fn holds(&self, i: u32) -> bool {
        match self {
            Source::First(set) => set.holds(i),
            Source::Filled(index) => index.holds(i),
        }
    }

    fn next(&self, sort: Sort, i: u32) -> Option<u32> {
        match self {
            Source::First(set) => set.next(sort, i),
            Source::Filled(index) => index.next(sort, i),
        }
    }

    fn previous(&self, sort: Sort, i: u32) -> Option<u32> {
        match self {
            Source::First(set) => set.previous(sort, i),
            Source::Filled(index) => index.previous(sort, i),
        }
    }

    fn bits(&self, before: u32, out: &mut [u8]) {
        match self {
            Source::First(set) => set.bits(before, out),
            Source::Filled(index) => index.bits(before, out),
        }
    }
}

impl<'a, S: Counting> Counting for Source<'a, S> {
    fn rank(&self, sort: Sort, i: u32) -> u32 {
        match self {
            Source::First(set) => set.rank(sort, i),
            Source::Filled(index) => index.rank(sort, i),
        }
    }

    fn select(&self, sort: Sort, n: u32) -> Option<u32> {
        match self {
            Source::First(set) => set.select(sort, n),
            Source::Filled(index) => index.select(sort, n),
        }
    }
}
