// What a set of parking bays is, and the two interfaces by which one is asked.
#![tactic(auto)]

ghost use Rattle.std.specs.Prelude.{◌≡◌, ◌*◌, Bool, List, length};
ghost use Rattle.sets.specs.Laws.{SortsPart, NextSmallest, PreviousLargest, RankCounts, SelectRanks, LawsDecide, SetsByMembers};
ghost use Rattle.sets.specs.Packing.{pack, member_after};
ghost use Rattle.sets.specs.Sets.{is_member, next_of, previous_of, rank_of, select_of, Sized};

mod lent;
mod packed;
mod shares;

use packed::byte_of;

/// The bays of a garage that are in a set, or those that are not.
#[derive(Clone, Copy, PartialEq, Eq, Debug)]
pub enum Sort {
    Members,
    Others,
}

/// A set that can be walked through. Bays are numbered from 1.
pub trait Walking {
    // The set that a value stands for.
    ghost meant: { Self → List Bool };

    /// The last bay.
    fn last(&self) -> u32
        ensures { result ≡ length (meant self.now) };

    /// Whether bay `i` is a member; no at 0 and beyond the last bay.
    fn holds(&self, i: u32) -> bool
        ensures { result ≡ is_member (meant self.now) i };

    /// The smallest bay of the sort at or after `i`; 0 is read as 1.
    fn next(&self, sort: Sort, i: u32) -> Option<u32>
        ensures { result ≡ next_of (meant self.now) sort i };

    /// The largest bay of the sort at or before `i`; beyond the last bay is read as the last.
    fn previous(&self, sort: Sort, i: u32) -> Option<u32>
        ensures { result ≡ previous_of (meant self.now) sort i };

    /// Writes a bit for each bay after the first `before` ones, in order, until the memory is full: 1 exactly for a member.
    fn bits(&self, before: u32, out: &mut [u8])
        ensures { out.new ≡ pack (8 * length out.old) (member_after (meant self.now) before) }
    {
        let mut passed = before;
        for byte in out.iter_mut() {
            *byte = byte_of(|j| self.holds(passed.saturating_add(j)));
            passed = passed.saturating_add(8);
        }
    }

    // Each implementation proves: the last bay is from 1 to 65,535.
    ghost sized: { (x : Self) → Sized (meant x) };
}

/// A walking set that can also count.
pub trait Counting: Walking {
    /// How many bays of the sort lie from 1 to `i`; beyond the last bay is read as the last.
    fn rank(&self, sort: Sort, i: u32) -> u32
        ensures { result ≡ rank_of (Self.meant self.now) sort i };

    /// The `n`-th smallest bay of the sort; none at 0 and beyond their number.
    fn select(&self, sort: Sort, n: u32) -> Option<u32>
        ensures { result ≡ select_of (Self.meant self.now) sort n };
}

/// The laws of the answers. There is nothing to run: the contract is the theorem.
pub fn laws_hold()
    ensures sorts { SortsPart }
    ensures next { NextSmallest }
    ensures previous { PreviousLargest }
    ensures rank { RankCounts }
    ensures select { SelectRanks }
    ensures decide { LawsDecide }
    ensures members { SetsByMembers }
{}
