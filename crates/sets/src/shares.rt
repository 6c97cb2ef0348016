// What a sort is of the bays: which ones are of it, and how many.
ghost use Rattle.std.specs.Prelude.{◌≡◌};
ghost use Rattle.sets.specs.Sets.{fits, share};

use super::Sort;

impl Sort {
    /// Whether a member, or a non-member, is of the sort.
    pub fn fits(self, member: bool) -> bool
        ensures { result ≡ fits self member }
    {
        match self {
            Sort::Members => member,
            Sort::Others => !member,
        }
    }

    /// How many of `all` bays are of the sort, where `members` of them are members.
    pub fn share(self, members: u32, all: u32) -> u32
        ensures { result ≡ share self members all }
    {
        match self {
            Sort::Members => members,
            Sort::Others => all.saturating_sub(members),
        }
    }
}
