// The next and the previous of the others. One search suffices where they lie at once beside a bay; beyond a longer run of members
// the other is found by its number.
ghost use Rattle.std.specs.Prelude.{◌≡◌, ◌≤◌};
ghost use Rattle.sets.specs.Sets.{next_of, previous_of};
ghost use Rattle.sets.specs.declared.Sort.TheVariants.{Others};
ghost use Rattle.list.specs.Decoding.{set_of};

use super::index::List;

impl<'a> List<'a> {
    // The smallest of the others at or after `from`.
    pub(crate) fn next_other(&self, from: u32) -> Option<u32>
        requires { 1 ≤ from }
        ensures { result ≡ next_of (set_of self.now.last self.now.numbers.now) Others from }
    {
        let members = self.members_to(from);
        let inside = self.ends(members, from);
        if inside && self.goes_on(members, from) {
            return self.nth_other(from - members + 1);
        }
        let bay = from + u32::from(inside);
        (bay <= self.last).then_some(bay)
    }

    // The largest of the others at or before `to`.
    pub(crate) fn previous_other(&self, to: u32) -> Option<u32>
        requires { to ≤ self.now.last }
        ensures { result ≡ previous_of (set_of self.now.last self.now.numbers.now) Others to }
    {
        let members = self.members_to(to);
        let inside = self.ends(members, to);
        if inside && self.ends(members - 1, to - 1) {
            return self.nth_other(to - members);
        }
        let bay = to - u32::from(inside);
        (bay > 0).then_some(bay)
    }
}
