// The calls that ask and leave the round as it is.
ghost use Rattle.std.specs.Prelude.{◌≡◌};
ghost use Rattle.round.specs.Answers.{CountIs, NearestIs, PickIs, SignIs};
ghost use Rattle.round.specs.Calls.{count_in, nearest_at, nearer, pick_from, sign_at};
ghost use Rattle.round.specs.Rounds.{free_of, last_bay};

use super::posts::post_of;
use super::state::Round;
use faults::{Refusal, check_bays};
use sets::{Counting, Sort, Walking};

// Of a bay at or below `p` and one at or above it the nearer, and at equal distance the lower.
fn nearer_of(p: u32, below: Option<u32>, above: Option<u32>) -> Option<u32>
    ensures { result ≡ nearer p below above }
{
    match (below, above) {
        (Some(a), Some(b)) if b.saturating_sub(p) < p.saturating_sub(a) => Some(b),
        _ => below.or(above),
    }
}

impl<F: Counting, C: Walking> Round<F, C> {
    /// How many members of the free set lie from `a` to `b`.
    pub fn count(&self, a: u32, b: u32) -> Result<u32, Refusal>
        ensures answer { result ≡ count_in (free_of self.now) (last_bay self.now) a b }
        ensures law { CountIs (free_of self.now) (last_bay self.now) a b result }
    {
        check_bays(a, b, self.last_bay())?;
        let before = self.free.rank(Sort::Members, a - 1);
        Ok(self.free.rank(Sort::Members, b) - before)
    }

    /// The member of the free set nearest to bay `p`, up to the round's last bay; at equal distance the lower one.
    pub fn nearest(&self, p: u32) -> Result<Option<u32>, Refusal>
        ensures answer { result ≡ nearest_at (free_of self.now) (last_bay self.now) p }
        ensures law { NearestIs (free_of self.now) (last_bay self.now) p result }
    {
        let w = self.last_bay();
        check_bays(p, p, w)?;
        let below = self.free.previous(Sort::Members, p);
        let above = self.free.next(Sort::Members, p).filter(|bay| *bay <= w);
        Ok(nearer_of(p, below, above))
    }

    /// The member of the free set nearest to the post of a sign.
    pub fn sign(&self, sign: u32) -> Result<Option<u32>, Refusal>
        ensures answer { result ≡ sign_at (free_of self.now) (last_bay self.now) sign }
        ensures law { SignIs (free_of self.now) (last_bay self.now) sign result }
    {
        self.nearest(post_of(sign)?)
    }

    /// The `k`-th member of the free set, up to the round's last bay.
    pub fn pick(&self, k: u32) -> Result<u32, Refusal>
        ensures answer { result ≡ pick_from (free_of self.now) (last_bay self.now) k }
        ensures law { PickIs (free_of self.now) (last_bay self.now) k result }
    {
        if k == 0 {
            return Err(Refusal::NoBay);
        }
        let w = self.last_bay();
        self.free
            .select(Sort::Members, k)
            .filter(|bay| *bay <= w)
            .ok_or(Refusal::TooFew)
    }
}
