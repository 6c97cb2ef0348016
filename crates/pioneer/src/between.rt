// Two bays between which a non-member is searched.
ghost use Rattle.std.specs.Prelude.{◌≤◌, ◌<◌};

// So many times a bay is picked as if the non-members lay evenly, and then the middle one.
const EVEN_TRIES: u32 = 8;

// Up to `low` there are too few non-members, and up to `high` there are enough.
#[derive(Clone, Copy)]
pub(crate) struct Between {
    pub(crate) low: u32,
    pub(crate) few: u32,
    pub(crate) high: u32,
    pub(crate) enough: u32,
}

impl Between {
    // A bay behind the low one, up to the high one, where the `k`-th non-member may lie.
    pub(crate) fn pick(self, k: u32, tries: u32) -> u32
        requires order { self.low < self.high }
        requires few { self.few < k }
        requires enough { k ≤ self.enough }
        ensures low { self.low < result }
        ensures high { result ≤ self.high }
    {
        let wide = self.high - self.low - 1;
        let ahead = if tries < EVEN_TRIES {
            (k - 1 - self.few).saturating_mul(wide) / (self.enough - self.few)
        } else {
            wide / 2
        };
        self.low + 1 + ahead.min(wide)
    }
}
