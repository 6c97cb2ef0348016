// A run of members.
ghost use Rattle.std.specs.Prelude.{◌≡◌, ◌+◌, ◌≤◌, ◌<◌, ◌↔◌, IsTrue};

// A run: its first bay, how many members come before it, and how many it has.
#[derive(Clone, Copy)]
pub(crate) struct Run {
    pub(crate) start: u32,
    pub(crate) before: u32,
    pub(crate) length: u32,
    ghost few: { (start ≤ 65535) × (before ≤ 65535) × (length ≤ 65535) },
}

impl Run {
    // The first bay behind the run.
    pub(crate) fn behind(self) -> u32
        ensures { result ≡ self.start + self.length }
    {
        self.start + self.length
    }

    // Whether bay `i` lies in the run.
    pub(crate) fn holds(self, i: u32) -> bool
        ensures { IsTrue result ↔ ((self.start ≤ i) × (i < self.start + self.length)) }
    {
        self.start <= i && i < self.behind()
    }
}
