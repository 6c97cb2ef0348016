// The number by which a flaw is refused. A file of its own, so that an edit can name its one line.
ghost use Rattle.std.specs.Prelude.{◌≡◌};
ghost use Rattle.faults.specs.Numbers.{flaw_number};

use super::fault::Flaw;

impl Flaw {
    /// The number by which the flaw is refused, 1 to 6.
    pub fn number(self) -> u8
        ensures { result ≡ flaw_number self }
    {
        self as u8
    }
}
