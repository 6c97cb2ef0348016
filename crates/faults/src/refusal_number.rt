// The number of a refusal. A file of its own, so that an edit can name its one line.
ghost use Rattle.std.specs.Prelude.{◌≡◌};
ghost use Rattle.faults.specs.Numbers.{refusal_number};

use super::fault::Refusal;

impl Refusal {
    /// The number of the refusal, 7 to 11.
    pub fn number(self) -> u8
        ensures { result ≡ refusal_number self }
    {
        self as u8
    }
}
