// A call that is still to be asked.
ghost use Rattle.std.specs.Prelude.{◌≡◌};
ghost use Rattle.replay.specs.Views.{unasked};

use super::calls::{Answer, Call, Exchange};
use round::Taken;

impl Exchange {
    /// A call that is still to be asked: its answers mean nothing yet.
    pub fn new(call: Call) -> Exchange
        ensures { result ≡ unasked call }
    {
        let nothing = Answer::Next(Taken {
            bay: None,
            stretches: 0,
        });
        Exchange {
            call,
            first: nothing,
            second: nothing,
        }
    }
}
