// To which part of which form a flaw belongs.
ghost use Rattle.std.specs.Prelude.{◌≡◌};
ghost use Rattle.faults.specs.Checks.{Check, located};

use super::fault::{Fault, Flaw, Form};

/// Says of a check to which part of which form it belongs. A trait, since every check of a form ends in it: `.at(form, part)` is
/// plainer there than `map_err` over a closure.
pub trait Located: Sized {
    // What the check answered.
    ghost answered: { Self → Check };

    /// The flaw, if there was one, as a fault of that part of that form.
    fn at(self, form: Form, part: u8) -> Result<(), Fault>
        ensures { result ≡ located form part (answered self) };
}

impl Located for Result<(), Flaw> {
    ghost answered = { λ r. r };

    fn at(self, form: Form, part: u8) -> Result<(), Fault> {
        self.map_err(|flaw| Fault { flaw, form, part })
    }
}
