// What was told of a set in any form.

use list::ListTold;
use pioneer::PioneerTold;
use plain::PlainTold;
use zombit::ZombitTold;

/// What a set takes in one of the forms.
#[derive(Clone, Copy, PartialEq, Eq, Debug)]
pub enum Told {
    Plain(PlainTold),
    List(ListTold),
    Zombit(ZombitTold),
    Pioneer(PioneerTold),
}
