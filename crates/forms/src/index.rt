// An opened index of any form.

use list::List;
use pioneer::Pioneer;
use plain::Plain;
use zombit::Zombit;

/// An opened index of one of the forms.
#[derive(Clone, Copy, PartialEq, Eq, Debug)]
pub enum Index<'a> {
    Plain(Plain<'a>),
    List(List<'a>),
    Zombit(Zombit<'a>),
    Pioneer(Pioneer<'a>),
}
