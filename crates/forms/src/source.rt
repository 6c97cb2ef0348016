// What an index of any form opens from.

use list::ListSource;
use pioneer::PioneerSource;
use plain::PlainSource;
use zombit::ZombitSource;

/// The numbers and the parts of an index of one of the forms.
#[derive(Clone, Copy, PartialEq, Eq, Debug)]
pub enum Source<'a> {
    Plain(PlainSource<'a>),
    List(ListSource<'a>),
    Zombit(ZombitSource<'a>),
    Pioneer(PioneerSource<'a>),
}
