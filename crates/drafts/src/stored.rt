// An index that opens, in memory of its own.
ghost use Rattle.std.specs.Prelude.{◌≡◌, Ok};
ghost use Rattle.drafts.specs.Drafts.{opening_drafted};

use super::draft::Draft;

/// An index that was opened, in memory of its own. None that is refused can be made.
#[derive(PartialEq, Eq, Debug, Drop)]
pub struct Stored {
    pub(crate) draft: Draft,
    ghost opens: { opening_drafted draft ≡ Ok tt },
}
