// Opening two drafts, or neither.
ghost use Rattle.std.specs.Prelude.{◌≡◌, IfOk};
ghost use Rattle.opening.specs.Pairs.{pairing, PairingIs};
ghost use Rattle.drafts.specs.Drafts.{opening_drafted, set_drafted};
ghost use Rattle.drafts.specs.Refusing.{refusal_of};
ghost use Rattle.drafts.specs.Storing.{stored_set};

use super::draft::Draft;
use super::stored::Stored;
use forms::Index;
use opening::{PairFault, open_pair};

/// Opens a draft of the free bays and one of the bays of a class, each kept as it is, by one call.
pub fn open_both(free: Draft, class: Draft) -> Result<(Stored, Stored), PairFault>
    ensures answer { refusal_of result ≡ pairing (opening_drafted free) (opening_drafted class) }
    ensures law { PairingIs (opening_drafted free) (opening_drafted class) (refusal_of result) }
    ensures drafts { IfOk result (λ both. (both.0.draft ≡ free) × (both.1.draft ≡ class)) }
    ensures mean { IfOk result (λ both. (stored_set both.0 ≡ set_drafted free) × (stored_set both.1 ≡ set_drafted class)) }
{
    let mut free_index = Index::empty();
    let mut class_index = Index::empty();
    open_pair(
        &mut free_index,
        &mut class_index,
        free.source(),
        class.source(),
    )?;
    Ok((Stored { draft: free }, Stored { draft: class }))
}
