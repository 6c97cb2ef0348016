// Opening a pair of indexes of one form.
ghost use Rattle.std.specs.Prelude.{◌≡◌};
ghost use Rattle.opening.specs.Pairs.{pairing, PairingIs};
ghost use Rattle.opening.specs.Places.{Placed};

use super::fault::{PairFault, Side};
use super::opens::Opens;

/// Puts the indexes of two sources in the places of two open ones: F's and then C's. If either is refused, both are as they were.
pub fn open_pair<X: Opens>(
    f: &mut X,
    c: &mut X,
    f_source: X::Source,
    c_source: X::Source,
) -> Result<(), PairFault>
    ensures answer { result ≡ pairing (X.Opens.verdict f_source) (X.Opens.verdict c_source) }
    ensures law { PairingIs (X.Opens.verdict f_source) (X.Opens.verdict c_source) result }
    ensures place { Placed result (X.Opens.holding f.new f_source × X.Opens.holding c.new c_source) ((f.new ≡ f.old) × (c.new ≡ c.old)) }
    ensures means { Placed result
        ((X.Walking.meant f.new ≡ X.Opens.decoding f_source) × (X.Walking.meant c.new ≡ X.Opens.decoding c_source))
        ((f.new ≡ f.old) × (c.new ≡ c.old)) }
{
    let mut new_f = *f;
    new_f.open(f_source).map_err(|fault| Side::F.of(fault))?;
    let mut new_c = *c;
    new_c.open(c_source).map_err(|fault| Side::C.of(fault))?;
    *f = new_f;
    *c = new_c;
    Ok(())
}
