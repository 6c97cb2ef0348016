// Filling a set into the fronts of two memories, in a form that is chosen at run time.
ghost use Rattle.std.specs.Prelude.{◌≡◌, Bool, List, [], IfOk};
ghost use Rattle.filling.specs.Rooms.{wrote};
ghost use Rattle.forms.specs.Laying.{bytes_of, numbers_of, laying, LayingIs};
ghost use Rattle.forms.specs.Opening.{decoding_told};
ghost use Rattle.forms.specs.Stepping.{Stepped};
ghost use Rattle.forms.specs.Telling.{told_of};
ghost use Rattle.forms.specs.Verdicts.{verdict_of};

use super::choice::Choice;
use super::told::Told;
use faults::Fault;
use list::ListTold;
use pioneer::PioneerTold;
use plain::PlainTold;
use sets::Walking;
use zombit::ZombitTold;

// Fills the bits of the plain form.
fn fill_plain<S: Walking>(set: &S, bytes: &mut [u8]) -> Result<PlainTold, Fault>
    ensures answer { verdict_of result ≡ laying Choice.Plain (S.Walking.meant set.now) bytes.old [] }
    ensures told { IfOk result (λ told. Told.Plain told ≡ told_of Choice.Plain (S.Walking.meant set.now)) }
    ensures writes { bytes.new ≡ wrote (verdict_of result) (bytes_of Choice.Plain (S.Walking.meant set.now)) bytes.old }
{
    let slip = plain::measure(set);
    let told = slip.told();
    let (_, filled) = slip.fill(bytes);
    filled.map(|()| told)
}

// Fills the numbers of the list form.
fn fill_list<S: Walking>(set: &S, numbers: &mut [u16]) -> Result<ListTold, Fault>
    ensures answer { verdict_of result ≡ laying Choice.List (S.Walking.meant set.now) [] numbers.old }
    ensures told { IfOk result (λ told. Told.List told ≡ told_of Choice.List (S.Walking.meant set.now)) }
    ensures writes { numbers.new ≡ wrote (verdict_of result) (numbers_of Choice.List (S.Walking.meant set.now)) numbers.old }
{
    let slip = list::measure(set);
    let told = slip.told();
    let (_, filled) = slip.fill(numbers);
    filled.map(|()| told)
}

// Fills the three parts of the zombit form, one behind the other.
fn fill_zombit<S: Walking>(set: &S, size: u32, bytes: &mut [u8]) -> Result<ZombitTold, Fault>
    ensures answer { verdict_of result ≡ laying (Choice.Zombit size) (S.Walking.meant set.now) bytes.old [] }
    ensures told { IfOk result (λ told. Told.Zombit told ≡ told_of (Choice.Zombit size) (S.Walking.meant set.now)) }
    ensures writes { bytes.new ≡ wrote (verdict_of result) (bytes_of (Choice.Zombit size) (S.Walking.meant set.now)) bytes.old }
{
    match zombit::measure(set, size) {
        Ok(slip) => {
            let told = slip.told();
            let (uniform, rest) = bytes.split_at_mut(told.uniform.min(bytes.len()));
            let (marked, mixed) = rest.split_at_mut(told.marked.min(rest.len()));
            let (_, filled) = slip.fill(uniform, marked, mixed);
            filled.map(|()| told)
        }
        Err((_, fault)) => Err(fault),
    }
}

// Fills the two parts of the pioneer form, one behind the other.
fn fill_pioneer<S: Walking>(set: &S, bytes: &mut [u8]) -> Result<PioneerTold, Fault>
    ensures answer { verdict_of result ≡ laying Choice.Pioneer (S.Walking.meant set.now) bytes.old [] }
    ensures told { IfOk result (λ told. Told.Pioneer told ≡ told_of Choice.Pioneer (S.Walking.meant set.now)) }
    ensures writes { bytes.new ≡ wrote (verdict_of result) (bytes_of Choice.Pioneer (S.Walking.meant set.now)) bytes.old }
{
    let slip = pioneer::measure(set);
    let told = slip.told();
    let (starts, sums) = bytes.split_at_mut(told.starts.min(bytes.len()));
    let (_, filled) = slip.fill(starts, sums);
    filled.map(|()| told)
}

/// Fills the set in the form: the parts go to the fronts of the two memories, one behind the other, and what was told comes back.
/// Where the form has no such block size, or a memory has no room, neither memory changes.
pub fn fill<S: Walking>(
    set: &S,
    choice: Choice,
    bytes: &mut [u8],
    numbers: &mut [u16],
) -> Result<Told, Fault>
    ensures answer { verdict_of result ≡ laying choice (S.Walking.meant set.now) bytes.old numbers.old }
    ensures law { LayingIs choice (S.Walking.meant set.now) bytes.old numbers.old (verdict_of result) }
    ensures told { IfOk result (λ told. told ≡ told_of choice (S.Walking.meant set.now)) }
    ensures bytes { bytes.new ≡ wrote (verdict_of result) (bytes_of choice (S.Walking.meant set.now)) bytes.old }
    ensures numbers { numbers.new ≡ wrote (verdict_of result) (numbers_of choice (S.Walking.meant set.now)) numbers.old }
    ensures step { IfOk result (λ told. (t : List Bool) → t ≡ decoding_told told bytes.new numbers.new
        → Stepped choice (S.Walking.meant set.now) t bytes.old numbers.old bytes.new numbers.new) }
{
    match choice {
        Choice::Plain => fill_plain(set, bytes).map(Told::Plain),
        Choice::List => fill_list(set, numbers).map(Told::List),
        Choice::Zombit { size } => fill_zombit(set, size, bytes).map(Told::Zombit),
        Choice::Pioneer => fill_pioneer(set, bytes).map(Told::Pioneer),
    }
}
