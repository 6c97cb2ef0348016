// What a form owes so that an index of it can be opened.
ghost use Rattle.std.specs.Prelude.{◌≡◌, Bool, List};
ghost use Rattle.faults.specs.Checks.{Verdict};
ghost use Rattle.opening.specs.Places.{Placed};

use faults::Fault;
use sets::Counting;

/// An index of one form, which opening puts in the place of an open one. The first is the form's own `empty()`, since what it is
/// made of differs from form to form.
pub trait Opens: Counting + Copy {
    /// What an index is opened from: the numbers and the parts of its form.
    type Source: Copy;

    // What opening a source answers.
    ghost verdict: { Self.Source → Verdict };

    // When which answer is due, in the words of the form.
    ghost due: { Self.Source → Verdict → Type 0 };

    // The set that a source stands for.
    ghost decoding: { Self.Source → List Bool };

    // The law of that set, in the words of the form.
    ghost decodes: { Self.Source → List Bool → Type 0 };

    // The index holds exactly the numbers and the parts of the source.
    ghost holding: { Self → Self.Source → Type 0 };

    /// Puts the index of the source in the place of this one; after a refusal this one is as it was.
    fn open(&mut self, source: Self::Source) -> Result<(), Fault>
        ensures answer { result ≡ verdict source }
        ensures law { due source result }
        ensures means { decodes source (decoding source) }
        ensures place { Placed result (holding self.new source × (Self.Walking.meant self.new ≡ decoding source)) (self.new ≡ self.old) };
}
