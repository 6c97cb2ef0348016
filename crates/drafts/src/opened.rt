// Opening a draft, and the index that was opened.
ghost use Rattle.std.specs.Prelude.{◌≡◌, IfOk};
ghost use Rattle.forms.specs.Meant.{meant_of, Holds};
ghost use Rattle.forms.specs.Opening.{OpeningIs};
ghost use Rattle.forms.specs.Verdicts.{verdict_of};
ghost use Rattle.drafts.specs.Drafts.{choice_drafted, opening_drafted, set_drafted};
ghost use Rattle.drafts.specs.Storing.{stored_set};

use super::draft::Draft;
use super::stored::Stored;
use faults::Fault;
use forms::{Choice, Index, open};

impl Stored {
    /// Opens a draft, which is kept as it is.
    pub fn open(draft: Draft) -> Result<Stored, Fault>
        ensures answer { verdict_of result ≡ opening_drafted draft }
        ensures law { OpeningIs draft.told draft.bytes.items draft.numbers.items (verdict_of result) }
        ensures draft { IfOk result (λ stored. stored.draft ≡ draft) }
        ensures means { IfOk result (λ stored. stored_set stored ≡ set_drafted draft) }
    {
        open(draft.told, &draft.bytes, &draft.numbers)?;
        Ok(Stored { draft })
    }

    /// The opened index.
    pub fn index(&self) -> Index<'_>
        ensures holds { Holds result self.now.draft.told self.now.draft.bytes.items self.now.draft.numbers.items }
        ensures means { meant_of result ≡ stored_set self.now }
    {
        let Draft {
            told,
            bytes,
            numbers,
        } = &self.draft;
        open(*told, bytes, numbers).unwrap()
    }

    /// Its form, with its block size if it has one.
    pub fn choice(&self) -> Choice
        ensures { result ≡ choice_drafted self.now.draft }
    {
        self.draft.choice()
    }

    /// Its numbers and its parts.
    pub fn draft(&self) -> &Draft
        ensures { result.now ≡ self.now.draft }
    {
        &self.draft
    }
}
