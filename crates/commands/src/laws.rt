// What the lines say. There is nothing to run: the contract is the theorem.
ghost use Rattle.std.specs.Prelude.{◌≡◌, ◌↔◌, ◌≤◌, ◌∷◌, ℕ, true, List, length, codes, Ok, Err, Some};
ghost use Rattle.std.specs.List.{All};
ghost use Rattle.drafts.specs.Drafts.{choice_drafted};
ghost use Rattle.drafts.specs.Texts.{draft_words};
ghost use Rattle.drafts.specs.declared.draft.Draft.{Draft};
ghost use Rattle.faults.specs.Texts.{form_name};
ghost use Rattle.forms.specs.Choices.{form_of};
ghost use Rattle.commands.specs.Lines.{line_read};
ghost use Rattle.commands.specs.Said.{Said, written};
ghost use Rattle.commands.specs.Sentences.{reading};
ghost use Rattle.commands.specs.Wanting.{StopsAt};
ghost use Rattle.commands.specs.Writing.{pieces, said_text, said_words, slot_text, IsWhole, PieceFits, SayAll};
ghost use Rattle.commands.specs.declared.command.Slot.{Slot};
ghost use Rattle.commands.specs.declared.expected.Expected.{Expected};

/// A command is read from exactly the words that say it. So it is read from the line in which it is written; and the words behind a
/// form, in the command that opens an index, are those of the answer that tells it. What is expected elsewhere is wanted at the first
/// place at which no command goes on.
pub fn commands_hold()
    ensures exact { (words : List (List ℕ)) (x : Said) → (reading words ≡ Ok x) ↔ (IsWhole x × SayAll (pieces x) words) }
    ensures first { (words : List (List ℕ)) (e : Expected) → reading words ≡ Err e → StopsAt words e }
    ensures text { (x : Said) → IsWhole x → All PieceFits (pieces x) → length (said_text x) ≤ 800000
        → line_read (said_text x) true ≡ Ok (Some x) }
    ensures drafted { (s : Slot) (d : Draft) → said_words (Said.Open s (written d))
        ≡ codes "open" ∷ slot_text s ∷ form_name (form_of (choice_drafted d)) ∷ draft_words d }
{}
