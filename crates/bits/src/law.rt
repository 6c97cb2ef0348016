// The law of the bytes of a bitvector.
ghost use Rattle.std.specs.Prelude.{◌≡◌, ℕ, Bool, List};
ghost use Rattle.bits.specs.Packing.{Packs};
ghost use Rattle.sets.specs.Packing.{pack};

/// The bytes of a bitvector obey their law, and no others do. There is nothing to run: the contract is the theorem.
pub fn packing_holds()
    ensures packs { (n : ℕ) (f : ℕ → Bool) → Packs n f (pack n f) }
    ensures decides { (n : ℕ) (f : ℕ → Bool) (bytes : List ℕ) → Packs n f bytes → bytes ≡ pack n f }
{}
