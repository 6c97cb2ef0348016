// The laws of words, numbers and parts. There is nothing to run: the contracts are the theorems.
ghost use Rattle.std.specs.Prelude.{◌≡◌, ◌<◌, ◌≤◌, ◌^◌, ℕ, List, [], ◌∷◌, ◌++◌, ◌⊎◌, All, IsTrue, Some, codes, decimal, length, map, replicate};
ghost use Rattle.std.specs.List.{join_with_byte};
ghost use Rattle.std.specs.Str.{str_to_ascii_lowercase};
ghost use Rattle.notation.specs.Words.{is_blank, spaced, words_of, IsWord};
ghost use Rattle.notation.specs.Numbers.{number_of, numbers_of, numbers_text};
ghost use Rattle.notation.specs.Parts.{bytes_of, bytes_text};

/// What the words of a line are: a line is cut at its blanks, and what has none is a word. Words in a line, with one space between
/// each two, are the words of this line.
pub fn words_hold()
    ensures empty { words_of [] ≡ [] }
    ensures one { (word : List ℕ) → IsWord word → words_of word ≡ word ∷ [] }
    ensures cut { (front rest : List ℕ) (c : ℕ) → IsTrue (is_blank c) → words_of (front ++ c ∷ rest) ≡ words_of front ++ words_of rest }
    ensures words { (line : List ℕ) → All IsWord (words_of line) }
    ensures spaced { (words : List (List ℕ)) → All IsWord words → words_of (spaced words) ≡ words }
{}

/// What is written of numbers and bytes is one word, and is read as them.
pub fn reads_back()
    ensures number { (most n : ℕ) → most < 2 ^ 32 → n ≤ most → number_of most (decimal n) ≡ Some n }
    ensures number_word { (n : ℕ) → n < 2 ^ 32 → IsWord (decimal n) }
    ensures numbers { (ns : List ℕ) → All (λ n. n < 2 ^ 16) ns → numbers_of (numbers_text ns) ≡ Some ns }
    ensures numbers_word { (ns : List ℕ) → All (λ n. n < 2 ^ 16) ns → IsWord (numbers_text ns) }
    ensures bytes { (bs : List ℕ) → All (λ b. b < 2 ^ 8) bs → bytes_of (bytes_text bs) ≡ Some bs }
    ensures bytes_word { (bs : List ℕ) → All (λ b. b < 2 ^ 8) bs → IsWord (bytes_text bs) }
{}

/// Which words are read as a number, as numbers and as bytes: just what is written of them, where a number may have zeros in front, and a
/// hex digit may be of either case.
pub fn reads_exactly()
    ensures number { (most n : ℕ) (word : List ℕ) → most < 2 ^ 32 → number_of most word ≡ Some n
        → (n ≤ most) × ((zeros : ℕ) × (word ≡ replicate zeros 48 ++ decimal n)) }
    ensures zeros { (most zeros n : ℕ) → most < 2 ^ 32 → n ≤ most → number_of most (replicate zeros 48 ++ decimal n) ≡ Some n }
    ensures numbers { (word ns : List ℕ) → numbers_of word ≡ Some ns
        → ((word ≡ codes "-") × (ns ≡ []))
        ⊎ ((0 < length ns) × ((pieces : List (List ℕ)) × (word ≡ join_with_byte 44 pieces) × (map (number_of 65535) pieces ≡ map Some ns))) }
    ensures pieces { (pieces : List (List ℕ)) (ns : List ℕ) → 0 < length ns → map (number_of 65535) pieces ≡ map Some ns
        → numbers_of (join_with_byte 44 pieces) ≡ Some ns }
    ensures bytes { (word bs : List ℕ) → bytes_of word ≡ Some bs
        → All (λ b. b < 2 ^ 8) bs × (str_to_ascii_lowercase word ≡ bytes_text bs) }
    ensures cases { (word bs : List ℕ) → All (λ b. b < 2 ^ 8) bs → str_to_ascii_lowercase word ≡ bytes_text bs → bytes_of word ≡ Some bs }
{}
