// The words of a line, one after another.
ghost use Rattle.std.specs.Prelude.{◌≡◌, ℕ, List, [], ◌∷◌, MatchOption};
ghost use Rattle.std.specs.List.{position_or_len};
ghost use Rattle.notation.specs.Words.{is_blank, words_of};

use std::marker::Model;

/// The words of a line that are still to be read.
#[derive(Drop)]
pub struct Words<'a> {
    rest: &'a [u8],
}

impl<'a> Model for Words<'a> {
    ghost Value = { List (List ℕ) };

    ghost view = { λ w. words_of w.rest.now };
}

// Where the first blank stands, or the end.
fn first_blank(line: &[u8]) -> usize
    ensures { result ≡ position_or_len is_blank line.now }
{
    line.iter()
        .position(|c| c.is_ascii_whitespace())
        .unwrap_or(line.len())
}

impl<'a> Words<'a> {
    /// All words of a line.
    pub fn of(line: &'a [u8]) -> Words<'a>
        ensures { result ≡ words_of line.now }
    {
        Words { rest: line }
    }

    /// Takes the first of the words; none where none is left.
    pub fn next_word(&mut self) -> Option<&'a [u8]>
        ensures { MatchOption result ((self.old ≡ []) × (self.new ≡ [])) (λ word. self.old ≡ word.now ∷ self.new) }
    {
        let line = self.rest.trim_ascii_start();
        let (word, rest) = line.split_at(first_blank(line));
        self.rest = rest;
        if word.is_empty() { None } else { Some(word) }
    }
}
