//! Characters that are read from their front.
ghost use Rattle.std.specs.Prelude.{◌≡◌, ◌∷◌, ℕ, List, [], MatchOption, chars};

/// Characters that are read from their front: those of a text, or a slice of them.
pub trait Front: Copy {
    ghost letters: { Self → List ℕ };

    /// The first character, and those behind it.
    fn split_front(self) -> Option<(char, Self)>
        ensures { MatchOption result (letters self ≡ []) (λ p. letters self ≡ p.0 ∷ letters p.1) };
}

impl Front for &str {
    ghost letters = { λ s. chars s.now };

    #[tactic(auto, using(std::proofs::lemmas::Str::chars_past_char))]
    fn split_front(self) -> Option<(char, Self)> {
        let mut letters = self.chars();
        let first = letters.next()?;
        Some((first, letters.as_str()))
    }
}

impl Front for &[char] {
    ghost letters = { λ s. s.now };

    fn split_front(self) -> Option<(char, Self)> {
        let (first, rest) = self.split_first()?;
        Some((*first, rest))
    }
}
