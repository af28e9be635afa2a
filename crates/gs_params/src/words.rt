//! Random words, which the caller passes in.
ghost use Rattle.std.specs.Prelude.{◌≡◌, ℕ};

/// A source of random words. What it gives depends only on its state, so that a run can be repeated. Each state has a next
/// word, and a state after it.
pub trait Words {
    // The next word of a state.
    ghost word: { Self → ℕ };

    // The state after that word was drawn.
    ghost after: { Self → Self };

    /// Draws the next word.
    fn next_word(&mut self) -> u32
        ensures word { result ≡ word self.old }
        ensures state { self.new ≡ after self.old };
}
