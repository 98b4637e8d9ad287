//! Where a manager keeps what it did.
ghost use Rattle.std.specs.Prelude.{◌≡◌, List, Option, false, true, ℕ};
ghost use Rattle.std.specs.Io.KnownBytes.{Appends};
ghost use Rattle.sml_text.specs.Written.{WroteFront};

/// A log of all lines that were made.
pub trait Log {
    // What has left the program's hands: no end of the program can lose it.
    ghost stands: { Self → Option (List ℕ) };

    ghost has_refused: { Self → Type 0 };

    /// Keeps lines, each with its line feed. True if they have left the program's hands; otherwise a prefix of them
    /// may have.
    fn keep(&mut self, lines: &[u8]) -> bool
        ensures kept { result ≡ true → Appends (stands self.old) (stands self.new) lines.now }
        ensures prefix { result ≡ false → WroteFront (stands self.old) (stands self.new) lines.now }
        ensures refused { result ≡ false → has_refused self.new };
}
