ghost use Rattle.std.specs.Prelude.{◌≡◌, ℕ, ◌+◌, Bool};
ghost use Rattle.wire.specs.Lines.{carried};

// A line carries one character at a time. Its meaning is which of the coming characters will be damaged.
pub trait Line {
    ghost damage: { Self → ℕ → Bool };

    // The character as it was sent, or None where it was damaged.
    fn carry(&mut self, byte: u8) -> Option<u8>
        ensures gave { result ≡ carried (damage self.old 0) byte }
        ensures left { (k : ℕ) → damage self.new k ≡ damage self.old (k + 1) };
}
