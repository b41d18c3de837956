//! The number of blockers that the line of an instruction tells.

ghost use Rattle.std.specs.Prelude.{◌≡◌, ℕ, Option};

/// What tells the number of blockers behind the instruction of a tick, where there is one. It is
/// asked where the number is written, so that nothing is kept of it before.
pub trait BlockerNumber {
    /// The number.
    ghost told: { Self → Option ℕ };

    /// Where it may be asked.
    ghost MayTell: { Self → Type 0 };

    /// The number.
    fn number(&self) -> Option<u32>
        requires { MayTell self.now }
        ensures { result ≡ told self.now };
}
