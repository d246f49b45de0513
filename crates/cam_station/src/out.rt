//! Where the replies of a script go.

ghost use Rattle.std.specs.Prelude.{◌≡◌, ℕ, List, Option};
ghost use Rattle.std.specs.Bool.{OnTrue};
ghost use Rattle.std.specs.Io.KnownBytes.{Appends};
ghost use Rattle.cam_station.specs.Files.{HasRisenBy, unsaid};

/// An output.
pub trait Out {
    // The bytes said so far, where the type can tell them.
    ghost said: { Self → Option (List ℕ) };

    // How many calls failed; the count stays at `u64::MAX`.
    ghost failed: { Self → ℕ };

    /// Says these bytes; false where that failed, and then nothing is known of how many of
    /// them were said.
    fn say(&mut self, bytes: &[u8]) -> bool
        ensures said { OnTrue result (Appends (said self.old) (said self.new) bytes.now) }
        ensures counted { HasRisenBy (unsaid result) (failed self.old) (failed self.new) };

    /// How many calls failed so far; the count stays at `u64::MAX`.
    fn failures(&self) -> u64
        ensures { result ≡ failed self.now };
}
