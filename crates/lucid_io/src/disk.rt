// A disk: opens files by name and reads them. It counts its calls, so that a reader over it can neither skip a call nor invent a fault.
ghost use Rattle.std.specs.Prelude.{◌≡◌, ℕ, ◌+◌, List, Option, IfOk, MatchResult};
ghost use Rattle.std.specs.Io.{ReadsAtMost};
ghost use Rattle.std.specs.Io.KnownBytes.{ReadConsumes};

use crate::files::Failed;

/// Opens files by name, and reads them. Every call is counted, and so is every call that failed.
pub trait Disk {
    /// An open file. It is closed where it is dropped.
    type File: Drop;

    /// Whether the disk opened this file by this name.
    ghost opened: { Self.File → List ℕ → Type 0 };

    /// The unread bytes of an open file, if they are specified.
    ghost left: { Self.File → Option (List ℕ) };

    /// The number of calls made.
    ghost calls: { Self → ℕ };

    /// The number of calls that failed.
    ghost failed: { Self → ℕ };

    /// Opens the file of this name at its first byte.
    fn open(&mut self, name: &str) -> Result<Self::File, Failed>
        ensures opened { IfOk result (λ file. opened file name.now) }
        ensures calls { calls self.new ≡ calls self.old + 1 }
        ensures failed { MatchResult result (λ _. failed self.new ≡ failed self.old) (λ _. failed self.new ≡ failed self.old + 1) };

    /// Moves the next unread bytes of the file into the front of the buffer, and returns how many. None, for a buffer that isn't empty,
    /// means the end of the file.
    fn read(&mut self, file: &mut Self::File, room: &mut [u8]) -> Result<usize, Failed>
        ensures bound { ReadsAtMost result room.new }
        ensures bytes { ReadConsumes (left file.old) (left file.new) result room.new }
        ensures calls { calls self.new ≡ calls self.old + 1 }
        ensures failed { MatchResult result (λ _. failed self.new ≡ failed self.old) (λ _. failed self.new ≡ failed self.old + 1) };
}
