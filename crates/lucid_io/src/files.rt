// Named files that are read from their start, one at a time. Every reader above goes by these clauses alone.
ghost use Rattle.std.specs.Prelude.{◌≡◌, ◌⊎◌, ℕ, List, ◌∷◌, MatchResult, Option, OnOk, OnErr};
ghost use Rattle.std.specs.Io.{ReadsAtMost};
ghost use Rattle.std.specs.Io.KnownBytes.{ReadConsumes};
ghost use Rattle.lucid_base.specs.Saturating.{saturating_sum};
ghost use Rattle.lucid_io.specs.Counts.{raised, Rose, NoneFell, SameCounts, AllRose, OthersKept};
ghost use Rattle.lucid_io.specs.Contents.{SameHeld, Tells};
ghost use Rattle.lucid_io.specs.History.{Heard, begun_now, heard_more};

/// A call on a file or a sink failed. Which count of faults rose says why.
#[derive(Clone, Copy, Debug, PartialEq, Eq)]
pub struct Failed;

/// Files by name. `begin` opens one at its first byte, and `read` returns the next bytes of the one begun.
///
/// Specified contents are `Some`; a type that leaves content to the machine has `None`. The bytes that reads returned are in the history
/// of each type.
pub trait Files {
    /// The bytes of a name, if they are specified. No call changes them.
    ghost held: { Self → List ℕ → Option (List ℕ) };

    /// Whether the file that was begun has this name.
    ghost begun: { Self → List ℕ → Type 0 };

    /// The unread bytes of the begun file, if they are specified.
    ghost left: { Self → Option (List ℕ) };

    /// The history of the calls: an entry for each `begin`, with the bytes that the reads after it returned, the newest first.
    ghost heard: { Self → List Heard };

    /// How many bytes the begun file gave since its `begin`. It stops at the last u64.
    ghost given: { Self → ℕ };

    /// How many reads were made. The count stops at the last u64.
    ghost reads: { Self → ℕ };

    /// Whether a file of this name was ever to be begun.
    ghost tried: { Self → List ℕ → Type 0 };

    /// The number of faults of each name. A count never falls, and may stop at the last u64.
    ghost faults: { Self → List ℕ → ℕ };

    /// Begins the file of this name from its start. Returns `Failed` only if the name's count rose in this call.
    fn begin(&mut self, name: &str) -> Result<(), Failed>
        ensures held { SameHeld (held self.old) (held self.new) }
        ensures begun { OnOk result (begun self.new name.now) }
        ensures one { OnOk result ((other : List ℕ) → begun self.new other → other ≡ name.now) }
        ensures left { OnOk result (Tells (held self.old name.now) (left self.new)) }
        ensures given { given self.new ≡ 0 }
        ensures heard { heard self.new ≡ begun_now name.now ∷ heard self.old }

        // the calls
        ensures reads { reads self.new ≡ reads self.old }
        ensures tried { tried self.new name.now }
        ensures no_other { (other : List ℕ) → tried self.new other → tried self.old other ⊎ (other ≡ name.now) }

        // the counts
        ensures later { NoneFell (faults self.old) (faults self.new) }
        ensures quiet { OnOk result (SameCounts (faults self.old) (faults self.new)) }
        ensures cause { OnErr result (Rose (faults self.old name.now) (faults self.new name.now)) }
        ensures others { OthersKept (λ other. other ≡ name.now) (faults self.old) (faults self.new) };

    /// Moves the next unread bytes into the front of the room, and answers how many. None, for a room that isn't empty, means
    /// the end of the file. `Failed` is returned only if the count rose of every name that the begun file has.
    fn read(&mut self, room: &mut [u8]) -> Result<usize, Failed>
        ensures held { SameHeld (held self.old) (held self.new) }
        ensures begun { (name : List ℕ) → begun self.old name → begun self.new name }
        ensures no_other { (name : List ℕ) → begun self.new name → begun self.old name }
        ensures bound { ReadsAtMost result room.new }
        ensures bytes { ReadConsumes (left self.old) (left self.new) result room.new }
        ensures given { MatchResult result (λ n. given self.new ≡ saturating_sum (given self.old) n) (λ _. given self.new ≡ given self.old) }
        ensures heard { MatchResult result (λ n. heard self.new ≡ heard_more n room.new (heard self.old)) (λ _. heard self.new ≡ heard self.old) }

        // the calls
        ensures reads { reads self.new ≡ raised (reads self.old) }
        ensures untried { (name : List ℕ) → tried self.new name → tried self.old name }

        // the counts
        ensures later { NoneFell (faults self.old) (faults self.new) }
        ensures quiet { OnOk result (SameCounts (faults self.old) (faults self.new)) }
        ensures cause { OnErr result (AllRose (begun self.old) (faults self.old) (faults self.new)) }
        ensures others { OthersKept (begun self.old) (faults self.old) (faults self.new) };
}
