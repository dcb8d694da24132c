// Files of a disk, with the history of their reads. No file's content is specified: the history has the bytes that the disk gave.
ghost use Rattle.std.specs.Prelude.{◌≡◌, ◌⊎◌, ◌∷◌, ℕ, ◌+◌, List, [], Option, None, Some, IsSome, MatchResult, OnOk, OnErr};
ghost use Rattle.std.specs.Io.{ReadsAtMost};
ghost use Rattle.std.specs.Io.KnownBytes.{ReadConsumes};
ghost use Rattle.std.specs.Option.{option_and_then};
ghost use Rattle.lucid_base.specs.Saturating.{saturating_sum};
ghost use Rattle.lucid_io.specs.Contents.{SameHeld, Tells};
ghost use Rattle.lucid_io.specs.Counts.{raised, Rose, NoneFell, SameCounts, AllRose, OthersKept};
ghost use Rattle.lucid_io.specs.History.{IsAmong, IsNewest, begun_now, heard_more, times};

use crate::counts::raise;
use crate::disk::Disk;
use crate::files::{Failed, Files};
use crate::past::{Note, Past};

/// Files by path, opened for reading, one at a time. Faults are counted by name.
#[derive(Drop)]
pub struct RealFiles<D: Disk + Drop> {
    disk: D,
    file: Option<D::File>,
    given: u64,
    reads: u64,
    past: Past,
}

impl<D: Disk + Drop> RealFiles<D> {
    /// Returns the files of this disk, with nothing begun, nothing given and no fault met.
    pub fn new(disk: D) -> RealFiles<D>
        ensures given { ⟦<RealFiles<D> as Files>⟧.given result ≡ 0 }
        ensures reads { ⟦<RealFiles<D> as Files>⟧.reads result ≡ 0 }
        ensures faults { (name : List ℕ) → ⟦<RealFiles<D> as Files>⟧.faults result name ≡ 0 }
        ensures heard { ⟦<RealFiles<D> as Files>⟧.heard result ≡ [] }
    {
        RealFiles {
            disk,
            file: None,
            given: 0,
            reads: 0,
            past: Past::new(),
        }
    }
}

impl<D: Disk + Drop> Files for RealFiles<D> {
    ghost held = { λ _ name. None };

    ghost begun = { λ s name. IsNewest name s.past.heard };

    ghost left = { λ s. option_and_then D.left s.file };

    ghost given = { λ s. s.given };

    ghost reads = { λ s. s.reads };

    ghost tried = { λ s name. IsAmong name s.past.heard };

    ghost heard = { λ s. s.past.heard };

    ghost faults = { λ s name. times name s.past.faulted };

    /// Opens the file and closes the one begun before. A failed allocation of the machine here is a fault too.
    fn begin(&mut self, name: &str) -> Result<(), Failed>
        // One call of the disk, for this name; it is the disk that fails.
        ensures opened { OnOk result ((file : D.File) × (self.new.file ≡ Some file) × D.opened file name.now) }
        ensures calls { D.calls self.new.disk ≡ D.calls self.old.disk + 1 }
        ensures failed { MatchResult result (λ _. D.failed self.new.disk ≡ D.failed self.old.disk) (λ _. D.failed self.new.disk ≡ D.failed self.old.disk + 1) }

        // as all files
        ensures held { SameHeld (λ name. None) (λ name. None) }
        ensures begun { OnOk result (IsNewest name.now self.new.past.heard) }
        ensures one { OnOk result ((other : List ℕ) → IsNewest other self.new.past.heard → other ≡ name.now) }
        ensures left { OnOk result (Tells None (option_and_then D.left self.new.file)) }
        ensures given { self.new.given ≡ 0 }
        ensures heard { self.new.past.heard ≡ begun_now name.now ∷ self.old.past.heard }
        ensures reads { self.new.reads ≡ self.old.reads }
        ensures tried { IsAmong name.now self.new.past.heard }
        ensures no_other { (other : List ℕ) → IsAmong other self.new.past.heard → IsAmong other self.old.past.heard ⊎ (other ≡ name.now) }
        ensures later { NoneFell (λ n. times n self.old.past.faulted) (λ n. times n self.new.past.faulted) }
        ensures quiet { OnOk result (SameCounts (λ n. times n self.old.past.faulted) (λ n. times n self.new.past.faulted)) }
        ensures cause { OnErr result (Rose (times name.now self.old.past.faulted) (times name.now self.new.past.faulted)) }
        ensures others { OthersKept (λ other. other ≡ name.now) (λ n. times n self.old.past.faulted) (λ n. times n self.new.past.faulted) }
    {
        self.given = 0;
        self.file = None;
        self.past = self.past.then(&Note::Begun(name));
        match self.disk.open(name) {
            Ok(file) => {
                self.file = Some(file);
                Ok(())
            }
            Err(failed) => {
                self.past = self.past.then(&Note::Failed);
                Err(failed)
            }
        }
    }

    /// Reads on. It fails with no file open.
    fn read(&mut self, room: &mut [u8]) -> Result<usize, Failed>
        // One call of the disk, if a file is open; then it is the disk that fails.
        ensures calls { IsSome self.old.file → D.calls self.new.disk ≡ D.calls self.old.disk + 1 }
        ensures failed { IsSome self.old.file →
            MatchResult result (λ _. D.failed self.new.disk ≡ D.failed self.old.disk) (λ _. D.failed self.new.disk ≡ D.failed self.old.disk + 1) }

        // as all files
        ensures held { SameHeld (λ name. None) (λ name. None) }
        ensures begun { (name : List ℕ) → IsNewest name self.old.past.heard → IsNewest name self.new.past.heard }
        ensures no_other { (name : List ℕ) → IsNewest name self.new.past.heard → IsNewest name self.old.past.heard }
        ensures bound { ReadsAtMost result room.new }
        ensures bytes { ReadConsumes (option_and_then D.left self.old.file) (option_and_then D.left self.new.file) result room.new }
        ensures given { MatchResult result (λ n. self.new.given ≡ saturating_sum self.old.given n) (λ _. self.new.given ≡ self.old.given) }
        ensures heard { MatchResult result (λ n. self.new.past.heard ≡ heard_more n room.new self.old.past.heard) (λ _. self.new.past.heard ≡ self.old.past.heard) }
        ensures reads { self.new.reads ≡ raised self.old.reads }
        ensures untried { (name : List ℕ) → IsAmong name self.new.past.heard → IsAmong name self.old.past.heard }
        ensures later { NoneFell (λ n. times n self.old.past.faulted) (λ n. times n self.new.past.faulted) }
        ensures quiet { OnOk result (SameCounts (λ n. times n self.old.past.faulted) (λ n. times n self.new.past.faulted)) }
        ensures cause { OnErr result (AllRose (λ n. IsNewest n self.old.past.heard) (λ n. times n self.old.past.faulted) (λ n. times n self.new.past.faulted)) }
        ensures others { OthersKept (λ n. IsNewest n self.old.past.heard) (λ n. times n self.old.past.faulted) (λ n. times n self.new.past.faulted) }
    {
        raise(&mut self.reads);
        if let Some(file) = &mut self.file
            && let Ok(count) = self.disk.read(file, room)
        {
            self.given = self.given.saturating_add(count as u64);
            self.past = self.past.then(&Note::Gave(room, count));
            return Ok(count);
        }
        self.past = self.past.then(&Note::Failed);
        Err(Failed)
    }
}
