// Files in memory, which fail at the calls that their maker chooses. All their contents are specified.
ghost use Rattle.std.specs.Prelude.{◌≡◌, ◌↔◌, ◌⊎◌, ℕ, ◌+◌, ◌-◌, ◌^◌, ◌<◌, ◌≤◌, ◌++◌, List, [], ◌∷◌, Option, Some, length, map, min, take, drop, IsTrue, IsErr, IsSome, IfOk, OnOk, OnErr, MatchResult};
ghost use Rattle.std.specs.Io.{ReadsAtMost};
ghost use Rattle.std.specs.Io.KnownBytes.{ReadConsumes};
ghost use Rattle.lucid_base.specs.Saturating.{saturating_sum};
ghost use Rattle.lucid_io.specs.Contents.{SameHeld, Tells};
ghost use Rattle.lucid_io.specs.Counts.{raised, Rose, NoneFell, SameCounts, AllRose, OthersKept, is_failing};
ghost use Rattle.lucid_io.specs.History.{IsAmong, begun_now, heard_more};
ghost use Rattle.lucid_io.specs.MemFiles.{bytes_of, IsBegun, unread, faults_of, begin_fails, after_begin, after_failed_begin, after_read, after_failed_read, place_of, left_at};

use crate::counts::{next_fails, raise};
use crate::files::{Failed, Files};
use crate::past::{Note, Past};
use std::marker::Model;

/// A file in memory: its name and its bytes.
#[derive(Drop)]
pub struct MemFile {
    pub name: String,
    pub bytes: Vec<u8>,
}

/// Files by name. Of two with one name the first counts. A read that fails is a fault of the name that was begun last.
///
/// Contracts see a `MemFilesView` of specs/MemFiles, which also defines the effect of each call.
#[derive(Drop)]
pub struct MemFiles {
    files: Vec<MemFile>,
    fails: Vec<u64>,
    calls: u64,
    begun: Option<usize>,
    given: usize,
    reads: u64,
    past: Past,
}

impl Model for MemFiles {
    ghost use Rattle.std.specs.Prelude.{map};
    ghost use Rattle.lucid_io.specs.MemFiles.{MemFilesView};

    ghost Value = { MemFilesView };

    ghost use Rattle.lucid_io.specs.MemFilesFields.{file_view, IsThere, IsWithin};

    ghost view = { λ s. record { files = map file_view s.files.items; fails = s.fails.items; calls = s.calls; begun = s.begun; given = s.given; reads = s.reads; heard = s.past.heard; faulted = s.past.faulted } };

    ghost invariant = { λ s. IsThere (map file_view s.files.items) s.begun × IsWithin (map file_view s.files.items) s.begun s.given };
}

impl MemFiles {
    ghost use Rattle.lucid_io.specs.MemFilesFields.{new_files};

    /// Makes these files, with nothing begun and no count above 0. The calls of `begin` and `read` whose numbers are in `fails` fail;
    /// they are numbered together from 0, and the number stays at the last u64.
    pub fn new(files: Vec<MemFile>, fails: Vec<u64>) -> MemFiles
        ensures { result ≡ new_files files.items fails.items }
    {
        MemFiles {
            files,
            fails,
            calls: 0,
            begun: None,
            given: 0,
            reads: 0,
            past: Past::new(),
        }
    }

    // `begin`, in exact terms.
    fn turn_to(&mut self, name: &str) -> Result<(), Failed>
        ensures fails { IsErr result ↔ IsTrue (begin_fails self.old name.now) }
        ensures ok { OnOk result (self.new ≡ after_begin self.old name.now) }
        ensures err { OnErr result (self.new ≡ after_failed_begin self.old name.now) }
    {
        let place = place(&self.files, name);
        let fails = next_fails(&self.fails, &mut self.calls);
        self.given = 0;
        self.past = self.past.then(&Note::Begun(name));
        if fails || place.is_none() {
            self.begun = None;
            self.past = self.past.then(&Note::Failed);
            return Err(Failed);
        }
        self.begun = place;
        Ok(())
    }

    // `read`, in exact terms.
    fn give(&mut self, room: &mut [u8]) -> Result<usize, Failed>
        ensures fails { IsErr result ↔ IsTrue (is_failing self.old.fails self.old.calls) }
        ensures count { IfOk result (λ n. n ≡ min (length room.old) (length (unread self.old))) }
        ensures room { IfOk result (λ n. room.new ≡ take n (unread self.old) ++ drop n room.old) }
        ensures ok { IfOk result (λ n. self.new ≡ after_read self.old room.new n) }
        ensures err { OnErr result (self.new ≡ after_failed_read self.old) }
        ensures small { self.new.given < 2 ^ 64 }
    {
        raise(&mut self.reads);
        if next_fails(&self.fails, &mut self.calls) {
            self.past = self.past.then(&Note::Failed);
            return Err(Failed);
        }
        let count = copy_rest(&self.files, self.begun, self.given, room);
        self.given += count;
        self.past = self.past.then(&Note::Gave(room, count));
        Ok(count)
    }
}

impl Files for MemFiles {
    ghost held = { bytes_of };

    ghost begun = { IsBegun };

    ghost left = { λ s. Some (unread s) };

    ghost given = { λ s. s.given };

    ghost reads = { λ s. s.reads };

    ghost heard = { λ s. s.heard };

    ghost tried = { λ s name. IsAmong name s.heard };

    ghost faults = { faults_of };

    /// Fails exactly if the call's number is in `fails` or no file has the name; then nothing is begun.
    fn begin(&mut self, name: &str) -> Result<(), Failed>
        // exactly
        ensures fails { IsErr result ↔ IsTrue (begin_fails self.old name.now) }
        ensures ok { OnOk result (self.new ≡ after_begin self.old name.now) }
        ensures err { OnErr result (self.new ≡ after_failed_begin self.old name.now) }

        // as all files
        ensures held { SameHeld (bytes_of self.old) (bytes_of self.new) }
        ensures begun { OnOk result (IsBegun self.new name.now) }
        ensures one { OnOk result ((other : List ℕ) → IsBegun self.new other → other ≡ name.now) }
        ensures left { OnOk result (Tells (bytes_of self.old name.now) (Some (unread self.new))) }
        ensures given { self.new.given ≡ 0 }
        ensures reads { self.new.reads ≡ self.old.reads }
        ensures heard { self.new.heard ≡ begun_now name.now ∷ self.old.heard }
        ensures tried { IsAmong name.now self.new.heard }
        ensures no_other { (other : List ℕ) → IsAmong other self.new.heard → IsAmong other self.old.heard ⊎ (other ≡ name.now) }
        ensures later { NoneFell (faults_of self.old) (faults_of self.new) }
        ensures quiet { OnOk result (SameCounts (faults_of self.old) (faults_of self.new)) }
        ensures cause { OnErr result (Rose (faults_of self.old name.now) (faults_of self.new name.now)) }
        ensures others { OthersKept (λ other. other ≡ name.now) (faults_of self.old) (faults_of self.new) }
    {
        self.turn_to(name)
    }

    /// Fails exactly if the call's number is in `fails`; otherwise returns the unread bytes that fit the buffer.
    fn read(&mut self, room: &mut [u8]) -> Result<usize, Failed>
        // exactly
        ensures fails { IsErr result ↔ IsTrue (is_failing self.old.fails self.old.calls) }
        ensures count { IfOk result (λ n. n ≡ min (length room.old) (length (unread self.old))) }
        ensures room { IfOk result (λ n. room.new ≡ take n (unread self.old) ++ drop n room.old) }
        ensures ok { IfOk result (λ n. self.new ≡ after_read self.old room.new n) }
        ensures err { OnErr result (self.new ≡ after_failed_read self.old) }

        // as all files
        ensures held { SameHeld (bytes_of self.old) (bytes_of self.new) }
        ensures begun { (name : List ℕ) → IsBegun self.old name → IsBegun self.new name }
        ensures no_other { (name : List ℕ) → IsBegun self.new name → IsBegun self.old name }
        ensures bound { ReadsAtMost result room.new }
        ensures bytes { ReadConsumes (Some (unread self.old)) (Some (unread self.new)) result room.new }
        ensures given { MatchResult result (λ n. self.new.given ≡ saturating_sum self.old.given n) (λ _. self.new.given ≡ self.old.given) }
        ensures reads { self.new.reads ≡ raised self.old.reads }
        ensures heard { MatchResult result (λ n. self.new.heard ≡ heard_more n room.new self.old.heard) (λ _. self.new.heard ≡ self.old.heard) }
        ensures untried { (name : List ℕ) → IsAmong name self.new.heard → IsAmong name self.old.heard }
        ensures later { NoneFell (faults_of self.old) (faults_of self.new) }
        ensures quiet { OnOk result (SameCounts (faults_of self.old) (faults_of self.new)) }
        ensures cause { OnErr result (AllRose (IsBegun self.old) (faults_of self.old) (faults_of self.new)) }
        ensures others { OthersKept (IsBegun self.old) (faults_of self.old) (faults_of self.new) }
    {
        self.give(room)
    }
}

ghost use Rattle.lucid_io.specs.MemFilesFields.{file_view, IsThere, IsWithin};

// The place of the first file of this name.
fn place(files: &Vec<MemFile>, name: &str) -> Option<usize>
    ensures first { result ≡ place_of (map file_view files.now.items) name.now }
    ensures there { IsThere (map file_view files.now.items) result }
{
    for (place, file) in files.iter().enumerate() {
        if file.name.as_str() == name {
            return Some(place);
        }
    }
    None
}

// Copies the unread bytes of the begun file into the front of the buffer, as many as fit, and returns their number.
fn copy_rest(files: &Vec<MemFile>, begun: Option<usize>, given: usize, room: &mut [u8]) -> usize
    requires there { IsThere (map file_view files.now.items) begun }
    requires within { IsWithin (map file_view files.now.items) begun given }
    ensures count { result ≡ min (length room.old) (length (left_at (map file_view files.now.items) begun given)) }
    ensures room { room.new ≡ take result (left_at (map file_view files.now.items) begun given) ++ drop result room.old }
    ensures still { IsWithin (map file_view files.now.items) begun (given + result) }
    ensures small { given + result < 2 ^ 64 }
{
    match begun {
        Some(place) => copy(&files[place].bytes, given, room),
        None => 0,
    }
}

// Copies the bytes from a place on into the front of the room, as many as fit, and answers how many.
fn copy(bytes: &Vec<u8>, from: usize, room: &mut [u8]) -> usize
    requires { from ≤ length bytes.now.items }
    ensures count { result ≡ min (length room.old) (length bytes.now.items - from) }
    ensures room { room.new ≡ take result (drop from bytes.now.items) ++ drop result room.old }
    ensures small { from + result < 2 ^ 64 }
{
    let left = &bytes[from..];
    let count = room.len().min(left.len());
    room[..count].copy_from_slice(&left[..count]);
    count
}
