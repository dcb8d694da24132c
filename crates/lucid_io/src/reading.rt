// A whole file, up to a limit.
ghost use Rattle.std.specs.Prelude.{◌≡◌, ◌≢◌, ◌⊎◌, ◌+◌, ◌^◌, ◌<◌, ◌≤◌, ℕ, List, [], true, false, length, IfSome, IfOk, IfErr};
ghost use Rattle.lucid_io.specs.Counts.{Rose, NoneFell, SameCounts, AllRose, OthersKept};
ghost use Rattle.lucid_io.specs.Contents.{SameHeld};
ghost use Rattle.lucid_io.specs.History.{HeardPart, HeardWhole, GavePart, gave};

use crate::files::Files;
use std::alloc::{AllocError, Global};

/// Why a file was not taken whole.
#[derive(Clone, Copy, Debug, PartialEq, Eq)]
pub enum Take {
    /// A call on the file failed.
    ReadFault,
    /// The file has more bytes than the limit.
    TooLong,
    /// Memory ran out.
    Memory,
}

impl From<AllocError> for Take {
    ghost use Rattle.std.specs.Prelude.{◌≡◌};
    ghost use Rattle.lucid_io.specs.declared.reading.Take.TheVariants.{Memory};

    ghost from_gives = { λ _ e. e ≡ Memory };

    fn from(_error: AllocError) -> Take {
        Take::Memory
    }
}

// How many bytes one read may give.
const CHUNK: usize = 4096;

/// Reads a file from its start to its end, at most `limit` bytes.
///
/// Returns `ReadFault` only if the name's count of faults rose in this call, and changes no count with any other answer. Returns
/// `TooLong` exactly if the file gave `limit + 1` bytes, unless memory ran out. So if no count of the name rose and the file's specified
/// content has at most `limit` bytes, the answer is that content, or out of memory. Takes no more than `limit + 1` bytes, by at most
/// `limit + 2` reads, and begins no file of another name.
pub fn read_all<F: Files>(
    alloc: Global,
    files: &mut F,
    name: &str,
    limit: usize,
) -> Result<Vec<u8>, Take>
    requires { limit < 2 ^ 32 }

    // the bytes
    ensures bytes { IfOk result (λ v. IfSome (F.held files.old name.now) (λ bytes. v.items ≡ bytes)) }
    ensures within { IfOk result (λ v. length v.items ≤ limit) }
    ensures given { IfOk result (λ v. F.given files.new ≡ length v.items) }
    ensures no_more { F.given files.new ≤ limit + 1 }

    // the entry of the history: what the reads returned, whether or not the content is specified
    ensures heard { IfOk result (λ v. HeardWhole (F.heard files.old) (F.heard files.new) name.now v.items) }
    ensures heard_part { IfErr result (λ why. HeardPart (F.heard files.old) (F.heard files.new) name.now (F.held files.old name.now) limit why) }

    // the calls
    ensures reads { F.reads files.new ≤ F.reads files.old + limit + 2 }
    ensures no_other { (other : List ℕ) → F.tried files.new other → F.tried files.old other ⊎ (other ≡ name.now) }

    // when each error comes
    ensures read_fault { result ≡ Err Take.ReadFault → Rose (F.faults files.old name.now) (F.faults files.new name.now) }
    ensures too_long { result ≡ Err Take.TooLong → F.given files.new ≡ limit + 1 }
    ensures gave_more { F.given files.new ≡ limit + 1 → (result ≡ Err Take.TooLong) ⊎ (result ≡ Err Take.Memory) }
    ensures longer { result ≡ Err Take.TooLong → IfSome (F.held files.old name.now) (λ bytes. limit < length bytes) }

    // the specified contents are unchanged
    ensures held { SameHeld (F.held files.old) (F.held files.new) }
    ensures later { NoneFell (F.faults files.old) (F.faults files.new) }
    ensures quiet { result ≢ Err Take.ReadFault → SameCounts (F.faults files.old) (F.faults files.new) }
    ensures others { OthersKept (λ other. other ≡ name.now) (F.faults files.old) (F.faults files.new) }
{
    match files.begin(name) {
        Ok(()) => take_rest(alloc, files, limit),
        Err(_) => Err(Take::ReadFault),
    }
}

// Reads the rest of the begun file, at most `limit` bytes. Each read but the last takes a byte.
fn take_rest<F: Files>(alloc: Global, files: &mut F, limit: usize) -> Result<Vec<u8>, Take>
    requires small { limit < 2 ^ 32 }
    requires start { F.given files.old ≡ 0 }
    requires fresh { F.heard files.old ≡ gave [] false (F.heard files.old) }
    ensures heard { IfOk result (λ v. F.heard files.new ≡ gave v.items true (F.heard files.old)) }
    ensures heard_part { IfErr result (λ why. GavePart (F.heard files.old) (F.heard files.new) (F.left files.old) limit why) }
    ensures reads { F.reads files.new ≤ F.reads files.old + limit + 2 }
    ensures untried { (other : List ℕ) → F.tried files.new other → F.tried files.old other }
    ensures bytes { IfOk result (λ v. IfSome (F.left files.old) (λ left. v.items ≡ left)) }
    ensures within { IfOk result (λ v. length v.items ≤ limit) }
    ensures given { IfOk result (λ v. F.given files.new ≡ length v.items) }
    ensures no_more { F.given files.new ≤ limit + 1 }
    ensures read_fault { result ≡ Err Take.ReadFault → AllRose (F.begun files.old) (F.faults files.old) (F.faults files.new) }
    ensures too_long { result ≡ Err Take.TooLong → F.given files.new ≡ limit + 1 }
    ensures gave_more { F.given files.new ≡ limit + 1 → (result ≡ Err Take.TooLong) ⊎ (result ≡ Err Take.Memory) }
    ensures longer { result ≡ Err Take.TooLong → IfSome (F.left files.old) (λ left. limit < length left) }
    ensures held { SameHeld (F.held files.old) (F.held files.new) }
    ensures later { NoneFell (F.faults files.old) (F.faults files.new) }
    ensures quiet { result ≢ Err Take.ReadFault → SameCounts (F.faults files.old) (F.faults files.new) }
    ensures others { OthersKept (F.begun files.old) (F.faults files.old) (F.faults files.new) }
{
    let mut bytes = Vec::new(alloc);
    let mut room = [0u8; CHUNK];
    'fill: while bytes.len() <= limit {
        let wanted = CHUNK.min(limit + 1 - bytes.len());
        match files.read(&mut room[..wanted]) {
            Ok(0) => return Ok(bytes),
            Ok(count) => bytes.extend_from_slice(&room[..count])?,
            Err(_) => return Err(Take::ReadFault),
        }
    }
    Err(Take::TooLong)
}
