// The calls of the machine: the disk and the streams of the process. These few lines are to be read, since no clause of std says which file a
// call opens, nor why a call failed. That a read or a write moves the bytes that std's clauses say is proved here too.
ghost use Rattle.std.specs.Prelude.{◌≡◌};

use crate::disk::Disk;
use crate::files::Failed;
use crate::past::{Note, Past};
use crate::sink::Sink;
use std::fs;
use std::io::{Read, Write};

/// The machine's disk.
#[derive(Drop)]
pub struct RealDisk<R: fs::Files + Drop> {
    rt: R,
    past: Past,
}

impl<R: fs::Files + Drop> RealDisk<R> {
    /// Returns the disk of this runtime, with no call made.
    pub fn new(rt: R) -> RealDisk<R>
        ensures calls { ⟦<RealDisk<R> as Disk>⟧.calls result ≡ 0 }
        ensures failed { ⟦<RealDisk<R> as Disk>⟧.failed result ≡ 0 }
    {
        RealDisk {
            rt,
            past: Past::new(),
        }
    }
}

impl<R: fs::Files + Drop> Disk for RealDisk<R> {
    type File = R::File;

    ghost opened = { λ _ _. Unit {0} };

    ghost left = { ⟦<R::File as Read>⟧.remaining };

    ghost calls = { λ s. s.past.calls };

    ghost failed = { λ s. s.past.failed };

    fn open(&mut self, name: &str) -> Result<R::File, Failed> {
        self.past = self.past.then(&Note::Called);
        match fs::open(&self.rt, name) {
            Ok(file) => Ok(file),
            Err(_) => {
                self.past = self.past.then(&Note::Failed);
                Err(Failed)
            }
        }
    }

    fn read(&mut self, file: &mut R::File, room: &mut [u8]) -> Result<usize, Failed> {
        self.past = self.past.then(&Note::Called);
        match file.read(room) {
            Ok(count) => Ok(count),
            Err(_) => {
                self.past = self.past.then(&Note::Failed);
                Err(Failed)
            }
        }
    }
}

/// A stream of the machine, as its standard output or error. A write that fails, or takes no byte of a piece, is counted.
#[derive(Drop)]
pub struct RealStream<W: Write + Drop> {
    stream: W,
    past: Past,
}

impl<W: Write + Drop> RealStream<W> {
    /// Returns this stream, with no fault met.
    pub fn new(stream: W) -> RealStream<W>
        ensures { ⟦<RealStream<W> as Sink>⟧.faults result ≡ 0 }
    {
        RealStream {
            stream,
            past: Past::new(),
        }
    }
}

impl<W: Write + Drop> Sink for RealStream<W> {
    ghost written = { λ s. W.contents s.stream };

    ghost faults = { λ s. s.past.failed };

    /// An empty piece is written by doing nothing.
    fn write(&mut self, piece: &[u8]) -> Result<usize, Failed> {
        if piece.is_empty() {
            return Ok(0);
        }
        match self.stream.write(piece) {
            Ok(count) if count > 0 => Ok(count),
            _ => {
                self.past = self.past.then(&Note::Failed);
                Err(Failed)
            }
        }
    }
}
