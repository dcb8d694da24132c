// Why a program doesn't fit the pipeline, and the line that says so.
ghost use Rattle.std.specs.Prelude.{OnOk, OnErr};
ghost use Rattle.lucid_io.specs.Puts.{PutsAll, PutsPart};
ghost use Rattle.lucid_top_words.specs.NoFit.{fit_line};

use crate::line::{put_count, put_name};
use lucid_base::Id;
use lucid_io::{Sink, WriteFault};

/// Why a program doesn't fit the pipeline of a limits file.
#[derive(Drop)]
pub enum NoFit {
    /// After inlining its handlers have this many operations, more than 4,096.
    Ops(u64),
    /// After inlining its handlers have this many statements and calls, more than 262,144.
    Size(u64),
    /// A packet carries this many bits, more than `bits` allows.
    Bits(u64),
    /// The first array that has more calls than `arms` allows.
    Arms(Id),
    /// First fit finds no place for the node of this number, from 0.
    Node(u32),
}

impl NoFit {
    /// Writes the line (`fit_line`). Takes no memory.
    pub(crate) fn put<E: Sink>(&self, err: &mut E) -> Result<(), WriteFault>
        ensures all { OnOk result (PutsAll E.written E.faults err.old err.new (fit_line self.now)) }
        ensures part { OnErr result (PutsPart E.written E.faults err.old err.new (fit_line self.now)) }
    {
        match self {
            NoFit::Ops(count) => put_count(err, b"nofit: ops ", *count),
            NoFit::Size(count) => put_count(err, b"nofit: size ", *count),
            NoFit::Bits(count) => put_count(err, b"nofit: bits ", *count),
            NoFit::Arms(array) => put_name(err, b"nofit: arms ", array.bytes()),
            NoFit::Node(node) => put_count(err, b"nofit: node ", *node as u64),
        }
    }
}
