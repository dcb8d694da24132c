// The text of a step: a line, and the block of a packet that left.
ghost use Rattle.std.specs.Prelude.{◌≡◌, ◌<◌, ◌++◌, ◌%◌, Some, length, slice_get, OnOk, OnErr};
ghost use Rattle.lucid_io.specs.Puts.{PutsAll, PutsPart};
ghost use Rattle.lucid_log.specs.Cell.{array_name};
ghost use Rattle.std.specs.Prelude.{codes, decimal};
ghost use Rattle.lucid_drive.specs.Drive.{line};
ghost use Rattle.lucid_drive.specs.Happened.{FitsTo, PassedFits, happened_block, happened_text, happened_within, looked_text, passed_text};
ghost use Rattle.lucid_drive.specs.declared.happened.Happened.TheVariants.{Looked};

use crate::happened::Happened;
use lucid_base::ArrayDef;
use lucid_core::Core;
use lucid_io::{Sink, WriteFault};
use lucid_log::{Piece, put_block, put_numbered, put_pieces};
use lucid_pipe::{Passed, Stuck};

/// Writes the block of a packet that left.
fn put_passed<S: Sink>(sink: &mut S, core: &Core, passed: &Passed) -> Result<(), WriteFault>
    requires { PassedFits core.now passed.now }
    ensures all { OnOk result (PutsAll S.written S.faults sink.old sink.new (passed_text core.now passed.entry.now)) }
    ensures part { OnErr result (PutsPart S.written S.faults sink.old sink.new (passed_text core.now passed.entry.now)) }
{
    put_block(
        sink,
        core,
        passed.now,
        passed.me,
        &passed.event,
        &passed.outs,
        0,
    )
}

/// Writes `go K` and the block of the packet that left.
fn put_left<S: Sink>(sink: &mut S, core: &Core, k: usize, passed: &Passed) -> Result<(), WriteFault>
    requires { PassedFits core.now passed.now }
    ensures all { OnOk result (PutsAll S.written S.faults sink.old sink.new (line (codes "go ") k ++ passed_text core.now passed.entry.now)) }
    ensures part { OnErr result (PutsPart S.written S.faults sink.old sink.new (line (codes "go ") k ++ passed_text core.now passed.entry.now)) }
{
    put_numbered(sink, b"go ", k as u64)?;
    put_passed(sink, core, passed)
}

/// Writes the text of a move of the packet in slot `k` that made no packet leave.
pub(crate) fn put_moved<S: Sink>(
    sink: &mut S,
    core: &Core,
    k: usize,
    moved: Result<(), Stuck>,
) -> Result<(), WriteFault>
    ensures all { OnOk result (PutsAll S.written S.faults sink.old sink.new (happened_text core.now (happened_within k moved))) }
    ensures part { OnErr result (PutsPart S.written S.faults sink.old sink.new (happened_text core.now (happened_within k moved))) }
{
    match moved {
        Ok(()) => put_numbered(sink, b"go ", k as u64),
        Err(Stuck::Empty) => put_numbered(sink, b"empty ", k as u64),
        Err(Stuck::Ahead) => put_numbered(sink, b"ahead ", k as u64),
    }
}

/// Writes the text of a step.
pub(crate) fn put_happened<S: Sink>(
    sink: &mut S,
    core: &Core,
    happened: &Happened,
) -> Result<(), WriteFault>
    requires { FitsTo core.now happened.now }
    ensures all { OnOk result (PutsAll S.written S.faults sink.old sink.new (happened_text core.now happened.now)) }
    ensures part { OnErr result (PutsPart S.written S.faults sink.old sink.new (happened_text core.now happened.now)) }
{
    match happened {
        Happened::Nothing => put_pieces(sink, &[Piece::Text(b"none\n")]),
        Happened::Busy => put_pieces(sink, &[Piece::Text(b"busy\n")]),
        Happened::Entered(n) => put_numbered(sink, b"enter ", *n),
        Happened::Empty(k) => put_numbered(sink, b"empty ", *k as u64),
        Happened::Ahead(k) => put_numbered(sink, b"ahead ", *k as u64),
        Happened::Went(k) => put_numbered(sink, b"go ", *k as u64),
        Happened::Left(k, passed) => put_left(sink, core, *k, passed),
        Happened::Looked(array, cell, value) => put_looked(sink, core, *array, *cell, *value),
    }
}

/// Writes the block of a packet that left, if one did.
pub(crate) fn put_out<S: Sink>(
    sink: &mut S,
    core: &Core,
    happened: &Happened,
) -> Result<(), WriteFault>
    requires { FitsTo core.now happened.now }
    ensures all { OnOk result (PutsAll S.written S.faults sink.old sink.new (happened_block core.now happened.now)) }
    ensures part { OnErr result (PutsPart S.written S.faults sink.old sink.new (happened_block core.now happened.now)) }
{
    match happened {
        Happened::Left(_, passed) => put_passed(sink, core, passed),
        _ => Ok(()),
    }
}

/// Writes the line of a look.
fn put_looked<S: Sink>(
    sink: &mut S,
    core: &Core,
    array: u32,
    cell: u64,
    value: u64,
) -> Result<(), WriteFault>
    requires { array < length core.now.arrays }
    ensures all { OnOk result (PutsAll S.written S.faults sink.old sink.new (happened_text core.now (Looked array cell value))) }
    ensures part { OnErr result (PutsPart S.written S.faults sink.old sink.new (happened_text core.now (Looked array cell value))) }
{
    put_look(sink, array_of(core, array), cell, value)
}

#[tactic(auto, using(crate::proofs::Putting::array_is))]
fn array_of(core: &Core, array: u32) -> &ArrayDef
    requires { array < length core.now.arrays }
    ensures { slice_get core.now.arrays array ≡ Some result.now }
{
    &core.arrays()[array as usize]
}

/// The same, of an array.
fn put_look<S: Sink>(
    sink: &mut S,
    array: &ArrayDef,
    cell: u64,
    value: u64,
) -> Result<(), WriteFault>
    ensures all { OnOk result (PutsAll S.written S.faults sink.old sink.new (looked_text array.now cell value)) }
    ensures part { OnErr result (PutsPart S.written S.faults sink.old sink.new (looked_text array.now cell value)) }
{
    put_pieces(
        sink,
        &[
            Piece::Text(b"look "),
            Piece::Text(array.name.bytes()),
            Piece::Text(b"["),
            Piece::Number(place(array.size, cell)),
            Piece::Text(b"] = "),
            Piece::Number(value),
            Piece::Text(b"\n"),
        ],
    )
}

/// Cell `i` is `i` modulo the size.
#[tactic(auto, using(crate::proofs::Putting::no_size))]
fn place(size: u32, cell: u64) -> u64
    ensures { result ≡ cell % size }
{
    if size == 0 { cell } else { cell % size as u64 }
}
