// The lines of a layout, put into a sink.
ghost use Rattle.std.specs.Prelude.{◌≡◌, ◌<◌, length, OnOk, OnErr};
ghost use Rattle.std.specs.List.{flat_map, All};
ghost use Rattle.lucid_io.specs.Puts.{PutsAll, PutsPart};
ghost use Rattle.lucid_layout_text.specs.Lines.{counts_text, line_head, line_text, name_at, name_text, arrays_text, ArraysAreThere};

use crate::table_line::TableLine;
use lucid_base::ArrayDef;
use lucid_io::{Sink, WriteFault};
use lucid_log::{Piece, put_pieces};

/// Writes how many operations, bits and nodes there are.
pub(crate) fn put_counts<S: Sink>(
    sink: &mut S,
    ops: u64,
    bits: u64,
    nodes: u64,
) -> Result<(), WriteFault>
    ensures all { OnOk result (PutsAll S.written S.faults sink.old sink.new (counts_text ops bits nodes)) }
    ensures part { OnErr result (PutsPart S.written S.faults sink.old sink.new (counts_text ops bits nodes)) }
{
    put_pieces(
        sink,
        &[
            Piece::Text(b"ops "),
            Piece::Number(ops),
            Piece::Text(b" bits "),
            Piece::Number(bits),
            Piece::Text(b" nodes "),
            Piece::Number(nodes),
            Piece::Text(b"\n"),
        ],
    )
}

/// Writes the lines of tables.
pub(crate) fn put_lines<S: Sink>(
    sink: &mut S,
    arrays: &[ArrayDef],
    lines: &[TableLine],
) -> Result<(), WriteFault>
    requires { ArraysAreThere (length arrays.now) lines.now }
    ensures all { OnOk result (PutsAll S.written S.faults sink.old sink.new (flat_map (line_text arrays.now) lines.now)) }
    ensures part { OnErr result (PutsPart S.written S.faults sink.old sink.new (flat_map (line_text arrays.now) lines.now)) }
{
    for line in lines {
        put_line(sink, arrays, line)?;
    }
    Ok(())
}

/// Writes the line of a table.
fn put_line<S: Sink>(sink: &mut S, arrays: &[ArrayDef], line: &TableLine) -> Result<(), WriteFault>
    requires { All (λ g. g < length arrays.now) line.now.arrays }
    ensures all { OnOk result (PutsAll S.written S.faults sink.old sink.new (line_text arrays.now line.now)) }
    ensures part { OnErr result (PutsPart S.written S.faults sink.old sink.new (line_text arrays.now line.now)) }
{
    put_head(sink, line)?;
    put_arrays(sink, arrays, line.arrays.as_slice())?;
    put_pieces(sink, &[Piece::Text(b"\n")])
}

/// Writes the numbers of a table.
fn put_head<S: Sink>(sink: &mut S, line: &TableLine) -> Result<(), WriteFault>
    ensures all { OnOk result (PutsAll S.written S.faults sink.old sink.new (line_head line.now)) }
    ensures part { OnErr result (PutsPart S.written S.faults sink.old sink.new (line_head line.now)) }
{
    put_pieces(
        sink,
        &[
            Piece::Text(b"stage "),
            Piece::Number(line.stage),
            Piece::Text(b" table "),
            Piece::Number(line.table),
            Piece::Text(b" rows "),
            Piece::Number(line.rows),
            Piece::Text(b" ops "),
            Piece::Number(line.ops),
        ],
    )
}

/// Writes the names of these arrays behind their word, and nothing if there are none.
fn put_arrays<S: Sink>(sink: &mut S, arrays: &[ArrayDef], numbers: &[u32]) -> Result<(), WriteFault>
    requires { All (λ g. g < length arrays.now) numbers.now }
    ensures all { OnOk result (PutsAll S.written S.faults sink.old sink.new (arrays_text arrays.now numbers.now)) }
    ensures part { OnErr result (PutsPart S.written S.faults sink.old sink.new (arrays_text arrays.now numbers.now)) }
{
    if numbers.is_empty() {
        return Ok(());
    }
    put_pieces(sink, &[Piece::Text(b" arrays")])?;
    put_names(sink, arrays, numbers)
}

/// Writes the names of these arrays, each behind a blank.
fn put_names<S: Sink>(sink: &mut S, arrays: &[ArrayDef], numbers: &[u32]) -> Result<(), WriteFault>
    requires { All (λ g. g < length arrays.now) numbers.now }
    ensures all { OnOk result (PutsAll S.written S.faults sink.old sink.new (flat_map (name_text arrays.now) numbers.now)) }
    ensures part { OnErr result (PutsPart S.written S.faults sink.old sink.new (flat_map (name_text arrays.now) numbers.now)) }
{
    for number in numbers {
        put_name(sink, arrays, *number)?;
    }
    Ok(())
}

/// Writes the name of an array behind a blank.
fn put_name<S: Sink>(sink: &mut S, arrays: &[ArrayDef], number: u32) -> Result<(), WriteFault>
    requires { number < length arrays.now }
    ensures all { OnOk result (PutsAll S.written S.faults sink.old sink.new (name_text arrays.now number)) }
    ensures part { OnErr result (PutsPart S.written S.faults sink.old sink.new (name_text arrays.now number)) }
{
    let name = name_of(arrays, number);
    put_pieces(sink, &[Piece::Text(b" "), Piece::Text(name)])
}

/// Returns the name of an array.
fn name_of(arrays: &[ArrayDef], number: u32) -> &[u8]
    requires { number < length arrays.now }
    ensures { result.now ≡ name_at arrays.now number }
{
    arrays[number as usize].name.bytes()
}
