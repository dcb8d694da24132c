// The text of a layout, as its callers see it.
ghost use Rattle.std.specs.Prelude.{◌≡◌, IfOk, OnOk, OnErr};
ghost use Rattle.lucid_io.specs.Puts.{PutsAll, PutsPart};
ghost use Rattle.lucid_layout_text.specs.Text.{layout_text};

use crate::listing::lines;
use crate::put::{put_counts, put_lines};
use crate::table_line::TableLine;
use lucid_base::Memory;
use lucid_code::Code;
use lucid_io::{Sink, WriteFault};
use lucid_stages::{bits_of, nodes};
use lucid_tables::Placed;
use std::alloc::Global;
use std::marker::Model;

/// The lines of a layout, ready to be put. Contracts see their text.
#[derive(Drop)]
pub struct LayoutText<'a> {
    code: &'a Code,
    bits: u64,
    nodes: u64,
    lines: Vec<TableLine>,
}

impl<'a> Model for LayoutText<'a> {
    ghost use Rattle.std.specs.Prelude.{ℕ, List, length};
    ghost use Rattle.lucid_layout_text.specs.Lines.{text_of, ArraysAreThere};

    ghost Value = { List ℕ };

    ghost view = { λ t. text_of t.code.now t.bits t.nodes t.lines.items };

    ghost invariant = { λ t. ArraysAreThere (length t.code.now.arrays) t.lines.items };
}

impl<'a> LayoutText<'a> {
    /// Returns the lines of the layout of a placed code (`layout_text` of specs/Text). It takes all the memory that they need.
    pub fn new(alloc: Global, placed: &'a Placed) -> Result<LayoutText<'a>, Memory>
        ensures { IfOk result (λ text. text ≡ layout_text placed.now) }
    {
        let code = placed.code();
        let bits = bits_of(alloc, code)?;
        let nodes = nodes(alloc, code)?.len() as u64;
        let lines = lines(alloc, code.ops(), placed.stages())?;
        Ok(LayoutText {
            code,
            bits,
            nodes,
            lines,
        })
    }

    /// Writes them: all of the text, or a proper prefix of it if the sink's count of faults rose in this call. Takes no memory.
    pub fn put<S: Sink>(&self, sink: &mut S) -> Result<(), WriteFault>
        ensures all { OnOk result (PutsAll S.written S.faults sink.old sink.new self.now) }
        ensures part { OnErr result (PutsPart S.written S.faults sink.old sink.new self.now) }
    {
        put_counts(sink, self.code.ops().len() as u64, self.bits, self.nodes)?;
        put_lines(sink, self.code.arrays(), self.lines.as_slice())
    }
}
