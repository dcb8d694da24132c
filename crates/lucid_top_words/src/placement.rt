// Why a placement is refused, and the line that says so.
ghost use Rattle.std.specs.Prelude.{◌++◌, List, ℕ, OnOk, OnErr, codes, decimal};
ghost use Rattle.lucid_io.specs.Puts.{PutsAll, PutsPart};
ghost use Rattle.lucid_top_words.specs.Placement.{placement_line};

use crate::line::put_count;
use lucid_io::{Sink, WriteFault, put_all};
use lucid_log::{Piece, put_pieces};

/// Why a placement file says nothing that can be used, or which rule its places break.
#[derive(Drop)]
pub enum BadPlacement {
    /// The file is no JSON.
    NotJson,
    /// The file is no object.
    File,
    /// The file has another key than `nodes`.
    Other,
    /// `nodes` is absent, no list, or not as long as there are nodes.
    Nodes,
    /// This item of `nodes`, from 0, is the first that is no pair of numbers below 2^32.
    Item(u32),
    /// The stage or the table of this node, from 0, isn't there.
    Range(u32),
    /// This node is not in a stage above all nodes that write its reads.
    Early(u32),
    /// A table has more rows than `rows` allows, or a product on the way to it.
    Rows {
        /// The first such stage, from 0.
        stage: u32,
        /// Its first such table, from 0.
        table: u32,
    },
    /// This stage, from 0, has more nodes that call an array than `arrays` allows.
    Arrays(u32),
}

impl BadPlacement {
    /// Writes the line (`placement_line`). Takes no memory.
    pub(crate) fn put<E: Sink>(&self, err: &mut E) -> Result<(), WriteFault>
        ensures all { OnOk result (PutsAll E.written E.faults err.old err.new (placement_line self.now)) }
        ensures part { OnErr result (PutsPart E.written E.faults err.old err.new (placement_line self.now)) }
    {
        match self {
            BadPlacement::NotJson => put_all(err, b"placement: not JSON\n"),
            BadPlacement::File => put_all(err, b"placement: file\n"),
            BadPlacement::Other => put_all(err, b"placement: other\n"),
            BadPlacement::Nodes => put_all(err, b"placement: nodes\n"),
            BadPlacement::Item(item) => put_count(err, b"placement: nodes ", *item as u64),
            BadPlacement::Range(node) => put_place(err, b"placement: node ", *node, b" range\n"),
            BadPlacement::Early(node) => put_place(err, b"placement: node ", *node, b" early\n"),
            BadPlacement::Rows { stage, table } => put_pieces(
                err,
                &[
                    Piece::Text(b"placement: stage "),
                    Piece::Number(*stage as u64),
                    Piece::Text(b" table "),
                    Piece::Number(*table as u64),
                    Piece::Text(b" rows\n"),
                ],
            ),
            BadPlacement::Arrays(stage) => {
                put_place(err, b"placement: stage ", *stage, b" arrays\n")
            }
        }
    }
}

// Writes a line with a number between two texts.
fn put_place<'a, E: Sink>(
    err: &mut E,
    head: &'a [u8],
    at: u32,
    tail: &'a [u8],
) -> Result<(), WriteFault>
    ensures all { OnOk result (PutsAll E.written E.faults err.old err.new (head.now ++ decimal at ++ tail.now)) }
    ensures part { OnErr result (PutsPart E.written E.faults err.old err.new (head.now ++ decimal at ++ tail.now)) }
{
    put_pieces(
        err,
        &[
            Piece::Text(head),
            Piece::Number(at as u64),
            Piece::Text(tail),
        ],
    )
}
