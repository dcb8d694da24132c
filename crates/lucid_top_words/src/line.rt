// The one place that writes the error line of a call, an arm each kind of refusal.
ghost use Rattle.std.specs.Prelude.{◌≡◌, ◌++◌, ℕ, List, OnOk, OnErr, codes, decimal, map, string_bytes};
ghost use Rattle.lucid_conf.specs.Keys.{name_of};
ghost use Rattle.lucid_io.specs.Puts.{PutsAll, PutsPart};
ghost use Rattle.lucid_top_words.specs.Refusal.{status_of, line_of, limit_of, names_text, order_line, scene_line, types_line};
ghost use Rattle.lucid_top_words.specs.Words.{word_at};
ghost use Rattle.lucid_top_words.specs.Writing.{Said};

use crate::refusal::Refusal;
use crate::status::Status;
use crate::word::word_bytes;
use lucid_base::Id;
use lucid_conf::Key;
use lucid_io::{Sink, WriteFault, put_all};
use lucid_log::{Piece, put_pieces};
use lucid_types_spec::What;

/// Ends a call by a refusal: writes its line, and gives its status, which a fault of `err` doesn't change.
pub fn refuse<E: Sink>(err: &mut E, words: &[String], refusal: Refusal) -> Status
    ensures status { result ≡ status_of refusal }
    ensures said { Said E.written E.faults err.old err.new (line_of (map string_bytes words.now) refusal) }
{
    let _ = put_line(err, words, &refusal);
    refusal.status()
}

// The line of a refusal, an arm each.
fn put_line<E: Sink>(err: &mut E, words: &[String], refusal: &Refusal) -> Result<(), WriteFault>
    ensures all { let line = line_of (map string_bytes words.now) refusal.now in
        OnOk result (PutsAll E.written E.faults err.old err.new line) }
    ensures part { let line = line_of (map string_bytes words.now) refusal.now in
        OnErr result (PutsPart E.written E.faults err.old err.new line) }
{
    match refusal {
        Refusal::Usage => put_all(err, b"usage\n"),
        Refusal::ReadFault(word) => put_file(err, b"read fault: ", words, *word),
        Refusal::TooLong(word) => put_file(err, b"too long: ", words, *word),
        Refusal::NoToken(at) => put_count(err, b"syntax: byte ", *at as u64),
        Refusal::Sizes(why) => why.put(err),
        Refusal::TooDeep(n) => put_count(err, b"syntax: nesting at token ", *n as u64),
        Refusal::NoTree(n) => put_count(err, b"syntax: token ", *n as u64),
        Refusal::NoRule { decl, line } => put_types(err, *decl, *line, b""),
        Refusal::PassesLimit { what, decl, line } => {
            put_types(err, *decl, *line, limit_text(*what))
        }
        Refusal::NoOrder { decl, line, cycle } => put_order(err, *decl, *line, cycle.as_slice()),
        Refusal::LimitsNotJson => put_all(err, b"limits: not JSON\n"),
        Refusal::LimitsKey(key) => put_name(err, b"limits: ", key.name().as_bytes()),
        Refusal::NoFit(why) => why.put(err),
        Refusal::SceneNotJson => put_all(err, b"scene: not JSON\n"),
        Refusal::SceneKey { key, place } => put_scene_key(err, *key, *place),
        Refusal::Placement(why) => why.put(err),
        Refusal::WriteFault => put_all(err, b"write fault\n"),
        Refusal::Memory => put_all(err, b"memory\n"),
    }
}

// Writes a line with the file that the word of this number names.
fn put_file<'a, E: Sink>(
    err: &mut E,
    head: &'a [u8],
    words: &'a [String],
    word: usize,
) -> Result<(), WriteFault>
    ensures all { let line = head.now ++ word_at (map string_bytes words.now) word ++ codes "\n" in
        OnOk result (PutsAll E.written E.faults err.old err.new line) }
    ensures part { let line = head.now ++ word_at (map string_bytes words.now) word ++ codes "\n" in
        OnErr result (PutsPart E.written E.faults err.old err.new line) }
{
    put_pieces(
        err,
        &[
            Piece::Text(head),
            Piece::Text(word_bytes(words, word)),
            Piece::Text(b"\n"),
        ],
    )
}

/// Writes a line with a name.
pub(crate) fn put_name<'a, E: Sink>(
    err: &mut E,
    head: &'a [u8],
    name: &'a [u8],
) -> Result<(), WriteFault>
    ensures all { OnOk result (PutsAll E.written E.faults err.old err.new (head.now ++ name.now ++ codes "\n")) }
    ensures part { OnErr result (PutsPart E.written E.faults err.old err.new (head.now ++ name.now ++ codes "\n")) }
{
    put_pieces(
        err,
        &[Piece::Text(head), Piece::Text(name), Piece::Text(b"\n")],
    )
}

/// Writes a line with a number.
pub(crate) fn put_count<'a, E: Sink>(
    err: &mut E,
    head: &'a [u8],
    count: u64,
) -> Result<(), WriteFault>
    ensures all { OnOk result (PutsAll E.written E.faults err.old err.new (head.now ++ decimal count ++ codes "\n")) }
    ensures part { OnErr result (PutsPart E.written E.faults err.old err.new (head.now ++ decimal count ++ codes "\n")) }
{
    put_pieces(
        err,
        &[Piece::Text(head), Piece::Number(count), Piece::Text(b"\n")],
    )
}

// Writes the line with a key of a scenario, and of a list the bad item.
fn put_scene_key<E: Sink>(err: &mut E, key: Key, place: Option<u32>) -> Result<(), WriteFault>
    ensures all { OnOk result (PutsAll E.written E.faults err.old err.new (scene_line key place)) }
    ensures part { OnErr result (PutsPart E.written E.faults err.old err.new (scene_line key place)) }
{
    match place {
        None => put_name(err, b"scene: ", key.name().as_bytes()),
        Some(place) => put_pieces(
            err,
            &[
                Piece::Text(b"scene: "),
                Piece::Text(key.name().as_bytes()),
                Piece::Text(b" "),
                Piece::Number(place as u64),
                Piece::Text(b"\n"),
            ],
        ),
    }
}

// Writes the line with a declaration that the typing rules refuse, and then the limit.
fn put_types<'a, E: Sink>(
    err: &mut E,
    decl: u32,
    line: u32,
    limit: &'a [u8],
) -> Result<(), WriteFault>
    ensures all { OnOk result (PutsAll E.written E.faults err.old err.new (types_line decl line limit.now)) }
    ensures part { OnErr result (PutsPart E.written E.faults err.old err.new (types_line decl line limit.now)) }
{
    put_pieces(
        err,
        &[
            Piece::Text(b"types: declaration "),
            Piece::Number(decl as u64),
            Piece::Text(b" line "),
            Piece::Number(line as u64),
            Piece::Text(limit),
            Piece::Text(b"\n"),
        ],
    )
}

// The name of a limit in the line.
fn limit_text(what: What) -> &'static [u8]
    ensures { result.now ≡ limit_of what }
{
    match what {
        What::Arrays => b" limit arrays",
        What::ArrayParameters => b" limit array parameters",
        What::ValueParameters => b" limit value parameters",
        What::Arguments => b" limit arguments",
        What::Outs => b" limit outs",
        What::Cases => b" limit cases",
    }
}

// Writes the line with a declaration that isn't in order.
fn put_order<E: Sink>(err: &mut E, decl: u32, line: u32, cycle: &[Id]) -> Result<(), WriteFault>
    ensures all { OnOk result (PutsAll E.written E.faults err.old err.new (order_line decl line cycle.now)) }
    ensures part { OnErr result (PutsPart E.written E.faults err.old err.new (order_line decl line cycle.now)) }
{
    put_pieces(
        err,
        &[
            Piece::Text(b"order: declaration "),
            Piece::Number(decl as u64),
            Piece::Text(b" line "),
            Piece::Number(line as u64),
            Piece::Text(b" cycle"),
        ],
    )?;
    put_names(err, cycle)?;
    put_all(err, b"\n")
}

// Names, each after a blank.
fn put_names<E: Sink>(err: &mut E, names: &[Id]) -> Result<(), WriteFault>
    ensures all { OnOk result (PutsAll E.written E.faults err.old err.new (names_text names.now)) }
    ensures part { OnErr result (PutsPart E.written E.faults err.old err.new (names_text names.now)) }
{
    for name in names {
        put_pieces(err, &[Piece::Text(b" "), Piece::Text(name.bytes())])?;
    }
    Ok(())
}
