// The command of the words of a call, read by place.
ghost use Rattle.std.specs.Prelude.{◌≡◌, ◌+◌, ◌<◌, ◌^◌, ◌∷◌, All, IfSome, length, map, string_bytes};
ghost use Rattle.lucid_top_words.specs.Command.{HasCount, audit_words, bench_words, command_of, check_words, drive_words, expand_words};
ghost use Rattle.lucid_top_words.specs.Command.{gen_words, kind_of, layout_words, once_words, snap_words};
ghost use Rattle.lucid_top_words.specs.Command.{placed_mode as placed_mode_of, run_mode as mode_of, run_words, files_of};

use crate::number::{arguments, count, number};
use lucid_base::Args;

/// The command of the words. Words that it reads again are given by place.
#[derive(Clone, Copy)]
pub enum Command {
    /// `check P`
    Check,
    /// `once P NAME ARG..`
    Once {
        /// The numbers that ARG.. write; None if there are more than any event has.
        arguments: Option<Args>,
    },
    /// `expand P`
    Expand,
    /// `layout P L`
    Layout,
    /// `run whole P L T`
    RunWhole,
    /// `run pipe P L T`
    RunPipe,
    /// `run placed P L T Q`
    RunPlaced,
    /// `drive P L T`
    Drive,
    /// `audit P L Q`
    Audit,
    /// `snap P L T K`
    Snap {
        /// The number of steps before the snapshot.
        after: u64,
    },
    /// `gen KIND SEED N`
    Gen {
        kind: GenKind,
        seed: u64,
        /// How many events a scenario has, from 1 to 10,000.
        count: u32,
    },
    /// `bench SEED N`
    Bench {
        seed: u64,
        /// How many events the scenario has, from 1 to 10,000.
        count: u32,
    },
}

/// Which text is generated.
#[derive(Clone, Copy)]
pub enum GenKind {
    /// A program.
    Program,
    /// The limits of a target.
    Limits,
    /// A scenario.
    Scene,
}

/// A word that names a file.
pub struct NamedFile {
    /// The number of the word, from 0.
    pub word: usize,
    /// The most bytes that the file may have.
    pub limit: usize,
}

/// The most bytes that a program file may have.
const PROGRAM_BYTES: usize = 1_048_576;

/// The most bytes that a limits file may have.
const LIMITS_BYTES: usize = 1_048_576;

/// The most bytes that a scenario may have.
const SCENARIO_BYTES: usize = 8_388_608;

/// The most bytes that a placement file may have.
const PLACEMENT_BYTES: usize = 8_388_608;

const CHECK_FILES: [NamedFile; 1] = [NamedFile {
    word: 1,
    limit: PROGRAM_BYTES,
}];

const ONCE_FILES: [NamedFile; 1] = [NamedFile {
    word: 1,
    limit: PROGRAM_BYTES,
}];

const EXPAND_FILES: [NamedFile; 1] = [NamedFile {
    word: 1,
    limit: PROGRAM_BYTES,
}];

const LAYOUT_FILES: [NamedFile; 2] = [
    NamedFile {
        word: 1,
        limit: PROGRAM_BYTES,
    },
    NamedFile {
        word: 2,
        limit: LIMITS_BYTES,
    },
];

const RUN_FILES: [NamedFile; 3] = [
    NamedFile {
        word: 2,
        limit: PROGRAM_BYTES,
    },
    NamedFile {
        word: 3,
        limit: LIMITS_BYTES,
    },
    NamedFile {
        word: 4,
        limit: SCENARIO_BYTES,
    },
];

const PLACED_FILES: [NamedFile; 4] = [
    NamedFile {
        word: 2,
        limit: PROGRAM_BYTES,
    },
    NamedFile {
        word: 3,
        limit: LIMITS_BYTES,
    },
    NamedFile {
        word: 4,
        limit: SCENARIO_BYTES,
    },
    NamedFile {
        word: 5,
        limit: PLACEMENT_BYTES,
    },
];

const DRIVE_FILES: [NamedFile; 3] = [
    NamedFile {
        word: 1,
        limit: PROGRAM_BYTES,
    },
    NamedFile {
        word: 2,
        limit: LIMITS_BYTES,
    },
    NamedFile {
        word: 3,
        limit: SCENARIO_BYTES,
    },
];

const AUDIT_FILES: [NamedFile; 3] = [
    NamedFile {
        word: 1,
        limit: PROGRAM_BYTES,
    },
    NamedFile {
        word: 2,
        limit: LIMITS_BYTES,
    },
    NamedFile {
        word: 3,
        limit: PLACEMENT_BYTES,
    },
];

impl Command {
    /// Returns the command of the words; None if they are none of the forms. Each word that names a file exists.
    pub fn read(words: &[String]) -> Option<Command>
        ensures command { result ≡ command_of (map string_bytes words.now) }
        ensures there { IfSome result (λ c. All (λ file. file.word < length words.now) (files_of c)) }
        ensures counted { IfSome result HasCount }
    {
        match words {
            [verb, rest @ ..] => read_verb(verb.as_str(), rest),
            [] => None,
        }
    }

    /// Returns the words that name files, in word order.
    pub fn files(&self) -> &'static [NamedFile]
        ensures files { result.now ≡ files_of self.now }
        ensures small { All (λ file. file.limit < 2 ^ 32) result.now }
    {
        match self {
            Command::Check => &CHECK_FILES,
            Command::Once { .. } => &ONCE_FILES,
            Command::Expand => &EXPAND_FILES,
            Command::Layout => &LAYOUT_FILES,
            Command::RunWhole | Command::RunPipe => &RUN_FILES,
            Command::RunPlaced => &PLACED_FILES,
            Command::Drive | Command::Snap { .. } => &DRIVE_FILES,
            Command::Audit => &AUDIT_FILES,
            Command::Gen { .. } | Command::Bench { .. } => &[],
        }
    }
}

/// Returns the command of a verb and the words behind it.
fn read_verb(verb: &str, words: &[String]) -> Option<Command>
    ensures command { result ≡ command_of (verb.now ∷ map string_bytes words.now) }
    ensures there { IfSome result (λ c. All (λ file. file.word < 1 + length words.now) (files_of c)) }
    ensures counted { IfSome result HasCount }
{
    match verb {
        "check" => read_check(words),
        "once" => read_once(words),
        "expand" => read_expand(words),
        "layout" => read_layout(words),
        "run" => read_run(words),
        "drive" => read_drive(words),
        "audit" => read_audit(words),
        "snap" => read_snap(words),
        "gen" => read_gen(words),
        "bench" => read_bench(words),
        _ => None,
    }
}

fn read_check(words: &[String]) -> Option<Command>
    ensures command { result ≡ check_words (map string_bytes words.now) }
    ensures there { IfSome result (λ c. All (λ file. file.word < 1 + length words.now) (files_of c)) }
    ensures counted { IfSome result HasCount }
{
    match words {
        [_] => Some(Command::Check),
        _ => None,
    }
}

fn read_once(words: &[String]) -> Option<Command>
    ensures command { result ≡ once_words (map string_bytes words.now) }
    ensures there { IfSome result (λ c. All (λ file. file.word < 1 + length words.now) (files_of c)) }
    ensures counted { IfSome result HasCount }
{
    match words {
        [_, _, rest @ ..] => Some(Command::Once {
            arguments: arguments(rest)?,
        }),
        _ => None,
    }
}

fn read_expand(words: &[String]) -> Option<Command>
    ensures command { result ≡ expand_words (map string_bytes words.now) }
    ensures there { IfSome result (λ c. All (λ file. file.word < 1 + length words.now) (files_of c)) }
    ensures counted { IfSome result HasCount }
{
    match words {
        [_] => Some(Command::Expand),
        _ => None,
    }
}

fn read_layout(words: &[String]) -> Option<Command>
    ensures command { result ≡ layout_words (map string_bytes words.now) }
    ensures there { IfSome result (λ c. All (λ file. file.word < 1 + length words.now) (files_of c)) }
    ensures counted { IfSome result HasCount }
{
    match words {
        [_, _] => Some(Command::Layout),
        _ => None,
    }
}

fn read_run(words: &[String]) -> Option<Command>
    ensures command { result ≡ run_words (map string_bytes words.now) }
    ensures there { IfSome result (λ c. All (λ file. file.word < 1 + length words.now) (files_of c)) }
    ensures counted { IfSome result HasCount }
{
    match words {
        [mode, _, _, _] => run_mode(mode.as_str()),
        [mode, _, _, _, _] => placed_mode(mode.as_str()),
        _ => None,
    }
}

fn read_drive(words: &[String]) -> Option<Command>
    ensures command { result ≡ drive_words (map string_bytes words.now) }
    ensures there { IfSome result (λ c. All (λ file. file.word < 1 + length words.now) (files_of c)) }
    ensures counted { IfSome result HasCount }
{
    match words {
        [_, _, _] => Some(Command::Drive),
        _ => None,
    }
}

fn read_audit(words: &[String]) -> Option<Command>
    ensures command { result ≡ audit_words (map string_bytes words.now) }
    ensures there { IfSome result (λ c. All (λ file. file.word < 1 + length words.now) (files_of c)) }
    ensures counted { IfSome result HasCount }
{
    match words {
        [_, _, _] => Some(Command::Audit),
        _ => None,
    }
}

fn read_snap(words: &[String]) -> Option<Command>
    ensures command { result ≡ snap_words (map string_bytes words.now) }
    ensures there { IfSome result (λ c. All (λ file. file.word < 1 + length words.now) (files_of c)) }
    ensures counted { IfSome result HasCount }
{
    match words {
        [_, _, _, after] => Some(Command::Snap {
            after: number(after.as_str())?,
        }),
        _ => None,
    }
}

fn read_gen(words: &[String]) -> Option<Command>
    ensures command { result ≡ gen_words (map string_bytes words.now) }
    ensures there { IfSome result (λ c. All (λ file. file.word < 1 + length words.now) (files_of c)) }
    ensures counted { IfSome result HasCount }
{
    match words {
        [kind, seed, events] => Some(Command::Gen {
            kind: gen_kind(kind.as_str())?,
            seed: number(seed.as_str())?,
            count: count(events.as_str())?,
        }),
        _ => None,
    }
}

fn read_bench(words: &[String]) -> Option<Command>
    ensures command { result ≡ bench_words (map string_bytes words.now) }
    ensures there { IfSome result (λ c. All (λ file. file.word < 1 + length words.now) (files_of c)) }
    ensures counted { IfSome result HasCount }
{
    match words {
        [seed, events] => Some(Command::Bench {
            seed: number(seed.as_str())?,
            count: count(events.as_str())?,
        }),
        _ => None,
    }
}

fn gen_kind(word: &str) -> Option<GenKind>
    ensures { result ≡ kind_of word.now }
{
    match word {
        "program" => Some(GenKind::Program),
        "limits" => Some(GenKind::Limits),
        "scene" => Some(GenKind::Scene),
        _ => None,
    }
}

// The `run` command of this mode with a placement.
fn placed_mode(mode: &str) -> Option<Command>
    ensures command { result ≡ placed_mode_of mode.now }
    ensures there { IfSome result (λ c. All (λ file. file.word < 6) (files_of c)) }
    ensures counted { IfSome result HasCount }
{
    match mode {
        "placed" => Some(Command::RunPlaced),
        _ => None,
    }
}

// The `run` command of this mode.
fn run_mode(mode: &str) -> Option<Command>
    ensures command { result ≡ mode_of mode.now }
    ensures there { IfSome result (λ c. All (λ file. file.word < 5) (files_of c)) }
    ensures counted { IfSome result HasCount }
{
    match mode {
        "whole" => Some(Command::RunWhole),
        "pipe" => Some(Command::RunPipe),
        _ => None,
    }
}
