// Why there is no output: each cause, and its status.
ghost use Rattle.std.specs.Prelude.{◌≡◌};
ghost use Rattle.lucid_top_words.specs.Files.{of_take};
ghost use Rattle.lucid_top_words.specs.Refusal.{status_of};

use crate::no_fit::NoFit;
use crate::placement::BadPlacement;
use crate::sizes::BadSizes;
use crate::status::Status;
use lucid_base::{Id, Memory as WantOfMemory};
use lucid_conf::Key;
use lucid_io::{Take, WriteFault};
use lucid_types_spec::What;
use std::alloc::AllocError;

/// The reason for missing or partial output, with the content of its line.
#[derive(Drop)]
pub enum Refusal {
    /// The words are none of the forms, or the event's name and arguments fit no event.
    Usage,
    /// A call on the file that the word of this number names failed.
    ReadFault(usize),
    /// The file that the word of this number names has more bytes than its limit.
    TooLong(usize),
    /// No token begins at this byte of the text, from 0.
    NoToken(usize),
    /// The functions over a width can't be expanded.
    Sizes(BadSizes),
    /// A count of nesting passes its limit at this token, from 1.
    TooDeep(usize),
    /// The declaration that begins at this token, from 1, is the first that has no tree.
    NoTree(usize),
    /// This declaration, from 1, which begins on this line, is the first that is refused, and no typing rule gives it anything.
    NoRule {
        decl: u32,
        line: u32,
    },
    /// This declaration is the first that is refused, and passes a limit.
    PassesLimit {
        /// The limit that it passes first.
        what: What,
        decl: u32,
        line: u32,
    },
    /// A declaration doesn't touch arrays in order.
    NoOrder {
        /// Its number among all declarations, from 1: the first that isn't in order.
        decl: u32,
        /// The line on which it begins, from 1.
        line: u32,
        /// The names of a cycle, each of which is needed before the next and the last before the first.
        cycle: Vec<Id>,
    },
    /// The limits file is no JSON.
    LimitsNotJson,
    /// This key of the limits file is the first that fails.
    LimitsKey(Key),
    /// The program doesn't fit the pipeline.
    NoFit(NoFit),
    /// The scenario is no JSON.
    SceneNotJson,
    /// A key of the scenario fails.
    SceneKey {
        /// The first that fails.
        key: Key,
        /// Where it is a list with a bad item, the number of the first such item, from 0.
        place: Option<u32>,
    },
    /// The placement is refused.
    Placement(BadPlacement),
    /// A write of the output failed.
    WriteFault,
    /// Memory ran out.
    Memory,
}

impl From<AllocError> for Refusal {
    ghost use Rattle.std.specs.Prelude.{◌≡◌};
    ghost use Rattle.lucid_top_words.specs.declared.refusal.Refusal.TheVariants as refusal;

    ghost from_gives = { λ _ r. r ≡ refusal.Memory };

    fn from(_error: AllocError) -> Refusal {
        Refusal::Memory
    }
}

impl From<WantOfMemory> for Refusal {
    ghost use Rattle.std.specs.Prelude.{◌≡◌};
    ghost use Rattle.lucid_top_words.specs.declared.refusal.Refusal.TheVariants as refusal;

    ghost from_gives = { λ _ r. r ≡ refusal.Memory };

    fn from(_error: WantOfMemory) -> Refusal {
        Refusal::Memory
    }
}

impl From<WriteFault> for Refusal {
    ghost use Rattle.std.specs.Prelude.{◌≡◌};
    ghost use Rattle.lucid_top_words.specs.declared.refusal.Refusal.TheVariants as refusal;

    ghost from_gives = { λ _ r. r ≡ refusal.WriteFault };

    fn from(_error: WriteFault) -> Refusal {
        Refusal::WriteFault
    }
}

impl Refusal {
    /// Why the file that the word of this number names was not taken.
    pub fn of_take(word: usize, take: Take) -> Refusal
        ensures { result ≡ of_take word take }
    {
        match take {
            Take::ReadFault => Refusal::ReadFault(word),
            Take::TooLong => Refusal::TooLong(word),
            Take::Memory => Refusal::Memory,
        }
    }

    /// Returns the status of a call that ends by it (`status_of`).
    pub fn status(&self) -> Status
        ensures { result ≡ status_of self.now }
    {
        match self {
            Refusal::Usage => Status::Usage,
            Refusal::ReadFault(_) => Status::ReadFault,
            Refusal::TooLong(_) => Status::TooLong,
            Refusal::Sizes(_) => Status::BadSizes,
            Refusal::NoToken(_) | Refusal::TooDeep(_) | Refusal::NoTree(_) => Status::Syntax,
            Refusal::NoRule { .. } | Refusal::PassesLimit { .. } => Status::Types,
            Refusal::NoOrder { .. } => Status::Order,
            Refusal::LimitsNotJson | Refusal::LimitsKey(_) => Status::BadLimits,
            Refusal::NoFit(_) => Status::NoFit,
            Refusal::SceneNotJson | Refusal::SceneKey { .. } => Status::BadScene,
            Refusal::Placement(_) => Status::BadPlacement,
            Refusal::WriteFault => Status::WriteFault,
            Refusal::Memory => Status::Memory,
        }
    }
}
