// A program under the limits of a target, from the texts of their files.
ghost use Rattle.std.specs.Prelude.{◌<◌, IfOk, length};
ghost use Rattle.lucid_top_words.specs.Files.{texts_in};
ghost use Rattle.lucid_top_words.specs.Outcome.{Prepares};
ghost use Rattle.lucid_top_words.specs.Words.{word_at};
ghost use Rattle.lucid_top.specs.Held.{TargetKeeps, target_view};
ghost use Rattle.lucid_top.specs.Pipes.{IsTarget};

use crate::commands::setup::Target;
use crate::commands::text_at;
use lucid_top_program::{accepted, limits};
use lucid_top_words::Refusal;
use std::alloc::Global;

impl Target {
    /// Returns the program of the first text under the limits of the second.
    pub fn read(alloc: Global, texts: &[Vec<u8>]) -> Result<Target, Refusal>
        requires { 1 < length texts.now }
        ensures target { let text = word_at (texts_in texts.now) in
            Prepares (IsTarget (text 0) (text 1)) target_view result }
        ensures keeps { IfOk result TargetKeeps }
    {
        let core = accepted(alloc, text_at(texts, 0))?;
        match limits(alloc, text_at(texts, 1)) {
            Ok(limits) => Ok(Target { core, limits }),
            Err(refusal) => {
                drop(core);
                Err(refusal)
            }
        }
    }
}
