// `run whole P L T`: a network over time, whose switches run each event whole. The log is written block by block.
ghost use Rattle.std.specs.Prelude.{◌≡◌, ◌<◌, IfOk, length};
ghost use Rattle.lucid_net.specs.Writes.{Writes};
ghost use Rattle.lucid_net_spec.specs.Log.{log, whole};
ghost use Rattle.lucid_top_words.specs.Files.{texts_in};
ghost use Rattle.lucid_top_words.specs.Outcome.{Prepares};
ghost use Rattle.lucid_top_words.specs.Words.{word_at};
ghost use Rattle.lucid_top_words.specs.Writing.{Performs, anywhere};
ghost use Rattle.lucid_top.specs.Held.{NetworkKeeps};
ghost use Rattle.lucid_top.specs.RunWhole.{RunWholeAnswers};

use crate::commands::setup::{Network, Target};
use crate::commands::text_at;
use lucid_io::Sink;
use lucid_net::{Net, NetError};
use lucid_pipe::NoWatch;
use lucid_top_pipes::of_net;
use lucid_top_program::scenario;
use lucid_top_words::Refusal;
use std::alloc::Global;

/// Writes the log of the network that the third text sets up for the program of the first, under the limits of the second.
pub fn run_whole<W: Sink>(alloc: Global, texts: &[Vec<u8>], out: &mut W) -> Result<(), Refusal>
    requires { length texts.now ≡ 3 }
    ensures { let text = word_at (texts_in texts.now) in
        Performs anywhere (RunWholeAnswers (text 0) (text 1) (text 2)) W.written W.faults out.old out.new result }
{
    let network = prepare(alloc, texts)?;
    let ended = put(alloc, out, &network);
    drop(network);
    match ended {
        Ok(()) => Ok(()),
        Err(error) => Err(of_net(error)),
    }
}

// The network that the texts set up.
fn prepare(alloc: Global, texts: &[Vec<u8>]) -> Result<Network, Refusal>
    requires { 2 < length texts.now }
    ensures log { let text = word_at (texts_in texts.now) in
        Prepares (RunWholeAnswers (text 0) (text 1) (text 2)) (λ n. log (whole n.target.core n.scene n.target.limits)) result }
    ensures keeps { IfOk result NetworkKeeps }
{
    let target = Target::read(alloc, texts)?;
    match scenario(alloc, text_at(texts, 2), &target.core) {
        Ok(scene) => Ok(Network { target, scene }),
        Err(refusal) => {
            drop(target);
            Err(refusal)
        }
    }
}

// Writes the log, block by block.
fn put<W: Sink>(alloc: Global, out: &mut W, network: &Network) -> Result<(), NetError>
    requires { NetworkKeeps network.now }
    ensures { let text = log (whole network.now.target.core network.now.scene network.now.target.limits) in
        Writes W.written W.faults out.old out.new text result }
{
    let net = Net::whole(
        alloc,
        &network.target.core,
        &network.scene,
        &network.target.limits,
    )?;
    net.run(out, &mut NoWatch)
}
