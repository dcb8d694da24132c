// The laws of packets from the bytes of files on. Nothing runs.
ghost use Rattle.lucid_top_laws.specs.Texts.{CodesRunWhole, PacketRunsWhole, PlacedCodesRunWhole, PlacedPacketRunsWhole, PlacedTextsRunWhole, TextsRunWhole};
ghost use Rattle.std.specs.Prelude.{[], ◌∷◌, Ok, Err, codes};
ghost use Rattle.lucid_top_laws.specs.TextsWorked.{AreSeen, AreTaken, OursAnswer};

use lucid_merge::{guards_contradict, products_act, products_name};
use lucid_parse_spec::declarations_are_read_as_spelled;
use lucid_pass::lists_keep_the_laws;
use lucid_top_program::touches_rise_in_texts;
use lucid_top_words::{NoFit, Refusal};

/// A law, from the bytes of the files: if the rules accept a program and limits, and the passes meet their law, packets on the pipeline have
/// the effects of the handlers run whole. It is of one packet, of packets that move in any order, and of snapshots that are taken while they
/// move. The places are those of first fit, or those of a file that the audit accepts.
pub fn codes_run_whole()
    ensures fit { CodesRunWhole }
    ensures placed { PlacedCodesRunWhole }
{
    touches_rise_in_texts();
    lists_keep_the_laws();
    products_act();
    products_name();
    guards_contradict();
}

/// The part of this law that is of one packet through all stages.
pub fn packet_runs_whole()
    ensures fit { PacketRunsWhole }
    ensures placed { PlacedPacketRunsWhole }
{
    codes_run_whole();
}

/// The same law by the premises of the headline.
pub fn texts_run_whole()
    ensures fit { TextsRunWhole }
    ensures placed { PlacedTextsRunWhole }
{
    touches_rise_in_texts();
    lists_keep_the_laws();
    products_act();
    products_name();
    guards_contradict();
}

/// The premises of these laws hold for texts that were worked by hand: each of the four passes changes the code, which has two nodes, in
/// places that are not those of first fit. A snapshot begins while a packet is in flight.
pub fn texts_are_taken()
    ensures { AreTaken }
{
    declarations_are_read_as_spelled();
}

/// The answers of calls over these texts with the four passes. In `run pipe` an event is lost in the window of a link, and another arrives.
/// The snapshot begins while a packet is in flight, and a narrow target has no place for the second node.
pub fn steps_are_answered()
    ensures pipe { OursAnswer (codes "run" ∷ codes "pipe" ∷ codes "p" ∷ codes "l" ∷ codes "t" ∷ [])
        (Ok (codes "[0] s0 e(5)\n  generate f() delay 0 to 1 lost\n[1] s0 e(5)\n  generate f() delay 0 to 1\n[2] s0 e(7)\n[4] s1 f()\ns0 x[0] = 17\nentered 4 lost 1 pending 0\n")) }
    ensures drive { OursAnswer (codes "drive" ∷ codes "p" ∷ codes "l" ∷ codes "t" ∷ [])
        (Ok (codes "enter 0\ngo 0\nenter 1\ngo 1\n[0] s0 e(5)\n  generate f() delay 0 to 1\ngo 0\n[1] s0 e(5)\n  generate f() delay 0 to 1\ns0 x[0] = 10\nentered 2 left 1\n")) }
    ensures snap { OursAnswer (codes "snap" ∷ codes "p" ∷ codes "l" ∷ codes "t" ∷ codes "1" ∷ [])
        (Ok (codes "enter 0\ngo 0\nenter 1\ngo 1\n[0] s0 e(5)\n  generate f() delay 0 to 1\ngo 0\n[1] s0 e(5)\n  generate f() delay 0 to 1\ns0 x[0] = 10\nentered 2 left 1\nsnap after 1\ns0 x[0] = 5\n")) }
    ensures layout { OursAnswer (codes "layout" ∷ codes "p" ∷ codes "l" ∷ [])
        (Ok (codes "pass fold removed 0\npass copies removed 0\npass dead removed 2\npass direct removed 1\nops 2 bits 128 nodes 2\nstage 0 table 0 rows 2 ops 2 arrays x\n")) }
    ensures audit { OursAnswer (codes "audit" ∷ codes "p" ∷ codes "l" ∷ codes "q" ∷ [])
        (Ok (codes "pass fold removed 0\npass copies removed 0\npass dead removed 2\npass direct removed 1\nops 2 bits 128 nodes 2\nstage 0 table 0 rows 1 ops 1\nstage 1 table 0 rows 1 ops 1 arrays x\n")) }
    ensures placed { OursAnswer (codes "run" ∷ codes "placed" ∷ codes "p" ∷ codes "l" ∷ codes "t" ∷ codes "q" ∷ [])
        (Ok (codes "[0] s0 e(5)\n  generate f() delay 0 to 1 lost\n[1] s0 e(5)\n  generate f() delay 0 to 1\n[2] s0 e(7)\n[4] s1 f()\ns0 x[0] = 17\nentered 4 lost 1 pending 0\n")) }
    ensures refused { OursAnswer (codes "layout" ∷ codes "p" ∷ codes "n" ∷ []) (Err (Refusal.NoFit (NoFit.Node 1))) }
{
    declarations_are_read_as_spelled();
}

/// The sights of a watch over these texts: after each tick of `run pipe` and of `run placed` the pipelines of both switches, and after each
/// step of `drive` its pipeline.
pub fn sights_are_shown()
    ensures { AreSeen }
{
    declarations_are_read_as_spelled();
}
