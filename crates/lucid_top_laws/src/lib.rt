// The theorems above the single crates, each on a function that does nothing:
// - src/texts.rt: packets, from the bytes of the files (specs/Texts.antt, Snapshots.antt), and texts that were worked by hand (TextsWorked.antt);
// - src/laws.rt: serializability (specs/Moves.antt) and one packet through the stages (Packet.antt) for placed code, refusals of first fit
//   (Room.antt), code that it places (Levels.antt), the language without groups, `match` and templates (Groups.antt, GroupTrees.antt,
//   Matches.antt, Templates.antt), and `bench` as a summary of `run pipe` (Summaries.antt);
// - src/worked.rt: further calls that were worked by hand, from the bytes of their files to the written text (specs/Calls.antt).
// docs/THEOREMS.md cites it, so a change of its definitions changes the claims of the project.
// No crate uses it. Proofs may change; a law may only get stronger.
#![tactic(auto)]

mod laws;
mod texts;
mod worked;

pub use laws::{
    answers_are_one, answers_are_there, audits_run_whole, bench_summarizes_a_run, fits_run_whole,
    groups_are_apart, matches_are_apart, moves_run_whole, nodes_lack_room, placements_run_whole,
    plain_texts_are_read, refused_for_room, roomy_code_is_placed, undeclared_groups_are_apart,
};
pub use texts::{
    codes_run_whole, packet_runs_whole, sights_are_shown, steps_are_answered, texts_are_taken,
    texts_run_whole,
};
pub use worked::{
    a_log_is_summarized, a_scene_is_generated, a_template_is_expanded, bench_is_answered,
    generated_texts_are_read, limits_are_generated, once_is_answered, pipelines_are_answered,
    placements_are_answered, run_whole_is_answered, run_with_an_event_is_answered,
    two_packets_are_answered,
};
