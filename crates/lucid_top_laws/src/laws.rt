// One packet through the stages, end to end. Nothing runs.
ghost use Rattle.std.specs.Prelude.{◌≡◌, ◌<◌, ◌≤◌, ◌^◌, [], All, Ok, length};
ghost use Rattle.lucid_effects_spec.specs.Order.{IsAccepted};
ghost use Rattle.lucid_normal_spec.specs.Stands.{StandsFor};
ghost use Rattle.lucid_core.specs.Parts.{CoreParts};
ghost use Rattle.lucid_lex.specs.Reading.{Reads};
ghost use Rattle.lucid_size.specs.Expansion.{most};
ghost use Rattle.lucid_size.specs.Templates.{templates};
ghost use Rattle.lucid_top_fit.specs.Room.{RefusedForRoom};
ghost use Rattle.lucid_top_laws.specs.GroupTrees.{UndeclaredGroupsAreApart};
ghost use Rattle.lucid_top_laws.specs.Groups.{GroupsAreApart};
ghost use Rattle.lucid_top_laws.specs.Laws.{AnswersAreOne, AnswersAreThere};
ghost use Rattle.lucid_top_laws.specs.Levels.{RoomyCodeIsPlaced};
ghost use Rattle.lucid_top_laws.specs.Matches.{MatchesAreApart};
ghost use Rattle.lucid_top_laws.specs.Moves.{MovesRunWhole};
ghost use Rattle.lucid_top_laws.specs.Packet.{AuditsRunWhole, FitsRunWhole, RunsWhole};
ghost use Rattle.lucid_top_laws.specs.Room.{NodesLackRoom, OursKeepNodes};
ghost use Rattle.lucid_top_laws.specs.Summaries.{BenchSummarizes};
ghost use Rattle.lucid_top_laws.specs.Templates.{IsPlain};

use lucid_audit::audits_are_one;
use lucid_core::{Core, HandlerDef};
use lucid_effects_laws::bodies_are_decided;
use lucid_effects_spec::paths_decide;
use lucid_inline_spec::{flat_is_valid, keeps_order};
use lucid_layout_laws::{layouts_are_one, layouts_are_there, stuck_for_room};
use lucid_lex::Token;
use lucid_merge::{guards_contradict, products_act, products_name};
use lucid_parse_spec::declarations_are_read_as_spelled;
use lucid_pass::lists_keep_the_laws;
use lucid_pass_laws::code_stands;
use lucid_pass_spec::passes_keep_nodes;
use lucid_pipe::moves_are_passes;
use lucid_size::plain_text_stays;
use lucid_tables::Placed;
use lucid_top::commands_lack_room;
use lucid_types_laws::{
    blocks_are_computed, declarations_are_computed, programs_are_decided, typed_programs_are_valid,
};
use lucid_types_spec::the_first_refusal_is_found;

/// A law: if first fit places an accepted program after any passes, one packet through all stages leaves the cells and sends the outs of
/// the handler that runs whole.
pub fn fits_run_whole(core: &Core)
    ensures { IsAccepted core.now → FitsRunWhole core.now }
{
    code_stands(core);
    flat_is_valid(core);
    keeps_order(core);
    lists_keep_the_laws();
    products_act();
    products_name();
    guards_contradict();
    events_have_32_bits(core.handlers());
}

/// A law: the same holds for the places of a file that the audit accepts.
pub fn audits_run_whole(core: &Core)
    ensures { IsAccepted core.now → AuditsRunWhole core.now }
{
    code_stands(core);
    flat_is_valid(core);
    keeps_order(core);
    lists_keep_the_laws();
    products_act();
    products_name();
    guards_contradict();
    events_have_32_bits(core.handlers());
}

/// A law: first fit refuses a node of an accepted program only if no place has room for it, if the passes keep each node after its reads.
/// The four passes of the program do.
pub fn refused_for_room(core: &Core)
    ensures room { IsAccepted core.now → RefusedForRoom core.now }
    ensures ours { OursKeepNodes }
{
    flat_is_valid(core);
    keeps_order(core);
    lists_keep_the_laws();
    passes_keep_nodes();
    stuck_for_room();
    events_have_32_bits(core.handlers());
}

/// A law on the answers of commands: if the program is accepted and the passes keep each node after its reads, a node is refused only if no
/// place has room for it.
pub fn nodes_lack_room()
    ensures { NodesLackRoom }
{
    declarations_are_read_as_spelled();
    the_first_refusal_is_found();
    declarations_are_computed();
    commands_lack_room();
}

/// A law: if the counts of code keep their limits and each node has room in a table of its own at its level, first fit places the code.
pub fn roomy_code_is_placed()
    ensures { RoomyCodeIsPlaced }
{
    layouts_are_there();
}

/// A law: the same holds for all placed code that represents a program, however it was placed.
pub fn placements_run_whole(placed: &Placed)
    ensures { (core : CoreParts) → StandsFor placed.now.code core → RunsWhole placed.now core }
{
    let _code = placed.code();
}

/// A law, serializability: on a pipeline of placed code that represents a program, packets may move in any order. Cells and outs are
/// those of the entered events run whole, one after another, in the order of entry.
pub fn moves_run_whole(placed: &Placed)
    ensures { (core : CoreParts) → StandsFor placed.now.code core → placed.now.code.arrays ≡ core.arrays → MovesRunWhole placed.now core }
{
    placements_run_whole(placed);
    moves_are_passes(placed);
}

/// A law: words, the contents of files and passes have at most one answer, up to the cycle that status 6 names.
pub fn answers_are_one()
    ensures { AnswersAreOne }
{
    declarations_are_read_as_spelled();
    the_first_refusal_is_found();
    declarations_are_computed();
    layouts_are_one();
    audits_are_one();
}

/// A law: words, the contents of files and passes have an answer, if the contents are specified.
pub fn answers_are_there()
    ensures { AnswersAreThere }
{
    declarations_are_read_as_spelled();
    programs_are_decided();
    typed_programs_are_valid();
    bodies_are_decided();
    paths_decide();
    layouts_are_there();
}

/// A law: `bench` is answered with the line that summarizes the log of `run pipe` over the texts that `gen` writes, or with the same
/// refusal.
pub fn bench_summarizes_a_run()
    ensures { BenchSummarizes }
{}

/// A law: if no statement of a program sends to a group, its step is that of the language without groups. It is the same whatever such a
/// send means.
pub fn groups_are_apart()
    ensures { GroupsAreApart }
{}

/// A law: if a tree declares no group, its spelling, its core and the step of its core are those of the language without groups.
pub fn undeclared_groups_are_apart()
    ensures { UndeclaredGroupsAreApart }
{}

/// A law: if no statement of a program is a `match`, its spelling and its typing are those of the language without `match`. Its core, or
/// its first refusal, is the same whatever a `match` means. A core has no `match`.
pub fn matches_are_apart()
    ensures { MatchesAreApart }
{
    blocks_are_computed();
    programs_are_decided();
}

/// A law: a text in which no template begins is read by the language without templates.
pub fn plain_texts_are_read(text: &[u8], tokens: &[Token])
    requires reads { Reads text.now tokens.now }
    requires none { templates tokens.now ≡ Ok [] }
    requires short { length text.now ≤ most }
    ensures { IsPlain text.now }
{
    plain_text_stays(text, tokens);
}

fn events_have_32_bits(handlers: &[HandlerDef])
    ensures { All (λ h. h.event < 2 ^ 32) handlers.now }
{
    for handler in handlers {
        has_32_bits(handler.event);
    }
}

fn has_32_bits(n: u32)
    ensures { n < 2 ^ 32 }
{}
