// Calls that were worked by hand. Nothing runs.
ghost use Rattle.std.specs.Prelude.{◌≡◌, [], ◌∷◌, Ok, codes};
ghost use Rattle.lucid_log_tally.specs.Bench.{bench_line};
ghost use Rattle.lucid_top.specs.Answer.{Answers};
ghost use Rattle.lucid_top_laws.specs.Calls.{expand, once, over_an_event, run_pipe, run_whole};
ghost use Rattle.lucid_top_laws.specs.Summaries.{AreRead};

use crate::roomy_code_is_placed;
use lucid_base::Span;
use lucid_lex::{Kind, Sign, Token, Word};
use lucid_parse_spec::declarations_are_read_as_spelled;
use lucid_size::plain_text_stays;

/// The tokens of `event e();`.
const TOKENS: [Token; 5] = [
    Token {
        kind: Kind::Word(Word::Event),
        span: Span { start: 0, end: 5 },
    },
    Token {
        kind: Kind::Name,
        span: Span { start: 6, end: 7 },
    },
    Token {
        kind: Kind::Sign(Sign::OpenParen),
        span: Span { start: 7, end: 8 },
    },
    Token {
        kind: Kind::Sign(Sign::CloseParen),
        span: Span { start: 8, end: 9 },
    },
    Token {
        kind: Kind::Sign(Sign::Semicolon),
        span: Span { start: 9, end: 10 },
    },
];

/// `once` of the program `event e();` and its event is answered with the block of this event, which has no handler and so sends nothing.
pub fn once_is_answered()
    ensures { Answers (once (codes "event e();") (codes "e")) (Ok (codes "[0] s0 e()\n")) }
{
    plain_text_stays(b"event e();", &TOKENS);
}

/// `run whole` of an empty program, in a scenario of one tick, is answered with a line of zeros.
pub fn run_whole_is_answered()
    ensures { Answers (run_whole [] (codes "{}") (codes "{\"stop\":1}")) (Ok (codes "entered 0 lost 0 pending 0\n")) }
{
    plain_text_stays(b"", &[]);
}

/// `run whole` of the program `event e();`, in a scenario in which its event comes once, is answered with the block of this event and the
/// line that counts it.
pub fn run_with_an_event_is_answered()
    ensures { Answers (run_whole (codes "event e();") (codes "{}")
        (codes "{\"stop\":1,\"events\":[{\"at\":0,\"switch\":0,\"name\":\"e\",\"args\":[]}]}"))
        (Ok (codes "[0] s0 e()\nentered 1 lost 0 pending 0\n")) }
{
    plain_text_stays(b"event e();", &TOKENS);
}

/// The commands over pipelines are answered for the program `event e();`, which has no node to place, and a scenario in which its event comes
/// once.
pub fn pipelines_are_answered()
    ensures pipe { Answers (over_an_event (codes "run" ∷ codes "pipe" ∷ codes "p" ∷ codes "l" ∷ codes "t" ∷ []))
        (Ok (codes "[0] s0 e()\nentered 1 lost 0 pending 0\n")) }
    ensures layout { Answers (over_an_event (codes "layout" ∷ codes "p" ∷ codes "l" ∷ [])) (Ok (codes "ops 0 bits 96 nodes 0\n")) }
    ensures drive { Answers (over_an_event (codes "drive" ∷ codes "p" ∷ codes "l" ∷ codes "t" ∷ [])) (Ok (codes "entered 0 left 1\n")) }
    ensures snap { Answers (over_an_event (codes "snap" ∷ codes "p" ∷ codes "l" ∷ codes "t" ∷ codes "0" ∷ []))
        (Ok (codes "entered 0 left 1\nsnap after 0\n")) }
    ensures expand { Answers (over_an_event (codes "expand" ∷ codes "p" ∷ [])) (Ok (codes "event e();")) }
{
    plain_text_stays(b"event e();", &TOKENS);
}

/// So are the commands over a placement file, which gives no place, since the program has no node.
pub fn placements_are_answered()
    ensures audit { Answers (over_an_event (codes "audit" ∷ codes "p" ∷ codes "l" ∷ codes "q" ∷ [])) (Ok (codes "ops 0 bits 96 nodes 0\n")) }
    ensures placed { Answers (over_an_event (codes "run" ∷ codes "placed" ∷ codes "p" ∷ codes "l" ∷ codes "t" ∷ codes "q" ∷ []))
        (Ok (codes "[0] s0 e()\nentered 1 lost 0 pending 0\n")) }
{
    plain_text_stays(b"event e();", &TOKENS);
}

/// `run pipe` of a program whose handler adds its argument to the cell of an array, in a scenario that stops with two packets in flight, is
/// answered with the blocks of both events, the cell, which has both arguments, and the line that counts the events.
pub fn two_packets_are_answered()
    ensures { Answers (run_pipe
        (codes "global Array.t<<32>>x=Array.create(1);memop m(int a,int b){return a+b;}event e(int v);handle e(int v){Array.setm(x,0,m,v);}")
        (codes "{}")
        (codes "{\"stop\":2,\"events\":[{\"at\":0,\"switch\":0,\"name\":\"e\",\"args\":[5]},{\"at\":1,\"switch\":0,\"name\":\"e\",\"args\":[7]}]}"))
        (Ok (codes "[0] s0 e(5)\n[1] s0 e(7)\ns0 x[0] = 12\nentered 2 lost 0 pending 0\n")) }
{}

/// The line of `bench` for the log of that run, as the log of 2 generated events of seed 1: its last line, its length and its hash.
pub fn a_log_is_summarized()
    ensures { bench_line 1 2 (codes "[0] s0 e(5)\n[1] s0 e(7)\ns0 x[0] = 12\nentered 2 lost 0 pending 0\n")
        ≡ codes "bench seed 1 n 2 entered 2 lost 0 pending 0 bytes 64 fnv bb5a74d07d6c8b7d\n" }
{}

/// `expand` of a text with a template, which is used at width 8, is answered with the text of its instance.
pub fn a_template_is_expanded()
    ensures { Answers (expand (codes "fun <<w>> f(){}f<<8>>()")) (Ok (codes "fun  f_8(){}f_8()")) }
{}

/// `gen limits 1 1` is answered with the limits of a large target.
pub fn limits_are_generated()
    ensures { Answers (over_an_event (codes "gen" ∷ codes "limits" ∷ codes "1" ∷ codes "1" ∷ []))
        (Ok (codes "{\"stages\":32,\"tables\":64,\"rows\":1024,\"bits\":65536}\n")) }
{}

/// `gen scene 1 1` is answered with a scenario of two linked pairs of switches and one event.
pub fn a_scene_is_generated()
    ensures { Answers (over_an_event (codes "gen" ∷ codes "scene" ∷ codes "1" ∷ codes "1" ∷ []))
        (Ok (codes "{\"switches\":4,\"stop\":1000,\"links\":[[0,1,1],[2,3,2]],\"events\":[{\"at\":74,\"switch\":1,\"name\":\"e4\",\"args\":[870,34]}]}\n")) }
{}

/// The texts of `bench 69426392 1` are read: a program text of 1,035 tokens, with its tree, its core and the order of its arrays, the
/// limits, and a scenario of one event.
pub fn generated_texts_are_read()
    ensures { AreRead 69426392 1 }
{
    declarations_are_read_as_spelled();
}

/// `bench 69426392 1` is answered: first fit places the 88 nodes of that program, its network runs nine events, one is pending at the end,
/// and the line summarizes the log.
pub fn bench_is_answered()
    ensures { Answers (over_an_event (codes "bench" ∷ codes "69426392" ∷ codes "1" ∷ []))
        (Ok (codes "bench seed 69426392 n 1 entered 9 lost 0 pending 1 bytes 599 fnv c51af7c75b63ebe7\n")) }
{
    declarations_are_read_as_spelled();
    roomy_code_is_placed();
}
