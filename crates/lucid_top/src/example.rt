// A call that was worked by hand.
ghost use Rattle.std.specs.Prelude.{[], ◌∷◌, Some, Ok, codes};
ghost use Rattle.lucid_top.specs.Answer.{Answers, Question};

use crate::law;

/// There are answers: `check` of a file that is empty is answered with a line of zeros.
pub fn answers_are_there()
    ensures { let q : Question = record { words = codes "check" ∷ codes "p" ∷ []; held = λ name. Some []; passes = [] } in
        Answers q (Ok (codes "ok arrays 0 memops 0 events 0 handlers 0 functions 0\n")) }
{
    law::plain_text_stays(b"", &[]);
}
