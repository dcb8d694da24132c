// How many values a text of a print takes.
ghost use Rattle.std.specs.Prelude.{◌≡◌};
ghost use Rattle.lucid_core.specs.Texts.{holes_of};
ghost use Rattle.lucid_types_statements.specs.Bodies.{is_hole};

/// The number of `%d` in a text.
#[tactic(auto, using(crate::proofs::Holes::holes_at, crate::proofs::Holes::no_holes, std::proofs::lemmas::Grind::common_steps))]
pub fn holes(text: &[u8]) -> usize
    ensures { result ≡ holes_of text.now }
{
    let mut count = 0usize;
    let mut at = 0usize;
    'text: while at + 1 < text.len() {
        if is_hole(text[at], text[at + 1]) {
            count += 1;
            at += 2;
        } else {
            at += 1;
        }
    }
    count
}

fn is_hole(first: u8, second: u8) -> bool
    ensures { result ≡ is_hole first second }
{
    first == b'%' && second == b'd'
}
