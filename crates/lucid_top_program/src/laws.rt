// A law of texts, on a function that does nothing.
ghost use Rattle.lucid_top_program.specs.Safe.{TextsAreSafe};

use lucid_parse_spec::declarations_are_read_as_spelled;
use lucid_types_laws::typed_programs_are_valid;

/// The program of a text is valid and accepted, its events have 32 bits, and every event of it calls arrays in their declared order, each
/// at most once.
pub fn touches_rise_in_texts()
    ensures { TextsAreSafe }
{
    declarations_are_read_as_spelled();
    typed_programs_are_valid();
}
