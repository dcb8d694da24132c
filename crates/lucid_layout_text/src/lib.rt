// The lines of a layout: the numbers of operations, bits and nodes of a placed code, and a line for each table of its stages. That line has
// the rows, the operations that they name and the arrays that these call.
// Promises: `LayoutText` counts the parts, and then writes the lines without allocating. It writes all of the text (`layout_text` of
// specs/Text), or a proper prefix of it if the sink's count of faults rose in that call.
// Used by lucid_top. Promises of the program rest on its definitions (docs/TRUSTED.md). Bodies and proofs may change; a public clause may
// only get stronger.
#![tactic(auto)]

mod examples;
mod layout_text;
mod listing;
mod put;
mod table_line;

pub use layout_text::LayoutText;
