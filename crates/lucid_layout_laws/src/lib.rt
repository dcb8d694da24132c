// Laws of first fit. Code has a layout within its limits or a cause of refusal, and only one. If nodes follow their reads, a node has no
// place only because a limit leaves no room for it. The places of a first fit keep the rules of an audit. The laws are on functions that
// do nothing. Products on the way to a table have no more rows than the table. Read specs/Laws.
// Used by lucid_top_fit and lucid_top_laws. Proofs may change; a law may only get stronger.
#![tactic(auto)]

mod laws;

pub use laws::{
    first_fits_are_accepted, layouts_are_one, layouts_are_there, products_on_the_way_fit,
    stuck_for_room,
};
