// The order of arrays: the arrays that a body calls, their order, and when a program is accepted; and schemes, which decide it in one walk.
// Laws of the order (specs/Laws.antt): in an accepted program every event calls each array at most once, in declared order. A body is in
// order exactly if the numbering rises along each of its paths. Laws of schemes (specs/SchemeLaws.antt): the scheme that one walk finds is
// principal, shows by its cycles whether the body is in order, and takes a bounded number of steps. It has no code but the type `Scheme`.
// lucid_effects computes these definitions; the inlining and normal form crates cite the laws.
// Used by many crates. Promises of the program rest on its definitions (docs/TRUSTED.md). Proofs may change; a law may only get stronger.
#![tactic(auto)]

mod examples;
mod laws;
mod scheme;
mod scheme_examples;
mod scheme_laws;

pub use laws::{
    ends_turn_on_declared, flat_own_numbers_decide, own_numbers_decide, paths_decide,
    touches_follow_paths, touches_rise,
};
pub use scheme::Scheme;
pub use scheme_laws::{cycles_tell, schemes_are_principal, walks_are_short};
