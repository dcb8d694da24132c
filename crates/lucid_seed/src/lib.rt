// Hashers for tables whose keys an attacker may pick. Each table is seeded by the very text or numbers that its keys come from, so
// colliding names can't be searched for beforehand: a changed name changes the seed. The clauses define the hasher of a seed; that
// collisions are hard to find rests on SipHash, and is not proved.
// Used by lucid_size, lucid_types_scope, lucid_types_declarations, lucid_types, lucid_conf and lucid_top_program. Bodies and proofs may
// change; a public clause may only get stronger.
#![tactic(auto)]

mod seed;

pub use seed::{Seed, Seeded};
