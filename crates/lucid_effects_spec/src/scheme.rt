// The constraints of a body on the order of arrays.
use lucid_base::Items;
use lucid_constraints::{Atom, Order};

/// The pairs that must hold for the body to have a derivation, and the places where it then ends: the greatest of them counts.
#[derive(Drop)]
pub struct Scheme {
    pub needs: Order,
    pub ends: Items<Atom>,
}
