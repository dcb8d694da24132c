// Pairs without repeats.
ghost use Rattle.std.specs.Prelude.{◌≡◌, ◌≢◌, ◌+◌, ◌++◌, ◌∷◌, false, true, [], OnErr, OnOk, AllPairs, map};
ghost use Rattle.std.specs.List.{list_any};
ghost use Rattle.lucid_constraints.specs.Marks.{pair_number as pair_number_of};
ghost use Rattle.lucid_constraints.specs.Same.{same_pair as are_same_pairs, joined, join_all};
ghost use Rattle.lucid_constraints.specs.Substitution.{pair as pair_before, pairs_at, needs_from};

use crate::cover::{param_places, rows_held, start_held};
use crate::ends::name_at;
use crate::marks::{PLACES, mark, marked, pair_number, tabulate};
use crate::pair::{Atom, Pair};
use lucid_base::{ArrayName, Items, Memory, Steps};
use std::alloc::Global;
use std::marker::Model;
use std::sync::ledger::Ledger;

/// Pairs without repeats, in the order in which they came. Contracts see their list.
#[derive(Drop)]
pub struct Order {
    pairs: Items<Pair>,
    /// The table of these pairs, once they are many.
    marks: Vec<bool>,
    /// Whether each of them has a place in such a table.
    numbered: bool,
}

impl Model for Order {
    ghost use Rattle.std.specs.Prelude.{List, ◌≡◌, ◌≢◌, AllPairs, true};
    ghost use Rattle.lucid_constraints.specs.declared.pair.Pair.{Pair};
    ghost use Rattle.lucid_constraints.specs.Marks.{AreNumbered, Marked};

    ghost Value = { List Pair };

    ghost view = { λ o. o.pairs };

    ghost invariant = { λ o. AllPairs (λ p q. p ≢ q) o.pairs × Marked o.marks.items o.pairs × (o.numbered ≡ true → AreNumbered o.pairs) };
}

// Cold: once there is a table the loops over many pairs pass it by.
#[cold]
fn has(pairs: &[Pair], pair: Pair) -> bool
    ensures { result ≡ list_any (are_same_pairs pair) pairs.now }
{
    for other in pairs {
        if pair == *other {
            return true;
        }
    }
    false
}

impl Order {
    /// Returns an empty list of pairs. It takes no memory.
    pub fn new(alloc: Global) -> Order
        ensures { result ≡ [] }
    {
        Order {
            pairs: Items::new(alloc),
            marks: Vec::new(alloc),
            numbered: true,
        }
    }

    /// Returns the pairs, from the first to the last.
    pub fn pairs(&self) -> &[Pair]
        ensures value { result.now ≡ self.now }
        ensures distinct { AllPairs (λ p q. p ≢ q) result.now }
    {
        self.pairs.as_slice()
    }

    /// Where the order has its memory from.
    pub(crate) fn alloc(&self) -> Global {
        *self.marks.allocator()
    }

    fn has(&self, number: Option<usize>, pair: Pair) -> bool
        requires { number ≡ pair_number_of pair }
        ensures { result ≡ list_any (are_same_pairs pair) self.now }
    {
        match marked(&self.marks, number) {
            Some(there) => there,
            None => has(self.pairs.as_slice(), pair),
        }
    }

    /// Adds a pair that isn't there.
    fn push(&mut self, number: Option<usize>, pair: Pair) -> Result<(), Memory>
        requires number { number ≡ pair_number_of pair }
        requires isnt { list_any (are_same_pairs pair) self.old ≡ false }
        ensures pairs { OnOk result (self.new ≡ self.old ++ pair ∷ []) }
        ensures unchanged { OnErr result (self.new ≡ self.old) }
    {
        self.pairs.push(pair)?;
        mark(&mut self.marks, number);
        self.numbered = self.numbered && number.is_some();
        Ok(())
    }

    /// Adds the pair unless it is there. Memory for the table is asked for first, so that a refusal leaves the pairs alone.
    #[inline(always)]
    fn join(&mut self, pair: Pair) -> Result<(), Memory>
        ensures pairs { OnOk result (self.new ≡ joined are_same_pairs self.old pair) }
        ensures unchanged { OnErr result (self.new ≡ self.old) }
    {
        let number = pair_number(pair);
        if self.has(number, pair) {
            return Ok(());
        }
        tabulate(&mut self.marks, self.pairs.as_slice())?;
        self.push(number, pair)
    }

    /// Adds the pair unless it is there, in one step. The work is in proportion to the pairs. Where memory is refused no pair is added.
    #[inline(always)]
    pub fn add<L: Ledger>(&mut self, pair: Pair, steps: &mut Steps<L>) -> Result<(), Memory>
        ensures pairs { OnOk result (self.new ≡ joined are_same_pairs self.old pair) }
        ensures unchanged { OnErr result (self.new ≡ self.old) }
        ensures steps { steps.new ≡ steps.old + 1 }
    {
        steps.tick();
        self.join(pair)
    }

    /// Adds that each of the places comes before the array.
    fn join_before(&mut self, start: &[Atom], array: ArrayName) -> Result<(), Memory>
        ensures { OnOk result (self.new ≡ join_all are_same_pairs self.old (map (pair_before array) start.now)) }
    {
        for atom in start {
            self.join(Pair { atom: *atom, array })?;
        }
        Ok(())
    }

    /// Adds the caller's form of a function's pair.
    fn join_at(&mut self, names: &[ArrayName], start: &[Atom], pair: Pair) -> Result<(), Memory>
        ensures { OnOk result (self.new ≡ join_all are_same_pairs self.old (pairs_at names.now start.now pair)) }
    {
        let array = name_at(names, pair.array);
        match pair.atom {
            Atom::Start => self.join_before(start, array),
            Atom::After(x) => self.join(Pair {
                atom: Atom::After(name_at(names, x)),
                array,
            }),
        }
    }

    /// Returns whether the tables show that all is asked that a function asks.
    fn covers(&self, of: &Order, names: &[ArrayName], start: &[Atom]) -> bool
        ensures { result ≡ true → needs_from names.now start.now self.now of.now ≡ self.now }
    {
        if self.marks.len() != PLACES || of.marks.len() != PLACES || !of.numbered {
            return false;
        }
        match param_places(names) {
            None => false,
            Some(places) => {
                rows_held(&places, &of.marks, &self.marks)
                    && start_held(&places, &of.marks, &self.marks, start)
            }
        }
    }

    /// Adds the caller's forms of a function's pairs.
    fn join_each(
        &mut self,
        pairs: &[Pair],
        names: &[ArrayName],
        start: &[Atom],
    ) -> Result<(), Memory>
        ensures { OnOk result (self.new ≡ needs_from names.now start.now self.old pairs.now) }
    {
        for pair in pairs {
            self.join_at(names, start, *pair)?;
        }
        Ok(())
    }

    /// Adds the pairs of a function as a caller sees them who gives it the arrays `names` and calls it at the places `start`.
    /// Where nothing is new the work is in proportion to the places; else to the function's pairs, and those with the start times the places.
    #[tactic(auto, using(crate::proofs::Joining::needs_joined))]
    pub fn take_in(&mut self, of: &Order, names: &[ArrayName], start: &[Atom]) -> Result<(), Memory>
        ensures { OnOk result (self.new ≡ join_all are_same_pairs self.old (needs_from names.now start.now [] of.now)) }
    {
        if self.covers(of, names, start) {
            return Ok(());
        }
        self.join_each(of.pairs(), names, start)
    }
}
