// A stack in memory that grows with it. The item pushed last is popped first.
ghost use Rattle.std.specs.Prelude.{◌≡◌, [], ◌∷◌, IfOk, MatchOption, OnOk, drop, reverse, take};

use lucid_base::Memory;
use std::alloc::Global;
use std::marker::Model;

/// Contracts see the items in the order in which they are popped.
#[derive(Drop)]
pub struct Stack<T> {
    items: Vec<T>,
}

impl<T> Model for Stack<T> {
    ghost use Rattle.std.specs.Coded.{coded_list};
    ghost use Rattle.std.specs.Prelude.{List, reverse};

    ghost Value = { List T };

    ghost coded = { coded_list T.code };

    ghost view = { λ s. reverse s.items.items };
}

impl<T: Drop> Stack<T> {
    pub fn new(alloc: Global) -> Stack<T>
        ensures { result ≡ [] }
    {
        Stack {
            items: Vec::new(alloc),
        }
    }

    #[tactic(auto, using(crate::proofs::StackLemmas::reverse_push))]
    pub fn push(&mut self, item: T) -> Result<(), Memory>
        ensures { OnOk result (self.new ≡ item ∷ self.old) }
    {
        match self.items.push(item) {
            Ok(()) => Ok(()),
            Err(failed) => {
                drop(failed);
                Err(Memory)
            }
        }
    }

    #[tactic(auto, using(crate::proofs::StackLemmas::reverse_push))]
    pub fn pop(&mut self) -> Option<T>
        ensures { MatchOption result ((self.old ≡ []) × (self.new ≡ [])) (λ item. self.old ≡ item ∷ self.new) }
    {
        match self.items.pop() {
            None => None,
            Some(item) => Some(item),
        }
    }

    /// Removes the last `n` items, and returns them in the order in which they were pushed.
    #[tactic(auto, using(crate::proofs::StackLemmas::last_of, crate::proofs::StackLemmas::rest_of))]
    pub fn take(&mut self, n: usize) -> Result<Vec<T>, Memory>
        ensures taken { IfOk result (λ items. items.items ≡ reverse (take n self.old)) }
        ensures rest { OnOk result (self.new ≡ drop n self.old) }
    {
        let len = self.items.len();
        if n > len {
            return Err(Memory);
        }
        Ok(self.items.split_off(len - n)?)
    }
}
