// Cycles of names.
ghost use Rattle.std.specs.Prelude.{◌≡◌, ◌<◌, IfOk, length};
ghost use Rattle.lucid_constraints.specs.Circle.{comes_first as is_first, IsEarliest, Turned};
ghost use Rattle.lucid_constraints.specs.Cycle.{FindsCycle, Needed};

use crate::names::gather;
use crate::numbers::settle;
use crate::order::Order;
use crate::search::circle;
use lucid_base::{ArrayName, Memory};

/// Declared arrays by their numbers, array parameters after them.
fn comes_first(x: ArrayName, y: ArrayName) -> bool
    ensures { result ≡ is_first x y }
{
    match x {
        ArrayName::Global(a) => match y {
            ArrayName::Global(b) => a < b,
            ArrayName::Param(_) => true,
        },
        ArrayName::Param(i) => match y {
            ArrayName::Global(_) => false,
            ArrayName::Param(j) => i < j,
        },
    }
}

/// Returns the place of the earliest of the names, of which there is one.
fn earliest(names: &[ArrayName]) -> usize
    requires { 0 < length names.now }
    ensures { IsEarliest names.now result }
{
    let mut least = 0usize;
    for i in 0..names.len() {
        if comes_first(names[i], names[least]) {
            least = i;
        }
    }
    least
}

/// The same circle, from its earliest name on.
fn turn(names: &mut Vec<ArrayName>)
    requires { 0 < length names.old.items }
    ensures { Turned names.old.items names.new.items }
{
    let at = earliest(names);
    names.rotate_left(at);
}

impl Order {
    /// `cycle` by a search among all names, for orders that the numbers do not settle.
    fn search(&self, arrays: u32) -> Result<Option<Vec<ArrayName>>, Memory>
        ensures { IfOk result (FindsCycle (Needed arrays self.now)) }
    {
        let alloc = self.alloc();
        let names = gather(alloc, self.pairs(), arrays)?;
        let pairs = self.pairs().to_vec(alloc)?;
        match circle(alloc, pairs, arrays, names)? {
            None => Ok(None),
            Some(mut found) => {
                turn(&mut found);
                Ok(Some(found))
            }
        }
    }

    /// Returns a cycle among the names of the pairs and the first `arrays` declared arrays. A pair with `Start` asks nothing here. The work
    /// is in proportion to the names times the pairs and names. Memory is the one error.
    pub fn cycle(&self, arrays: u32) -> Result<Option<Vec<ArrayName>>, Memory>
        ensures { IfOk result (FindsCycle (Needed arrays self.now)) }
    {
        if settle(self.pairs(), arrays) {
            Ok(None)
        } else {
            self.search(arrays)
        }
    }
}
