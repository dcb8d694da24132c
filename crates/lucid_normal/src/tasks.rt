// The tasks of a walk, in memory that grows with them. The last one pushed is done first.
ghost use Rattle.std.specs.Prelude.{◌≡◌, [], ◌∷◌, MatchOption, OnOk};

use crate::task::Task;
use lucid_base::Memory;
use std::alloc::Global;
use std::marker::Model;

/// Contracts see the tasks in the order in which they are done.
#[derive(Drop)]
pub struct Tasks<'a> {
    items: Vec<Task<'a>>,
}

impl<'a> Model for Tasks<'a> {
    ghost use Rattle.lucid_core.specs.contracts.body.Stmt as stmt;
    ghost use Rattle.lucid_core.specs.contracts.body.Expr as expr;
    ghost use Rattle.lucid_core.specs.contracts.body.Touch as touch;
    ghost use Rattle.std.specs.Coded.{codes};
    ghost use Rattle.std.specs.Prelude.{List, reverse};
    ghost use Rattle.lucid_normal.specs.declared.task.Task.{Task};

    ghost Value = { List Task };

    ghost coded = { Prim.hlevel (codes, stmt.the_row.coded, expr.the_row.coded, touch.the_row.coded) };

    ghost view = { λ t. reverse t.items.items };
}

impl<'a> Tasks<'a> {
    pub fn new(alloc: Global) -> Tasks<'a>
        ensures { result ≡ [] }
    {
        Tasks {
            items: Vec::new(alloc),
        }
    }

    #[tactic(auto, using(crate::proofs::TasksLemmas::reverse_push))]
    pub fn push(&mut self, task: Task<'a>) -> Result<(), Memory>
        ensures { OnOk result (self.new ≡ task.entry ∷ self.old) }
    {
        match self.items.push(task) {
            Ok(()) => Ok(()),
            Err(failed) => {
                drop(failed);
                Err(Memory)
            }
        }
    }

    #[tactic(auto, using(crate::proofs::TasksLemmas::reverse_push))]
    pub fn pop(&mut self) -> Option<Task<'a>>
        ensures { MatchOption result ((self.old ≡ []) × (self.new ≡ [])) (λ task. self.old ≡ task ∷ self.new) }
    {
        match self.items.pop() {
            None => None,
            Some(task) => Some(task),
        }
    }
}
