//! The state of the hub, and what each command does to it.
ghost use Rattle.std.specs.Prelude.{◌≡◌, IfOk, None};
ghost use Rattle.hub.specs.Steps.{Begun, Declared, Appended, Checked, Carried, cached_in};

use crate::answer::Answer;
use policy::{Policy, RefusedTable};
use script::Command;
use std::alloc::{AllocError, Global};
use table::{Declaration, Node, Table};

/// The table that is being written, and the policy that was accepted last.
#[derive(Drop)]
pub struct Hub {
    table: Option<Table>,
    policy: Option<Policy>,
}

impl Hub {
    pub fn new() -> Hub
        ensures table { result.table ≡ None }
        ensures policy { result.policy ≡ None }
    {
        Hub {
            table: None,
            policy: None,
        }
    }

    /// Carries out a command. One that has no meaning now changes nothing.
    pub fn carry_out(&mut self, heap: Global, command: Command) -> Result<Answer, AllocError>
        ensures { IfOk result (λ a. Carried command self.old a self.new) }
    {
        match command {
            Command::Table => Ok(self.begin(heap)),
            Command::Pred {
                predicate,
                declaration,
            } => Ok(self.declare(predicate, declaration)),
            Command::Node(node) => self.append(node),
            Command::Check => self.check(heap),
            _ => Ok(Answer::NothingToDo),
        }
    }

    fn begin(&mut self, heap: Global) -> Answer
        ensures { Begun self.old result self.new }
    {
        self.table = Some(Table::new(heap));
        Answer::EmptyTable
    }

    fn declare(&mut self, predicate: u8, declaration: Declaration) -> Answer
        ensures { Declared predicate declaration self.old result self.new }
    {
        let Some(table) = &mut self.table else {
            return Answer::NothingToDo;
        };
        // A match and no `?`: here a refusal is an answer.
        match table.declare(predicate, declaration) {
            Ok(()) => Answer::Predicate(predicate),
            Err(refusal) => Answer::Refused(refusal),
        }
    }

    fn append(&mut self, node: Node) -> Result<Answer, AllocError>
        ensures { IfOk result (λ a. Appended node self.old a self.new) }
    {
        let Some(table) = &mut self.table else {
            return Ok(Answer::NothingToDo);
        };
        let number = table.append(node)?;
        Ok(Answer::Node(number))
    }

    /// Checks a copy of the table, so that the table can be extended and checked again.
    fn check(&mut self, heap: Global) -> Result<Answer, AllocError>
        ensures { IfOk result (λ a. Checked self.old a self.new) }
    {
        let Some(table) = &self.table else {
            return Ok(Answer::NothingToDo);
        };
        // A match and no `?`: here a refusal is an answer.
        match policy::check(table.copy(heap)?) {
            Ok(policy) => {
                let wait = policy.wait();
                let cached = cached_nodes(heap, &policy)?;
                self.policy = Some(policy);
                Ok(Answer::Accepted { wait, cached })
            }
            Err(RefusedTable { refusal, table: _ }) => Ok(Answer::Refused(refusal)),
        }
    }
}

/// The nodes of a policy that keep rows, in order.
fn cached_nodes(heap: Global, policy: &Policy) -> Result<Vec<usize>, AllocError>
    ensures { IfOk result (λ v. v.items ≡ cached_in policy.now) }
{
    (0..policy.node_count())
        .filter(|node| policy.is_cached(*node))
        .collect(heap)
}
