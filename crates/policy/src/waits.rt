//! How long each node's truth waits for later positions.
ghost use Rattle.std.specs.Prelude.{◌≡◌, ◌+◌, ◌*◌, ◌<◌, ◌≤◌, false, List};
ghost use Rattle.table.specs.Formula.{Formula, formulas, formula_of};
ghost use Rattle.table.specs.Form.{not_below};
ghost use Rattle.policy.specs.Notes.{WaitsUpTo, BoundedBy};
ghost use Rattle.policy.specs.Wait.{upper, wait};

use crate::notes::Notes;
use table::{Interval, Node};

fn upper_of(interval: Interval) -> u64
    ensures is { result ≡ upper interval }
    ensures bound { result ≤ 4294967295 }
{
    interval.hi.map_or(0, u64::from)
}

/// The wait of the node i, from the notes of the nodes before it.
pub(crate) fn wait_of(node: Node, i: usize, notes: &Notes) -> u64
    requires place { i < 32 }
    requires descends { not_below i node ≡ false }
    requires bounded { BoundedBy i notes.now }
    ensures is { (fs : List Formula) → WaitsUpTo notes.now i fs → result ≡ wait (formula_of fs i node) }
    ensures bound { result ≤ (i + 1) * 4294967295 }
{
    match node {
        Node::True | Node::False | Node::Atom { .. } => 0,
        Node::And { left, right }
        | Node::Or { left, right }
        | Node::Forall { left, right, .. }
        | Node::Since { left, right, .. } => notes[left].wait.max(notes[right].wait),
        Node::Exists { body, .. }
        | Node::Prev { body, .. }
        | Node::Once { body, .. }
        | Node::Hist { body, .. } => notes[body].wait,
        Node::Next { interval, body }
        | Node::Event { interval, body }
        | Node::Always { interval, body } => upper_of(interval) + notes[body].wait,
        Node::Until {
            interval,
            left,
            right,
        } => upper_of(interval) + notes[left].wait.max(notes[right].wait),
    }
}
