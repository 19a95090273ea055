//! The keeper that declines every row.
ghost use Rattle.std.specs.Prelude.{◌≡◌, ℕ, false, [], Some};
ghost use Rattle.summary.specs.Kept.{Declines};
ghost use Rattle.summary.specs.Layout.{declined};
ghost use Rattle.std.proofs.Common.{rules};

use crate::keeper::Keeper;
use crate::row::Row;

/// A keeper that keeps no row: each node that is offered one is lost until the keeper is emptied.
#[derive(Clone, Copy)]
pub struct Decliner {
    // One flag for each node, and no set that grows: no call allocates.
    lost: [bool; 32],
}

impl Decliner {
    /// A decliner in which no node is lost.
    pub fn new() -> Decliner
        ensures { (n : ℕ) → declined result.lost n ≡ Some [] }
    {
        Decliner { lost: [false; 32] }
    }
}

impl Keeper for Decliner {
    ghost held = { λ d. declined d.lost };

    ghost takes = { λ a o b. Declines (declined a.lost) o (declined b.lost) };

    ghost does = { Prim.search rules };

    fn empty(&mut self) {
        self.lost = [false; 32];
    }

    fn offer(&mut self, node: usize, _row: Row) {
        // By index: of an array written through `get_mut` a proof knows no element.
        if node < 32 {
            self.lost[node] = true;
        }
    }

    fn lengthen(&mut self, _node: usize, _index: usize) {}

    fn is_lost(&self, node: usize) -> bool {
        self.lost.get(node).copied().unwrap_or(false)
    }

    fn count(&self, _node: usize) -> usize {
        0
    }

    fn row(&self, _node: usize, _index: usize) -> Option<Row> {
        None
    }
}
