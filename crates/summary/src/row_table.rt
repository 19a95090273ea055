//! The keeper of 512 rows.
ghost use Rattle.std.specs.Prelude.{◌≡◌, ℕ, ◌<◌, ◌≤◌, [], length, sum_by, IfOk, Some, vec_len, vec_capacity};
ghost use Rattle.summary.specs.Kept.{Tables};
ghost use Rattle.summary.specs.Layout.{before, count_of, place_of, size};
ghost use Rattle.summary.specs.Laws.{tables_does};

mod lend;

use crate::keeper::Keeper;
use crate::row::Row;
use std::alloc::{AllocError, Global};

/// A keeper of at most 512 rows. A row that finds it full is declined: its node is then lost, and the places of the node's
/// rows are used again. All memory is reserved when it is made.
#[derive(Drop)]
pub struct RowTable {
    // One block of memory that all nodes share. The rows of a node stand together, in the order in which they were offered,
    // and the nodes in rising order, so that reading a row needs no scan: rows in one list with their nodes, to be filtered,
    // took five times as long to read.
    rows: Vec<Row>,
    // How many rows each node has, or none where they are lost.
    counts: [Option<usize>; 32],
    ghost sized: { length counts ≡ 32 },
    ghost counted: { vec_len rows ≡ sum_by size counts },
    ghost few: { vec_len rows ≤ 512 },
    ghost reserved: { vec_capacity rows ≡ 512 },
}

impl RowTable {
    ghost use Rattle.summary.specs.Held.{held_by};

    /// A table without rows, in which no node is lost.
    pub fn new(heap: Global) -> Result<RowTable, AllocError>
        ensures { IfOk result (λ t. (n : ℕ) → held_by t n ≡ Some []) }
    {
        let rows = Vec::with_capacity(heap, 512)?;
        Ok(RowTable {
            rows,
            counts: [Some(0); 32],
        })
    }

    /// How many rows a node has, or none where they are lost. A node from 32 on does not exist and has no rows.
    fn count_of(&self, node: usize) -> Option<usize>
        ensures { result ≡ count_of self.now.counts node }
    {
        self.counts.get(node).copied().unwrap_or(Some(0))
    }

    /// Where the rows of a node start: how many rows the nodes before it have.
    fn start_of(&self, node: usize) -> usize
        requires { node ≤ 32 }
        ensures { result ≡ before node self.now.counts }
    {
        self.counts[..node]
            .iter()
            .map(|count| count.unwrap_or(0))
            .sum()
    }

    /// Where a row of a node stands among all rows.
    fn place(&self, node: usize, index: usize) -> Option<usize>
        ensures { result ≡ place_of self.now.counts node index }
    {
        (index < self.count(node)).then(|| self.start_of(node) + index)
    }
}

impl Keeper for RowTable {
    ghost use Rattle.summary.specs.Held.{held_by};

    ghost held = { held_by };

    ghost takes = { λ a o b. Tables (held_by a) o (held_by b) };

    ghost does = { λ a b o h. tables_does (held_by a) (held_by b) o h };

    fn empty(&mut self) {
        self.rows.clear();
        self.counts = [Some(0); 32];
    }

    fn offer(&mut self, node: usize, row: Row) {
        // A node from 32 on does not exist, and a lost one takes nothing.
        let Some(Some(count)) = self.counts.get(node).copied() else {
            return;
        };
        let start = self.start_of(node);
        let fits = self.rows.len() < 512;
        if fits {
            // The reserved room is not used up, so this neither allocates nor fails.
            self.rows.insert(start + count, row).unwrap();
            self.counts[node] = Some(count + 1);
        } else {
            // Not by `drain`, which turns round all rows from `start` on where it is enough to move those behind the node's.
            let len = self.rows.len();
            self.rows.copy_within(start + count..len, start);
            self.rows.truncate(len - count);
            self.counts[node] = None;
        }
    }

    fn lengthen(&mut self, node: usize, index: usize) {
        if let Some(at) = self.place(node, index) {
            let row = self.row_mut(at);
            row.last = row.last.saturating_add(1);
        }
    }

    fn is_lost(&self, node: usize) -> bool {
        self.count_of(node).is_none()
    }

    fn count(&self, node: usize) -> usize {
        self.count_of(node).unwrap_or(0)
    }

    fn row(&self, node: usize, index: usize) -> Option<Row> {
        self.place(node, index).map(|at| self.rows[at])
    }
}
