//! What a keeper of rows is.
ghost use Rattle.std.specs.Prelude.{◌≡◌, not, length, is_some};
ghost use Rattle.std.specs.List.{slice_get};
ghost use Rattle.summary.specs.Kept.{Kept, Operation, emptying, offering, lengthening, rows_of, Does};

use crate::row::Row;

// The calls name a node and an index as two numbers, any numbers: that is the form in which a monitor asks.
/// Holds of each node, 0 to 31, its rows in the order in which they were offered, or the word lost.
pub trait Keeper {
    /// Of each node its rows, or none where they are lost.
    ghost held: { Self → Kept };

    /// What an operation may do to the keeper.
    ghost takes: { Self → Operation → Self → Type 0 };

    /// Drops all rows; no node is lost any more.
    fn empty(&mut self)
        ensures { takes self.old emptying self.new };

    /// Offers a row to a node, which keeps it or is lost until the keeper is emptied.
    fn offer(&mut self, node: usize, row: Row)
        ensures { takes self.old (offering node row) self.new };

    /// Raises the last position of a row that is kept by one.
    fn lengthen(&mut self, node: usize, index: usize)
        ensures { takes self.old (lengthening node index) self.new };

    /// Whether the rows of a node are lost.
    fn is_lost(&self, node: usize) -> bool
        ensures { result ≡ not (is_some (held self.now node)) };

    /// How many rows a node has.
    fn count(&self, node: usize) -> usize
        ensures { result ≡ length (rows_of (held self.now node)) };

    /// A row of a node, in the order in which they were offered.
    fn row(&self, node: usize, index: usize) -> Option<Row>
        ensures { result ≡ slice_get (rows_of (held self.now node)) index };

    ghost does: { (a b : Self) (o : Operation) → takes a o b → Does (held a) o (held b) };
}
