//! One row of a table, lent.
ghost use Rattle.std.specs.Prelude.{◌≡◌, ◌<◌, vec_len, slice_index_or};
ghost use Rattle.std.specs.Borrow.{sem, Lends};
ghost use Rattle.std.specs.Vec.{with_item};
ghost use Rattle.summary.specs.contracts.row.Row.{the_row as row-row};
ghost use Rattle.summary.specs.contracts.row_table.RowTable.{the_row};
ghost use Rattle.summary.specs.Kept.{no_row};

use crate::row::Row;
use crate::row_table::RowTable;

impl RowTable {
    /// One of all rows, lent.
    pub(super) fn row_mut(&mut self, at: usize) -> &mut Row
        requires { at < vec_len self.old.rows }
        ensures* lent { sem 𝓛 (Lends the_row row-row self.entry result (λ w. record self.old { rows = with_item self.old.rows at w })) }
        ensures value { result.now ≡ slice_index_or self.old.rows.items at no_row }
    {
        &mut self.rows[at]
    }
}
