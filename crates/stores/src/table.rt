ghost use Rattle.std.specs.Prelude.{◌<◌, vec_len};
ghost use Rattle.std.specs.Borrow.{follows, sem};
ghost use Rattle.std.specs.Vec.{with_item};
ghost use Rattle.stores.specs.contracts.row.Row.{the_row as row_type};
ghost use Rattle.stores.specs.contracts.table.Table.{the_row as table-type};

use crate::row::Row;

/// The rows of a pocket.
#[derive(Drop)]
pub(crate) struct Table {
    pub(crate) rows: Vec<Row>,
}

impl Table {
    // Kept: it is a rule of this project that a changed row is one of its table, lent through `&mut self`.
    /// Lends a row to change.
    pub(crate) fn row(&mut self, number: usize) -> &mut Row
        requires { number < vec_len self.old.rows }
        ensures* { sem 𝓛 (follows table-type row_type self.entry.ghost_name result.ghost_name (λ w. record { rows = with_item self.old.rows number w })) }
    {
        &mut self.rows[number]
    }
}
