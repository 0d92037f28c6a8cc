//! The row that owns a child, by the runs of the owners' table.
ghost use Rattle.std.specs.Prelude.{◌≡◌, ◌<◌, ◌^◌, Some, IsTrue, IfSome};
ghost use Rattle.enc_schema.specs.Children.{is_child_table, owner_table as table_of_owners};
ghost use Rattle.enc_rows.specs.Layout.{rows_of};
ghost use Rattle.enc_plain.specs.Module.{has_row, owner_of};
ghost use Rattle.enc_image.specs.Base.{module_in};

use crate::image::Image;
use crate::open::metadata;
use enc_base::Token;
use enc_schema::{owner_table, run_column};

impl Image {
    /// The row that owns a child, by going over the owners from the first.
    pub(crate) fn first_owner(&self, child: Token) -> Token
        requires row { IsTrue (has_row (module_in self.now) child) }
        requires table { IsTrue (is_child_table child.table) }
        ensures { owner_of (module_in self.now) child ≡ Some result }
    {
        let table = owner_table(child.table);
        for n in 0..self.tables.count(table) {
            if self.tables.owns(
                metadata(&self.bytes, &self.container),
                child.table,
                n,
                child.row,
            ) {
                return Token { table, row: n + 1 };
            }
        }
        unreachable!()
    }

    /// The last row of the owners' table, from 0, whose run begins at or before the child, found by
    /// halves. None where there are no owners. It is a guess: a wrong one costs time alone.
    pub(crate) fn likely_owner(&self, child: Token) -> Option<u32>
        requires table { IsTrue (is_child_table child.table) }
        ensures row { IfSome result (λ n. n < rows_of self.now.layout (table_of_owners child.table)) }
        ensures few { IfSome result (λ n. n < 2 ^ 24) }
    {
        let table = owner_table(child.table);
        let column = run_column(child.table);
        let bytes = metadata(&self.bytes, &self.container);
        let count = self.tables.count(table);
        if count == 0 {
            return None;
        }
        let mut low = 0;
        let mut high = count;
        while high - low > 1 {
            let middle = low + (high - low) / 2;
            let row = Token {
                table,
                row: middle + 1,
            };
            if self.tables.cell(bytes, row, column) <= child.row {
                low = middle;
            } else {
                high = middle;
            }
        }
        Some(low)
    }
}
