//! Children, owner by owner.
ghost use Rattle.std.specs.Prelude.{◌≡◌, true, IfOk};
ghost use Rattle.std.specs.List.{list_all};
ghost use Rattle.enc_row_order.specs.Orders.{kids_listed};
ghost use Rattle.enc_row_order.specs.Places.{is_row_within};
ghost use Rattle.enc_plain.specs.Sound.{row_count};
ghost use Rattle.enc_schema.specs.Children.{is_child_table, owner_table};

use enc_base::Token;
use enc_plain::ModuleView;
use enc_schema::owner_table;
use std::alloc::{AllocError, Global};

/// The children of these owners in a child table, owner by owner, in order of attachment.
pub(crate) fn kids_listed<V: ModuleView>(
    alloc: Global,
    view: &V,
    owners: &[u32],
    child: u8,
) -> Result<Vec<u32>, AllocError>
    requires table { is_child_table child ≡ true }
    requires rows { list_all (is_row_within (row_count (V.meaning view.now) (owner_table child))) owners.now ≡ true }
    ensures { IfOk result (λ v. v.items ≡ kids_listed (V.meaning view.now) owners.now child) }
{
    let mut kids = Vec::new(alloc);
    for i in 0..owners.len() {
        let row = owners[i];
        let owner = Token {
            table: owner_table(child),
            row,
        };
        let rows = view.kid_rows(alloc, owner, child)?;
        kids.extend_from_slice(&rows)?;
    }
    Ok(kids)
}
