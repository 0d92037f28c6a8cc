//! An edit of a list and the row that it is about.
ghost use Rattle.std.specs.Prelude.{◌≡◌, ◌<◌, Some, length, slice_get};
ghost use Rattle.enc_rules.specs.Edited.{rows_edited};

use enc_base::Token;
use enc_edit_list::Edit;
use enc_plain::ChainView;
use enc_rules::Context;

/// The edit at a place.
pub(crate) fn edit_at<'a, C: ChainView>(context: &'a Context<'_, C>, k: usize) -> &'a Edit
    requires { k < length context.now.list.edits }
    ensures { slice_get context.now.list.edits k ≡ Some result.now }
{
    &context.edits()[k]
}

/// The row that it is about.
#[tactic(auto, using(enc_rules::proofs::RowsEdited::rows_all))]
pub(crate) fn row_at<C: ChainView>(context: &Context<'_, C>, k: usize) -> Token
    requires { k < length context.now.list.edits }
    ensures { slice_get (rows_edited context.now.chain.plain context.now.list.edits) k ≡ Some result }
{
    let rows = context.rows();
    rows[k]
}
