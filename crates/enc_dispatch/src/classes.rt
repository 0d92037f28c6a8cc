//! What the index keeps of each class.
ghost use Rattle.std.specs.Prelude.{◌≡◌, ◌+◌, ◌<◌, ◌≤◌, ◌^◌, IfOk, length};
ghost use Rattle.enc_plain.specs.Sound.{row_count};
ghost use Rattle.enc_base.specs.Tables.{type_def};
ghost use Rattle.enc_dispatch.specs.Growth.{EachLater};
ghost use Rattle.enc_dispatch.specs.Stored.{IsClassPart};

use crate::class_part::ClassPart;
use enc_base::Token;
use enc_base::tables::TYPE_DEF;
use enc_plain::{CellView, ModuleView, Viewed};
use enc_schema::columns::{TYPE_DEF_EXTENDS, TYPE_DEF_FLAGS};
use std::alloc::{AllocError, Global};

/// The part of the n-th class, from 0 (ECMA-335 II.22.37).
#[tactic(auto, unfolding(enc_schema::specs::Schema::columns_in, enc_plain::specs::ClassPath::class_base))]
fn class_of<V: ModuleView>(view: &V, n: u32) -> ClassPart
    requires { n < 2 ^ 24 }
    ensures { IsClassPart (V.meaning view.now) n result }
{
    let rows = Viewed { view };
    let class = Token {
        table: TYPE_DEF,
        row: n + 1,
    };
    ClassPart {
        base: rows.token(class, TYPE_DEF_EXTENDS),
        is_interface: rows.number(class, TYPE_DEF_FLAGS) / 0x20 % 2 == 1,
    }
}

/// The parts of all classes behind the first so many. It takes memory for each.
#[tactic(auto, using(crate::proofs::Each::each_none, crate::proofs::Each::each_more))]
pub(crate) fn classes_of<V: ModuleView>(
    alloc: Global,
    view: &V,
    read: u32,
) -> Result<Vec<ClassPart>, AllocError>
    requires { read ≤ row_count (V.meaning view.now) type_def }
    ensures count { IfOk result (λ c. read + length c.items ≡ row_count (V.meaning view.now) type_def) }
    ensures few { IfOk result (λ _. row_count (V.meaning view.now) type_def < 2 ^ 24) }
    ensures classes { IfOk result (λ c. EachLater (IsClassPart (V.meaning view.now)) read c.items) }
{
    let mut classes = Vec::new(alloc);
    for k in 0..view.count(TYPE_DEF) - read {
        classes.push(class_of(view, read + k))?;
    }
    Ok(classes)
}
