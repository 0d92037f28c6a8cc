//! What the index keeps of each method.
ghost use Rattle.std.specs.Prelude.{◌≡◌, ◌+◌, ◌<◌, ◌≤◌, ◌^◌, ◌++◌, [], Some, IfOk, length, slice_get};
ghost use Rattle.enc_base.specs.Token.{nth_row};
ghost use Rattle.enc_key_map.specs.declared.key.Key.{Key as TheKey};
ghost use Rattle.enc_key_map.specs.Index.{value_at, latest};
ghost use Rattle.enc_plain.specs.Module.{cells_of, owner_of};
ghost use Rattle.enc_plain.specs.Sound.{row_count};
ghost use Rattle.enc_base.specs.Tables.{method_def};
ghost use Rattle.enc_dispatch.specs.Buckets.{AreBuckets, IsSlotOf, head_over};
ghost use Rattle.enc_dispatch.specs.Growth.{EachLater, IsClassOfMethod};
ghost use Rattle.enc_dispatch.specs.Stored.{IsMethodPart};

use crate::method_part::MethodPart;
use crate::names::MethodNames;
use crate::slots::{MoreSlots, Slots};
use enc_base::Token;
use enc_base::tables::{METHOD_DEF, TYPE_DEF};
use enc_plain::{CellView, ModuleView, Viewed};
use std::alloc::{AllocError, Global};

/// The slots of the methods behind the first so many, which are put behind one another. It takes memory
/// for each, and for what is known of their signatures.
fn slots_of<R: CellView>(
    alloc: Global,
    rows: &R,
    below: &Slots,
    read: u32,
    count: u32,
    slots: &mut MoreSlots,
) -> Result<Vec<u32>, AllocError>
    requires few { read + count < 2 ^ 24 }
    requires read { length below.now.next.items ≡ read }
    requires none { slots.old.next.items ≡ [] }
    requires buckets { AreBuckets (R.rows rows.now) (head_over below.now.heads slots.old.heads) below.now.next.items }
    requires entries { (q : TheKey) → latest slots.old.entries.items q ≡ value_at slots.old.heads q }
    ensures count { IfOk result (λ s. length s.items ≡ count) }
    ensures slots { IfOk result (λ s. EachLater (IsSlotOf (R.rows rows.now)) read s.items) }
    ensures links { IfOk result (λ _. length slots.new.next.items ≡ count) }
    ensures buckets { IfOk result (λ _. AreBuckets (R.rows rows.now) (head_over below.now.heads slots.new.heads)
        (below.now.next.items ++ slots.new.next.items)) }
    ensures entries { IfOk result (λ _. (q : TheKey) → latest slots.new.entries.items q ≡ value_at slots.new.heads q) }
{
    let mut names = MethodNames::new(alloc, rows);
    let mut all = Vec::new(alloc);
    for k in 0..count {
        let slot = slots.slot_for(alloc, below, &mut names, read + k)?;
        all.push(slot)?;
    }
    Ok(all)
}

/// The type that declares the n-th method, from 0.
#[tactic(auto, unfolding(enc_plain::specs::Module::has_row))]
pub(crate) fn owner_of_nth<V: ModuleView>(view: &V, n: u32) -> Token
    requires few { n < 2 ^ 24 }
    requires there { n < row_count (V.meaning view.now) method_def }
    ensures { owner_of (V.meaning view.now) (nth_row method_def n) ≡ Some result }
{
    view.owner(Token {
        table: METHOD_DEF,
        row: n + 1,
    })
}

/// The number at a place.
fn number_at(numbers: &[u32], n: u32) -> u32
    requires { n < length numbers.now }
    ensures { slice_get numbers.now n ≡ Some result }
{
    match numbers.get(n as usize) {
        Some(number) => *number,
        None => unreachable!(),
    }
}

/// The parts of the methods behind the first so many, of which the slots are there. It takes memory for
/// each, and for what is known of their signatures.
#[tactic(auto, using(crate::proofs::Each::each_none, crate::proofs::Each::each_more))]
pub(crate) fn methods_of<V: ModuleView>(
    alloc: Global,
    view: &V,
    below: &Slots,
    read: u32,
    owners: &[u32],
    slots: &mut MoreSlots,
) -> Result<Vec<MethodPart>, AllocError>
    requires read { read ≤ row_count (V.meaning view.now) method_def }
    requires owners { EachLater (IsClassOfMethod (V.meaning view.now)) read owners.now }
    requires owned { read + length owners.now ≡ row_count (V.meaning view.now) method_def }
    requires below { length below.now.next.items ≡ read }
    requires none { slots.old.next.items ≡ [] }
    requires buckets { AreBuckets (cells_of (V.meaning view.now))
        (head_over below.now.heads slots.old.heads) below.now.next.items }
    requires entries { (q : TheKey) → latest slots.old.entries.items q ≡ value_at slots.old.heads q }
    ensures count { IfOk result (λ p. read + length p.items ≡ row_count (V.meaning view.now) method_def) }
    ensures methods { IfOk result (λ p. EachLater (IsMethodPart (V.meaning view.now)) read p.items) }
    ensures links { IfOk result (λ _. read + length slots.new.next.items ≡ row_count (V.meaning view.now) method_def) }
    ensures buckets { IfOk result (λ _. AreBuckets (cells_of (V.meaning view.now))
        (head_over below.now.heads slots.new.heads) (below.now.next.items ++ slots.new.next.items)) }
    ensures entries { IfOk result (λ _. (q : TheKey) → latest slots.new.entries.items q ≡ value_at slots.new.heads q) }
{
    let rows = Viewed { view };
    let count = view.count(METHOD_DEF) - read;
    let numbers = slots_of(alloc, &rows, below, read, count, slots)?;
    let mut methods = Vec::new(alloc);
    for k in 0..count {
        let part = MethodPart {
            owner: Token {
                table: TYPE_DEF,
                row: number_at(owners, k),
            },
            slot: number_at(&numbers, k),
        };
        methods.push(part)?;
    }
    Ok(methods)
}
