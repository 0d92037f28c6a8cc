//! The virtual methods of classes, by class and slot.
ghost use Rattle.std.specs.Prelude.{◌≡◌, ◌++◌, ℕ, IfOk, IsTrue, ◌<◌, ◌-◌, get_or, length, filter, nat_lt};
ghost use Rattle.enc_base.specs.Order.{or_else};
ghost use Rattle.enc_key_map.specs.Index.{value_at};
ghost use Rattle.enc_plain.specs.Module.{has_row};
ghost use Rattle.enc_dispatch.specs.Entries.{earliest, where_none};
ghost use Rattle.enc_dispatch.specs.Growth.{later_kids, AreOwners};
ghost use Rattle.enc_dispatch.specs.Own.{virtual_slot, wanted_slot, row_part, own_one, own_among, in_class};
ghost use Rattle.enc_dispatch.specs.Stored.{class_at, own_key};
ghost use Rattle.enc_dispatch.specs.Walked.{slot_at};
ghost use Rattle.enc_dispatch.specs.Walks.{flags_of, method_at};

use crate::first::push_first;
use crate::keys::own_key;
use crate::method_part::MethodPart;
use crate::own_method::OwnMethod;
use crate::path::nth_part;
use crate::wanted::Wanted;
use enc_base::Token;
use enc_base::tables::{METHOD_DEF, TYPE_DEF};
use enc_key_map::{Index, KeyEntry};
use enc_plain::{CellView, ModuleView, Viewed};
use enc_schema::columns::METHOD_DEF_FLAGS;
use std::alloc::{AllocError, Global};

/// The parts of methods: those that are there, and those that come behind them.
#[derive(Drop)]
pub(crate) struct MethodParts<'a> {
    pub first: &'a [MethodPart],
    pub more: &'a [MethodPart],
}

/// The slot of a method, None where it has no part.
fn slot_in(parts: &[MethodPart], row: u32) -> Option<u32>
    ensures { result ≡ slot_at parts.now row }
{
    let part = nth_part(parts, row)?;
    Some(part.slot)
}

/// The same of parts behind one another.
#[tactic(auto, using(crate::proofs::Later::slot_first, crate::proofs::Later::slot_later))]
fn slot_of(methods: &MethodParts<'_>, row: u32) -> Option<u32>
    ensures { result ≡ slot_at (methods.now.first.now ++ methods.now.more.now) row }
{
    let count = methods.first.len();
    if row as usize <= count {
        return slot_in(methods.first, row);
    }
    slot_in(methods.more, row - count as u32)
}

/// The flags of a method (ECMA-335 II.23.1.10).
#[tactic(auto, unfolding(enc_schema::specs::Schema::columns_in))]
pub(crate) fn flags_of<V: ModuleView>(view: &V, row: u32) -> u32
    ensures { result ≡ flags_of (V.meaning view.now) (method_at row) }
{
    let rows = Viewed { view };
    rows.number(
        Token {
            table: METHOD_DEF,
            row,
        },
        METHOD_DEF_FLAGS,
    )
}

/// The slot of a virtual method.
#[tactic(auto, unfolding(crate::specs::Own::virtual_slot))]
fn virtual_slot<V: ModuleView>(view: &V, methods: &MethodParts<'_>, row: u32) -> Option<u32>
    ensures { result ≡ virtual_slot (V.meaning view.now) (methods.now.first.now ++ methods.now.more.now) row }
{
    if flags_of(view, row) / 0x40 % 2 != 1 {
        return None;
    }
    slot_of(methods, row)
}

/// The slot of a method, where it is wanted.
#[tactic(auto, unfolding(crate::specs::Own::wanted_slot))]
fn wanted_slot<V: ModuleView>(
    view: &V,
    methods: &MethodParts<'_>,
    wanted: Wanted,
    row: u32,
) -> Option<u32>
    ensures { result ≡ wanted_slot (V.meaning view.now) (methods.now.first.now ++ methods.now.more.now) wanted row }
{
    match wanted {
        Wanted::Virtual => virtual_slot(view, methods, row),
        Wanted::Public => {
            if flags_of(view, row) % 8 != 6 {
                return None;
            }
            virtual_slot(view, methods, row)
        }
    }
}

/// What stands of a class's own virtual method.
fn own_part<V: ModuleView>(view: &V, row: u32) -> OwnMethod
    ensures { result ≡ row_part (V.meaning view.now) row }
{
    OwnMethod {
        row,
        is_new_slot: flags_of(view, row) / 0x100 % 2 == 1,
    }
}

/// Appends a method of a class by its slot, where it is wanted and the index has none there.
fn push_own<V: ModuleView>(
    alloc: Global,
    view: &V,
    methods: &MethodParts<'_>,
    wanted: Wanted,
    class: u32,
    row: u32,
    index: &Index<OwnMethod>,
    own: &mut Vec<KeyEntry<OwnMethod>>,
) -> Result<(), AllocError>
    ensures { IfOk result (λ _. (c s : ℕ) → earliest own.new.items (own_key c s)
        ≡ or_else (earliest own.old.items (own_key c s)) (where_none (value_at index.now (own_key c s))
        (in_class class c (own_one (V.meaning view.now)
        (methods.now.first.now ++ methods.now.more.now) wanted s row)))) }
{
    let Some(slot) = wanted_slot(view, methods, wanted, row) else {
        return Ok(());
    };
    let part = own_part(view, row);
    push_first(own, alloc, index, own_key(class, slot), part)
}

/// Appends methods of a class, given by their rows in order of attachment.
#[tactic(auto, using(crate::proofs::Owns::own_more))]
fn push_kids<V: ModuleView>(
    alloc: Global,
    view: &V,
    methods: &MethodParts<'_>,
    wanted: Wanted,
    class: u32,
    kids: &[u32],
    index: &Index<OwnMethod>,
    own: &mut Vec<KeyEntry<OwnMethod>>,
) -> Result<(), AllocError>
    ensures { IfOk result (λ _. (c s : ℕ) → earliest own.new.items (own_key c s)
        ≡ or_else (earliest own.old.items (own_key c s)) (where_none (value_at index.now (own_key c s))
        (in_class class c (own_among (V.meaning view.now)
        (methods.now.first.now ++ methods.now.more.now) wanted s kids.now)))) }
{
    for i in 0..kids.len() {
        push_own(alloc, view, methods, wanted, class, kids[i], index, own)?;
    }
    Ok(())
}

/// Those of some rows that stand behind the first so many. It takes memory for each.
fn those_behind(alloc: Global, rows: &[u32], read: u32) -> Result<Vec<u32>, AllocError>
    ensures { IfOk result (λ b. b.items ≡ filter (λ (row : ℕ). nat_lt read row) rows.now) }
{
    let mut later = Vec::new(alloc);
    for row in rows {
        if *row > read {
            later.push(*row)?;
        }
    }
    Ok(later)
}

/// The rows of a class's methods behind the first so many, in order of attachment. It takes memory
/// for each method of the class.
#[tactic(auto, unfolding(enc_plain::specs::Module::has_row))]
pub(crate) fn later_kids<V: ModuleView>(
    alloc: Global,
    view: &V,
    class: u32,
    read: u32,
) -> Result<Vec<u32>, AllocError>
    requires { IsTrue (has_row (V.meaning view.now) (class_at class)) }
    ensures { IfOk result (λ kids. kids.items ≡ later_kids (V.meaning view.now) read class) }
{
    let class = Token {
        table: TYPE_DEF,
        row: class,
    };
    let kids = view.kid_rows(alloc, class, METHOD_DEF)?;
    those_behind(alloc, &kids, read)
}

/// The number at a place is the one before it.
fn is_repeated(numbers: &[u32], i: usize) -> bool
    requires { i < length numbers.now }
    ensures { IsTrue result → (0 < i) × (get_or numbers.now (i - 1) 0 ≡ get_or numbers.now i 0) }
{
    i > 0 && numbers[i - 1] == numbers[i]
}

/// The first wanted method of each class and slot among methods behind the first so many, where an index
/// has none. The classes that have such methods are given by their rows, each once or in a run. It takes
/// memory for each such method, and for the methods of one class at a time.
pub(crate) fn own_of<V: ModuleView>(
    alloc: Global,
    view: &V,
    methods: &MethodParts<'_>,
    wanted: Wanted,
    owners: &[u32],
    read: u32,
    index: &Index<OwnMethod>,
) -> Result<Vec<KeyEntry<OwnMethod>>, AllocError>
    requires { AreOwners (V.meaning view.now) read owners.now }
    ensures { IfOk result (λ own. (c s : ℕ) → earliest own.items (own_key c s)
        ≡ where_none (value_at index.now (own_key c s)) (own_among (V.meaning view.now)
        (methods.now.first.now ++ methods.now.more.now) wanted s (later_kids (V.meaning view.now) read c))) }
{
    let mut own = Vec::new(alloc);
    for i in 0..owners.len() {
        if !is_repeated(owners, i) {
            let kids = later_kids(alloc, view, owners[i], read)?;
            push_kids(
                alloc, view, methods, wanted, owners[i], &kids, index, &mut own,
            )?;
        }
    }
    Ok(own)
}
