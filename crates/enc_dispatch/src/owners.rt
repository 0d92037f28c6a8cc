//! The classes of methods.
ghost use Rattle.std.specs.Prelude.{◌≡◌, ◌+◌, ◌<◌, ◌≤◌, ◌==◌, ℕ, IfOk, get_or, length, if◌then◌else◌};
ghost use Rattle.std.specs.List.{list_any};
ghost use Rattle.enc_plain.specs.Sound.{row_count, IsSound};
ghost use Rattle.enc_base.specs.Tables.{method_def};
ghost use Rattle.enc_dispatch.specs.Growth.{AreOwners, EachLater, IsClassOfMethod};
ghost use Rattle.enc_dispatch.specs.Parts.{EachPart};

use crate::methods::owner_of_nth;
use crate::own::later_kids;
use enc_base::tables::{METHOD_DEF, TYPE_DEF};
use enc_plain::ModuleView;
use std::alloc::{AllocError, Global};

/// Puts a class at the places of its methods, given by their rows.
fn put_class(owners: &mut Vec<u32>, kids: &[u32], class: u32)
    requires { (i : ℕ) → i < length kids.now
        → (0 < get_or kids.now i 0) × (get_or kids.now i 0 ≤ length owners.old.items) }
    ensures len { length owners.new.items ≡ length owners.old.items }
    ensures each { (n : ℕ) → n < length owners.old.items → get_or owners.new.items n 0
        ≡ (if list_any (λ (k : ℕ). k == n + 1) kids.now then class else get_or owners.old.items n 0) }
{
    for i in 0..kids.len() {
        owners[kids[i] as usize - 1] = class;
    }
}

/// The classes of all methods: those of each class are gone over once. It takes memory for each method.
fn all_owners<V: ModuleView>(alloc: Global, view: &V) -> Result<Vec<u32>, AllocError>
    requires { IsSound (V.meaning view.now) }
    ensures count { IfOk result (λ o. length o.items ≡ row_count (V.meaning view.now) method_def) }
    ensures owners { IfOk result (λ o. EachPart (IsClassOfMethod (V.meaning view.now)) o.items) }
{
    let mut owners = Vec::from_elem(alloc, 0, view.count(METHOD_DEF) as usize)?;
    for n in 0..view.count(TYPE_DEF) {
        let kids = later_kids(alloc, view, n + 1, 0)?;
        put_class(&mut owners, &kids, n + 1);
    }
    Ok(owners)
}

/// The classes of the methods behind the first so many, asked for one by one.
#[tactic(auto, using(crate::proofs::Each::each_none))]
fn asked_owners<V: ModuleView>(alloc: Global, view: &V, read: u32) -> Result<Vec<u32>, AllocError>
    requires { read ≤ row_count (V.meaning view.now) method_def }
    ensures count { IfOk result (λ o. read + length o.items ≡ row_count (V.meaning view.now) method_def) }
    ensures owners { IfOk result (λ o. EachLater (IsClassOfMethod (V.meaning view.now)) read o.items) }
{
    let mut owners = Vec::new(alloc);
    for k in 0..view.count(METHOD_DEF) - read {
        owners.push(owner_of_nth(view, read + k).row)?;
    }
    Ok(owners)
}

/// The rows of the classes of the methods behind the first so many. It takes memory for each such method,
/// and time by their number, or by the number of all where there is none before them.
pub(crate) fn owners_of<V: ModuleView>(
    alloc: Global,
    view: &V,
    read: u32,
) -> Result<Vec<u32>, AllocError>
    requires sound { IsSound (V.meaning view.now) }
    requires read { read ≤ row_count (V.meaning view.now) method_def }
    ensures count { IfOk result (λ o. read + length o.items ≡ row_count (V.meaning view.now) method_def) }
    ensures owners { IfOk result (λ o. EachLater (IsClassOfMethod (V.meaning view.now)) read o.items) }
{
    if read == 0 {
        return all_owners(alloc, view);
    }
    asked_owners(alloc, view, read)
}

/// The same classes in order, so that methods of one class make a run. It takes memory for each method.
pub(crate) fn in_order<V: ModuleView>(
    alloc: Global,
    _view: &V,
    read: u32,
    owners: &[u32],
) -> Result<Vec<u32>, AllocError>
    requires sound { IsSound (V.meaning _view.now) }
    requires count { read + length owners.now ≡ row_count (V.meaning _view.now) method_def }
    requires owners { EachLater (IsClassOfMethod (V.meaning _view.now)) read owners.now }
    ensures { IfOk result (λ o. AreOwners (V.meaning _view.now) read o.items) }
{
    let mut sorted = Vec::from_slice(alloc, owners)?;
    sorted.sort_unstable();
    Ok(sorted)
}
