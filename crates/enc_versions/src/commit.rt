//! Bodies that become the newest of their methods: made ready first, and then put in their places.
ghost use Rattle.std.specs.Prelude.{◌≡◌, ◌≤◌, ◌<◌, length, map, max, IsTrue, IfOk, OnOk, vec_capacity};
ghost use Rattle.std.specs.List.{list_all};
ghost use Rattle.enc_base.specs.Order.{or_else};
ghost use Rattle.enc_base.specs.declared.token.Token.{Token as TheToken};
ghost use Rattle.enc_versions.specs.Commit.{NewVersion, version_in, is_entry, is_method_token, brought_by, brought, last_row, AreCommitted};
ghost use Rattle.enc_versions.specs.Version.{newest_of};

use crate::code::Code;
use crate::list::{CodeEntry, CodeList};
use crate::versions::{Slot, Versions};
use enc_base::Token;
use std::alloc::{AllocError, Global};
use std::marker::Model;
use std::rc::Rc;

/// A body that is ready to become the newest of its method.
#[derive(Drop)]
struct Ready {
    method: Token,
    code: Rc<Code>,
}

impl Model for Ready {
    ghost use Rattle.enc_versions.specs.Commit.{NewVersion};

    ghost Value = { NewVersion };

    ghost view = { λ r. record { method = r.method; version = r.code.value } };
}

/// Bodies that may be committed to the versions that made them ready.
#[derive(Drop)]
pub struct NewVersions {
    ready: Vec<Ready>,
}

impl Model for NewVersions {
    ghost use Rattle.std.specs.Prelude.{List, IsTrue};
    ghost use Rattle.std.specs.List.{list_all};
    ghost use Rattle.enc_versions.specs.Commit.{NewVersion, is_method_token};

    ghost Value = { List NewVersion };

    ghost view = { λ n. n.ready.items };

    ghost invariant = { λ n. IsTrue (list_all (λ (v : NewVersion). is_method_token v.method) n.ready.items) };
}

/// An entry made ready.
fn ready_of(alloc: Global, entry: CodeEntry) -> Result<Ready, AllocError>
    requires { IsTrue (is_entry entry) }
    ensures { IfOk result (λ r. r ≡ version_in entry) }
{
    let method = entry.method;
    let code = Rc::new(alloc, Code::from_entry(alloc, entry)?)?;
    Ok(Ready { method, code })
}

/// All entries made ready.
fn all_ready(alloc: Global, entries: Vec<CodeEntry>) -> Result<Vec<Ready>, AllocError>
    requires { IsTrue (list_all is_entry entries.items) }
    ensures ready { IfOk result (λ r. r.items ≡ map version_in entries.items) }
    ensures methods { IfOk result (λ r. IsTrue (list_all (λ (v : NewVersion). is_method_token v.method) r.items)) }
{
    let mut ready = Vec::new(alloc);
    for entry in entries {
        ready.push(ready_of(alloc, entry)?)?;
    }
    Ok(ready)
}

/// The greatest row of those that are ready, 0 where there are none.
#[tactic(auto, using(crate::proofs::Committed::max_of_rest), unfolding(crate::specs::Commit::last_row))]
fn last_row(ready: &[Ready]) -> usize
    ensures { result ≡ last_row ready.now }
{
    let mut last = 0;
    let mut rest = ready;
    while let [new, tail @ ..] = rest {
        last = last.max(new.method.row as usize);
        rest = tail;
    }
    last
}

/// Makes room for so many methods, and changes nothing else.
fn make_room(slots: &mut Vec<Slot>, rows: usize) -> Result<(), AllocError>
    ensures same { slots.new.items ≡ slots.old.items }
    ensures kept { vec_capacity slots.old ≤ vec_capacity slots.new }
    ensures room { OnOk result (rows ≤ vec_capacity slots.new) }
{
    slots.reserve(rows.saturating_sub(slots.len()))
}

/// Methods without bodies at the end, so that there are so many.
#[tactic(auto, using(crate::proofs::Committed::none_more))]
fn lengthen(slots: &mut Vec<Slot>, rows: usize)
    requires { rows ≤ vec_capacity slots.old }
    ensures count { length slots.new.items ≡ max (length slots.old.items) rows }
    ensures same { (method : TheToken) → newest_of slots.new.items method ≡ newest_of slots.old.items method }
    ensures capacity { vec_capacity slots.new ≡ vec_capacity slots.old }
{
    while slots.len() < rows {
        slots.push_reserved(Slot { code: None });
    }
}

/// Puts a body in its method's place.
#[tactic(auto, using(crate::proofs::Committed::newest_put))]
fn put(slots: &mut Vec<Slot>, new: Ready)
    requires method { IsTrue (is_method_token new.method) }
    requires row { new.method.row ≤ length slots.old.items }
    ensures count { length slots.new.items ≡ length slots.old.items }
    ensures newest { (method : TheToken)
        → newest_of slots.new.items method ≡ or_else (brought_by new method) (newest_of slots.old.items method) }
    ensures capacity { vec_capacity slots.new ≡ vec_capacity slots.old }
{
    let at = new.method.row as usize - 1;
    slots[at] = Slot {
        code: Some(new.code),
    };
}

/// Puts bodies in their methods' places, in order.
fn put_all(slots: &mut Vec<Slot>, ready: Vec<Ready>)
    requires methods { IsTrue (list_all (λ (v : NewVersion). is_method_token v.method) ready.items) }
    requires rows { last_row ready.items ≤ length slots.old.items }
    ensures count { length slots.new.items ≡ length slots.old.items }
    ensures newest { (method : TheToken)
        → newest_of slots.new.items method ≡ or_else (brought ready.items method) (newest_of slots.old.items method) }
    ensures capacity { vec_capacity slots.new ≡ vec_capacity slots.old }
{
    for new in ready {
        put(slots, new);
    }
}

impl Versions {
    /// Makes bodies ready to become the newest of their methods, and room for rows past the last: all
    /// memory is taken here, and nothing else that is seen changes.
    pub fn prepare(&mut self, codes: CodeList) -> Result<NewVersions, AllocError>
        ensures methods { self.new.methods ≡ self.old.methods }
        ensures kept { self.old.capacity ≤ self.new.capacity }
        ensures ready { IfOk result (λ new. new ≡ map version_in codes) }
        ensures room { IfOk result (λ new. last_row new ≤ self.new.capacity) }
    {
        let ready = all_ready(self.alloc, codes.into_vec())?;
        make_room(&mut self.slots, last_row(&ready))?;
        Ok(NewVersions { ready })
    }

    /// Lets bodies become the newest of their methods; of two for one method the later one does. Rows
    /// past the last come to be, without bodies where none was brought. It takes no memory and can't
    /// fail. Whoever holds an older body keeps it.
    pub fn commit(&mut self, new: NewVersions)
        requires { last_row new ≤ self.old.capacity }
        ensures committed { AreCommitted new self.old.methods self.new.methods }
        ensures capacity { self.new.capacity ≡ self.old.capacity }
    {
        let ready = new.ready;
        lengthen(&mut self.slots, last_row(&ready));
        put_all(&mut self.slots, ready);
    }
}
