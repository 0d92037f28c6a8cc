//! The newest body of each method.
ghost use Rattle.std.specs.Prelude.{◌≡◌, ◌<◌, length, option_map, IsTrue, IfOk};
ghost use Rattle.enc_plain.specs.Module.{rows_in, has_row};
ghost use Rattle.enc_base.specs.Tables.{method_def};
ghost use Rattle.enc_base.specs.Token.{nth_row};
ghost use Rattle.enc_versions.specs.Shared.{AreShared};
ghost use Rattle.enc_versions.specs.StandFor.{IsVersionOf, AreVersionsOf, lines_read, lines_known};
ghost use Rattle.enc_versions.specs.Version.{newest_of};

use crate::code::Code;
use crate::shared::Shared;
use enc_base::Token;
use enc_base::tables::METHOD_DEF;
use enc_plain::{ModuleView, PointSource};
use enc_seqpoints::Points;
use std::alloc::{AllocError, Global};
use std::marker::Model;
use std::rc::Rc;

/// The newest body of a method, None where it has none.
#[derive(Drop)]
pub(crate) struct Slot {
    pub(crate) code: Option<Rc<Code>>,
}

impl Model for Slot {
    ghost use Rattle.std.specs.Prelude.{Option, option_map};
    ghost use Rattle.enc_versions.specs.Version.{Version};

    ghost Value = { Option Version };

    ghost view = { λ s. option_map (λ c. c.value) s.code };
}

/// The newest body of each method, with its sequence points.
#[derive(Drop)]
pub struct Versions {
    pub(crate) slots: Vec<Slot>,
    pub(crate) alloc: Global,
}

impl Model for Versions {
    ghost use Rattle.std.specs.Prelude.{vec_capacity};
    ghost use Rattle.enc_versions.specs.Version.{VersionTable};

    ghost Value = { VersionTable };

    ghost view = { λ v. record { methods = v.slots.items; capacity = vec_capacity v.slots } };
}

/// The points of a method, of whose documents nothing is said.
#[tactic(auto, using(crate::proofs::Lines::known_as_read))]
fn points_of<P: PointSource>(alloc: Global, points: &P, method: Token) -> Result<Points, AllocError>
    ensures { IfOk result (λ p. lines_read p ≡ lines_known (P.debug points.now method)) }
{
    points.points(alloc, method)
}

/// The body of a method, with its points.
fn slot_of<V: ModuleView, P: PointSource>(
    alloc: Global,
    view: &V,
    points: &P,
    shared: &mut Shared,
    method: Token,
) -> Result<Slot, AllocError>
    requires row { IsTrue (has_row (V.meaning view.now) method) }
    requires table { method.table ≡ method_def }
    requires shared { AreShared (V.users view.now) (V.places view.now) shared.old }
    ensures shared { IfOk result (λ _. AreShared (V.users view.now) (V.places view.now) shared.new) }
    ensures version { IfOk result (λ s. IsVersionOf (V.users view.now) (V.meaning view.now)
        (P.debug points.now) method s) }
{
    let Some(stored) = shared.body(view, method)? else {
        return Ok(Slot { code: None });
    };
    let points = points_of(alloc, points, method)?;
    let code = Rc::new(alloc, Code::of(alloc, stored, points)?)?;
    Ok(Slot { code: Some(code) })
}

/// The n-th method of a module, from 0.
#[tactic(auto, unfolding(enc_plain::specs::Module::has_row))]
fn nth_method<V: ModuleView>(view: &V, n: u32) -> Token
    requires { n < length (rows_in (V.meaning view.now) method_def) }
    ensures method { result ≡ nth_row method_def n }
    ensures row { IsTrue (has_row (V.meaning view.now) result) }
{
    let _ = view.count(METHOD_DEF);
    Token {
        table: METHOD_DEF,
        row: n + 1,
    }
}

/// The bodies of all methods, with their points.
#[tactic(auto, using(crate::proofs::Begun::begun_steps))]
fn slots_of<V: ModuleView, P: PointSource>(
    alloc: Global,
    view: &V,
    points: &P,
) -> Result<Vec<Slot>, AllocError>
    ensures count { IfOk result (λ s. length s.items ≡ length (rows_in (V.meaning view.now) method_def)) }
    ensures versions { IfOk result
        (λ s. AreVersionsOf (V.users view.now) (V.meaning view.now) (P.debug points.now) s.items) }
{
    let mut shared = Shared::new(alloc);
    let mut slots = Vec::new(alloc);
    for n in 0..view.count(METHOD_DEF) {
        let method = nth_method(view, n);
        slots.push(slot_of(alloc, view, points, &mut shared, method)?)?;
    }
    Ok(slots)
}

impl Versions {
    /// The bodies of all methods of a module and their points. Methods that share a body share its
    /// bytes in memory.
    pub fn begin<V: ModuleView, P: PointSource>(
        alloc: Global,
        view: &V,
        points: &P,
    ) -> Result<Versions, AllocError>
        ensures count { IfOk result (λ v. length v.methods ≡ length (rows_in (V.meaning view.now) method_def)) }
        ensures versions { IfOk result
            (λ v. AreVersionsOf (V.users view.now) (V.meaning view.now) (P.debug points.now) v.methods) }
    {
        let slots = slots_of(alloc, view, points)?;
        Ok(Versions { slots, alloc })
    }

    /// The newest body of a method, None where it has none, and for a token that names no method.
    #[tactic(auto, unfolding(crate::specs::Version::newest_of))]
    pub fn newest(&self, method: Token) -> Option<&Rc<Code>>
        ensures { option_map (λ c. c.now.value) result ≡ newest_of self.now.methods method }
    {
        if method.table != METHOD_DEF || method.row == 0 {
            return None;
        }
        let slot = self.slots.get(method.row as usize - 1)?;
        slot.code.as_ref()
    }
}
