//! A module in the order of an ordinary one.
ghost use Rattle.std.specs.Prelude.{◌≡◌, IfOk};
ghost use Rattle.enc_compact.specs.Moved.{pdb_moved};
ghost use Rattle.enc_row_order.specs.Orders.{new_order};
ghost use Rattle.enc_plain.specs.Sound.{IsSound};
ghost use Rattle.enc_schema.specs.Schema.{list_at};

use crate::bodies::HeldBodies;
use crate::module::MovedModule;
use crate::points::PlainPoints;
use crate::signatures::HeldSignatures;
use enc_plain::{ModuleView, PointSource};
use enc_row_order::Order;
use std::alloc::{AllocError, Global};
use std::rc::Rc;

/// A module in the order of an ordinary one, the points of its methods, and where its rows went.
#[derive(Drop)]
pub struct Compacted<'a, V: ModuleView, P: PointSource> {
    pub module: MovedModule<'a, V>,
    pub points: PlainPoints<'a, P>,
    pub order: Rc<Order>,
}

/// A module and its points in the order of an ordinary module (ECMA-335 II.22): types behind those around
/// them; fields, methods, parameters, events and properties by their owners, in order of attachment; tables
/// that loaders search by halves by their keys; all else as it was. Each token is moved with its row: in
/// cells, bodies, clauses and signatures, whose spelling becomes the shortest; the entry point where it is
/// the number of a row. Rows of EventMap and PropertyMap stay, so their parents needn't rise.
///
/// The view and the points are lent. Bodies and signatures whose bytes change are held, each once for its
/// place (a signature once for each table that has it). What is saved of the result is an ordinary module
/// (`rewrite`).
pub fn compact<'a, V: ModuleView, P: PointSource>(
    alloc: Global,
    view: &'a V,
    points: &'a P,
) -> Result<Compacted<'a, V, P>, AllocError>
    requires sound { IsSound (V.meaning view.now) }
    ensures module { IfOk result (λ c. c.module ≡ view.now) }
    ensures points { IfOk result (λ c. ⟦<PlainPoints<'static, P> as PointSource>⟧.debug c.points ≡ pdb_moved
        (V.meaning view.now) (P.debug points.now)) }
    ensures order { IfOk result (λ c. list_at c.order.value ≡ new_order (V.meaning view.now)) }
{
    let order = Rc::new(alloc, Order::of(alloc, view)?)?;
    let bodies = HeldBodies::of(alloc, view, &order)?;
    let signatures = HeldSignatures::of(alloc, view, &order)?;
    Ok(Compacted {
        module: MovedModule {
            view,
            order: order.clone()?,
            bodies,
            signatures,
        },
        points: PlainPoints {
            points,
            order: order.clone()?,
        },
        order,
    })
}
