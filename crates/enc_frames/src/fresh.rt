//! Frames at their methods' first instructions (ECMA-335 I.12.3.2).
ghost use Rattle.std.specs.Prelude.{◌≡◌, [], map, unwrap_or, IfOk};
ghost use Rattle.enc_machine_types.specs.Members.{local_kinds};
ghost use Rattle.enc_objects.specs.Values.{default_of};
ghost use Rattle.enc_base.specs.Tables.{method_def};
ghost use Rattle.enc_frames.specs.FramesSeen.{frame_at};

use crate::arguments::defaults;
use crate::cells::Cells;
use crate::frame::Frame;
use crate::handlers::RunningHandlers;
use crate::stack::Stack;
use enc_base::Token;
use enc_machine_types::local_kinds;
use enc_objects::Value;
use enc_plain::ModuleView;
use enc_versions::Code;
use std::alloc::{AllocError, Global};
use std::rc::Rc;

/// The defaults of the local variables of a signature, none where one of them has no kind (ECMA-335
/// II.23.2.6).
fn first_locals<V: ModuleView>(
    alloc: Global,
    view: &V,
    locals: Token,
) -> Result<Vec<Value>, AllocError>
    ensures { IfOk result (λ l. l.items ≡ map default_of (unwrap_or (local_kinds (V.meaning view.now) locals) [])) }
{
    match local_kinds(view, locals) {
        None => Ok(Vec::new(alloc)),
        Some(kinds) => defaults(alloc, &kinds),
    }
}

/// A frame at its method's first instruction, with these arguments and an empty stack.
pub fn new_frame<V: ModuleView>(
    alloc: Global,
    view: &V,
    method: Token,
    code: Rc<Code>,
    args: Vec<Value>,
) -> Result<Frame, AllocError>
    requires { method.table ≡ method_def }
    ensures { IfOk result (λ f. f ≡ frame_at (V.meaning view.now) method code.value args.items) }
{
    let locals = first_locals(alloc, view, code.as_ref().body().locals)?;
    Ok(Frame {
        method,
        code,
        offset: 0,
        args: Cells::of(args),
        locals: Cells::of(locals),
        stack: Stack::begin(alloc),
        running: RunningHandlers::begin(alloc),
    })
}
