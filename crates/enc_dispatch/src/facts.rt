//! What the index keeps of rows, so that it isn't read again where it is asked for.
ghost use Rattle.std.specs.Prelude.{◌≡◌, Some, IsTrue};
ghost use Rattle.enc_base.specs.Tables.{method_def};
ghost use Rattle.enc_plain.specs.Module.{has_row, owner_of};
ghost use Rattle.enc_dispatch.specs.Index.{StandsForModule};
ghost use Rattle.enc_dispatch.specs.Stored.{kept_local, kind_of_local};
ghost use Rattle.enc_dispatch.specs.Parts.{nth_part};

use crate::dispatch::Dispatch;
use crate::method_part::MethodPart;
use crate::path::nth_part;
use enc_base::Token;
use enc_base::tables::STAND_ALONE_SIG;
use enc_machine_types::local_kind_at;
use enc_objects::Kind;
use enc_plain::ModuleView;

impl Dispatch {
    /// What is kept of the kind of a local variable, None where nothing is.
    #[inline(always)]
    #[tactic(auto, unfolding(crate::specs::Stored::kept_local))]
    fn kept_local(&self, locals: Token, n: u32) -> Option<Option<Kind>>
        ensures { result ≡ kept_local self.now locals n }
    {
        if locals.table != STAND_ALONE_SIG {
            return None;
        }
        let part = nth_part(&self.locals, locals.row)?;
        part.kinds.get(n as usize).copied()
    }

    /// The kind of a local variable, by its number from 0 and the signature that its body names, None where it has
    /// none (ECMA-335 II.25.4.4, II.23.2.6). Those of the first eight are kept: no signature is read for them.
    #[inline(always)]
    pub fn local_kind<V: ModuleView>(&self, view: &V, locals: Token, n: u32) -> Option<Kind>
        requires stands { StandsForModule self.now (V.meaning view.now) }
        ensures { result ≡ kind_of_local (V.meaning view.now) locals n }
    {
        match self.kept_local(locals, n) {
            Some(kind) => kind,
            None => local_kind_at(view, locals, n),
        }
    }

    /// The part of a method.
    fn method(&self, row: u32) -> Option<MethodPart>
        ensures { result ≡ nth_part self.now.methods row }
    {
        nth_part(&self.methods, row)
    }

    /// The type that declares a method (ECMA-335 II.22.37). It is kept.
    #[inline(always)]
    pub fn owner<V: ModuleView>(&self, _view: &V, method: Token) -> Token
        requires stands { StandsForModule self.now (V.meaning _view.now) }
        requires row { IsTrue (has_row (V.meaning _view.now) method) }
        requires table { method.table ≡ method_def }
        ensures { owner_of (V.meaning _view.now) method ≡ Some result }
    {
        match self.method(method.row) {
            Some(part) => part.owner,
            None => unreachable!(),
        }
    }
}
