//! The bodies of an aggregate, by its own user texts or by more of them.
ghost use Rattle.std.specs.Prelude.{◌≡◌, ℕ, ◌<◌, ◌^◌, ◌==◌, List, Option, Some, IsTrue, IfSome, is_some, length, not, option_map};
ghost use Rattle.enc_opcodes.specs.Body.{body_of, code_seen, texts_are_there, KeepsTexts};
ghost use Rattle.enc_plain.specs.Cell.{body};
ghost use Rattle.enc_plain.specs.Module.{has_row, cell_of};
ghost use Rattle.enc_base.specs.Tables.{method_def};
ghost use Rattle.enc_agg.specs.Seen.{module_of_all, users_of_all, body_with, place_of_all};
ghost use Rattle.enc_agg.specs.Stored.{code_stored};

use crate::added::{body_in, number};
use crate::aggregate::Aggregate;
use crate::directory::find;
use crate::view::row_found;
use enc_base::Token;
use enc_opcodes::CodeRef;
use enc_schema::columns::METHOD_DEF_RVA;

/// A place in a generation's file, among those of all files; 0 for none.
pub fn place_of_all(generation: u32, place: u32) -> u64
    ensures { result ≡ place_of_all generation place }
{
    if place == 0 {
        return 0;
    }
    u64::from(generation) * 0x1_0000_0000 + u64::from(place)
}

impl Aggregate {
    /// The parts of a method's body as they stand in the newest file that has it, None where the method
    /// has none. They mean its body by the user texts of all, and by more of them; each text that they
    /// name is there.
    pub fn code_of(&self, method: Token) -> Option<CodeRef<'_>>
        requires row { IsTrue (has_row (module_of_all self.now) method) }
        requires table { method.table ≡ method_def }
        ensures stored { option_map code_seen result ≡ code_stored self.now.base self.now.deltas method }
        ensures body { (texts : ℕ → Option (List ℕ)) → KeepsTexts (users_of_all self.now) texts
            → cell_of (module_of_all self.now) method 0
            ≡ Some (body (option_map (λ c. body_of texts (code_seen c)) result)) }
        ensures texts { IfSome result (λ c. IsTrue (texts_are_there (users_of_all self.now) c.code.now)) }
        ensures few { IfSome result (λ c. length c.code.now < 2 ^ 32) }
        ensures short { IfSome result (λ c. length c.sections.now < 2 ^ 32) }
    {
        let Some(found) = find(&self.added, &self.directory, method) else {
            return self.image.body(method);
        };
        let place = number(
            found.upto,
            row_found(method.table, found.row),
            METHOD_DEF_RVA,
        );
        body_in(found.upto, place)
    }

    /// The place of a method's body among those of all files, 0 where it has none.
    pub(crate) fn place_of_code(&self, method: Token) -> u64
        requires row { IsTrue (has_row (module_of_all self.now) method) }
        requires table { method.table ≡ method_def }
        ensures body { (texts : ℕ → Option (List ℕ)) → KeepsTexts (users_of_all self.now) texts
            → cell_of (module_of_all self.now) method 0 ≡ Some (body (body_with texts self.now result)) }
        ensures some { (texts : ℕ → Option (List ℕ)) → is_some (body_with texts self.now result) ≡ not (result == 0) }
    {
        let Some(found) = find(&self.added, &self.directory, method) else {
            return place_of_all(0, self.image.rva(method));
        };
        let place = number(
            found.upto,
            row_found(method.table, found.row),
            METHOD_DEF_RVA,
        );
        place_of_all(found.upto.len() as u32, place)
    }
}
