//! Which bodies the interpreter runs.
ghost use Rattle.std.specs.Prelude.{◌≡◌, length, map, not, is_some, IsTrue};
ghost use Rattle.std.specs.List.{list_any};
ghost use Rattle.enc_il.specs.Seen.{all_sections};
ghost use Rattle.enc_opcodes.specs.Body.{body_of, code_seen};
ghost use Rattle.enc_opcodes.specs.Clause.{clauses_in, clauses_of};
ghost use Rattle.enc_machine_types.specs.Filters.{filters};
ghost use Rattle.enc_machine_types.specs.Members.{runs_body};

use crate::members::local_kinds;
use enc_il::{SectionRef, behind_sections, clause_front, clause_size, rest_at, section_front};
use enc_opcodes::CodeRef;
use enc_plain::ModuleView;

/// Whether a clause of a section asks a filter (ECMA-335 II.25.4.6).
fn filters_in(section: &SectionRef<'_>) -> bool
    ensures { result ≡ list_any filters (clauses_in section.now.fat section.now.count section.now.clauses.now) }
{
    let mut rest = section.clauses;
    for i in 0..section.count {
        if clause_front(section.fat, rest).kind == 1 {
            return true;
        }
        rest = rest_at(rest, clause_size(section.fat));
    }
    false
}

/// Whether a clause of these sections asks a filter, which stand whole.
fn filters_in_sections(sections: &[u8]) -> bool
    requires { IsTrue (is_some (all_sections sections.now)) }
    ensures { result ≡ list_any filters (clauses_of sections.now) }
{
    let mut rest = sections;
    while let Some((section, behind)) = section_front(rest) {
        if filters_in(&section) {
            return true;
        }
        if !section.more {
            return false;
        }
        rest = behind;
    }
    false
}

/// Whether a clause of a body asks a filter. Sections of which one isn't whole have no clauses.
fn has_filter(code: &CodeRef<'_>) -> bool
    ensures { result ≡ list_any filters (clauses_of code.now.sections.now) }
{
    match behind_sections(code.sections) {
        None => false,
        Some(_) => filters_in_sections(code.sections),
    }
}

/// Whether the interpreter runs a body: its local variables have kinds, and no clause asks a filter
/// (ECMA-335 II.25.4.4, II.25.4.6).
#[tactic(auto, using(crate::proofs::FilterClauses::runs_is))]
pub fn runs_body<V: ModuleView>(view: &V, code: &CodeRef<'_>) -> bool
    ensures { result ≡ runs_body (V.meaning view.now) (body_of (V.users view.now) (code_seen code.now)) }
{
    local_kinds(view, code.locals).is_some() && !has_filter(code)
}
