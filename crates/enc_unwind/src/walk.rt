//! The walk over the clauses of a body (ECMA-335 II.25.4.5, II.25.4.6).
ghost use Rattle.std.specs.Prelude.{◌≡◌, ◌+◌, ◌<◌, ◌^◌, length, map, is_some, IsTrue};
ghost use Rattle.enc_il.specs.Seen.{all_sections};
ghost use Rattle.enc_opcodes.specs.Body.{handler_meant};
ghost use Rattle.enc_opcodes.specs.Clause.{clauses_in};
ghost use Rattle.enc_unwind.specs.Search.{first_clause, handlers_of};
ghost use Rattle.enc_unwind.specs.Walk.{first_from};

use crate::passing::ClauseTest;
use enc_il::{SectionRef, behind_sections, clause_front, clause_size, rest_at, section_front};

/// The number of the first clause of a section that passes, where the section's first has this number.
fn first_in<T: ClauseTest>(section: &SectionRef<'_>, first: u32, test: &T) -> Option<u32>
    requires { first + section.now.count < 2 ^ 32 }
    ensures { result ≡ first_from (T.test test.now) first
        (map handler_meant (clauses_in section.now.fat section.now.count section.now.clauses.now)) }
{
    let mut rest = section.clauses;
    for i in 0..section.count {
        if test.passes(first + i, clause_front(section.fat, rest)) {
            return Some(first + i);
        }
        rest = rest_at(rest, clause_size(section.fat));
    }
    None
}

/// The number, from 0, of the first clause of these sections that passes. The sections stand whole.
fn first_in_sections<T: ClauseTest>(sections: &[u8], test: &T) -> Option<u32>
    requires whole { IsTrue (is_some (all_sections sections.now)) }
    requires few { length sections.now < 2 ^ 32 }
    ensures { result ≡ first_from (T.test test.now) 0 (handlers_of sections.now) }
{
    let mut rest = sections;
    let mut first = 0;
    while let Some((section, behind)) = section_front(rest) {
        let found = first_in(&section, first, test);
        if found.is_some() {
            return found;
        }
        if !section.more {
            return None;
        }
        first += section.count;
        rest = behind;
    }
    None
}

/// The number, from 0, of the first clause of a body's sections that passes, None where none does.
/// Sections of which one isn't whole have none. The time is linear in the bytes of the sections, and
/// in what the tests take.
pub(crate) fn first_clause<T: ClauseTest>(sections: &[u8], test: &T) -> Option<u32>
    requires { length sections.now < 2 ^ 32 }
    ensures { result ≡ first_clause (T.test test.now) (handlers_of sections.now) }
{
    match behind_sections(sections) {
        None => None,
        Some(_) => first_in_sections(sections, test),
    }
}
