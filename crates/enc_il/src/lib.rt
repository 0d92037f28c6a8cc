//! Method bodies: their headers, instructions and exception clauses (ECMA-335 II.25.4, III.1.2).
#![tactic(auto)]

mod arg;
mod body;
mod bytes;
mod clauses;
mod instr;
mod judge;
mod laws;
mod marks;
mod section;
mod texts;
mod walk;
mod write;

pub use body::{BodyFault, read_body};
pub use bytes::rest_at;
pub use clauses::{clause, clause_front};
pub use instr::instr_at;
pub use judge::{first_bad, is_good_body};
pub use laws::{body_law, written_body_law, written_clauses_law};
pub use marks::{is_start, starts_of};
pub use section::{SectionRef, behind_sections, clause_size, section_front};
pub use texts::{UserTexts, texts_are_there};
pub use write::write_body;
