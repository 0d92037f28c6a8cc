//! Edit lists: rows that are added and bodies that are replaced, stated by their values.
#![tactic(auto)]

mod added;
mod body;
mod edit;
mod list;
mod size;

pub use added::Added;
pub use body::{ArgValue, BodyValue, ClauseList, InstrList, InstrValue, TargetList};
pub use edit::{Cell, Cells, DocumentValue, Documents, Edit, EditList, Edits, PointList};
pub use list::ListOf;
pub use size::instruction_size;
