//! The delta of an edit list: what its metadata says, that it is read so, that it breaks no rule, and which
//! module it makes.
#![tactic(auto)]

mod laws;
mod rules;

pub use laws::{deltas_are_read_law, deltas_follow_law, deltas_mean_law};
pub use rules::{
    altered_cell_law, bad_entry_law, bad_index_law, bad_locals_law, bad_offset_law,
    bad_signature_law, broken_body_law, closed_table_law, field_out_of_layout_law, heap_fault_law,
    id_taken_law, late_token_law, lost_body_law, method_without_slot_law, not_next_law,
    other_base_law, other_module_law, skipped_row_law, too_many_law, twin_member_law,
    uneven_table_law, unmatched_token_law, unowned_child_law,
};
