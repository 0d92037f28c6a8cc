//! Two deltas that follow one another, and the delta that stands for both: that it breaks no rule, and which
//! module it makes.
#![tactic(auto)]

mod laws;
mod rules;

pub use laws::{
    merged_follows_law, merged_is_named_law, merged_means_law, numbers_are_held_law,
    pairs_are_of_both_law, rows_are_of_both_law,
};
pub use rules::{
    altered_cell_law, bad_entry_law, bad_index_law, bad_locals_law, bad_offset_law,
    bad_signature_law, broken_body_law, closed_table_law, field_out_of_layout_law, heap_fault_law,
    id_taken_law, late_token_law, lost_body_law, method_without_slot_law, not_next_law,
    other_base_law, other_module_law, skipped_row_law, too_many_law, twin_member_law,
    uneven_table_law, unmatched_token_law, unowned_child_law,
};
