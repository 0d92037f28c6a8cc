//! The rules of a delta's metadata, each kept by a delta that stands for two that break none: contracts of
//! functions that do nothing.
ghost use Rattle.enc_delta.specs.Rules.{other_module, not_next, other_base, id_taken, heap_fault, uneven_table, closed_table, bad_index, bad_offset, broken_body, lost_body, too_many};
ghost use Rattle.enc_delta.specs.Judged.{late_token, skipped_row, unmatched_token, bad_entry, unowned_child};
ghost use Rattle.enc_delta.specs.Changes.{altered_cell, field_out_of_layout, method_without_slot, twin_member, bad_signature, bad_locals};
ghost use Rattle.enc_merged_delta.specs.Laws.{KeepsMerged};

/// E1: its Mvid is the base's.
pub fn other_module_law()
    ensures { KeepsMerged other_module }
{}

/// E2: its generation is the next.
pub fn not_next_law()
    ensures { KeepsMerged not_next }
{}

/// E3: its EncBaseId is the last EncId.
pub fn other_base_law()
    ensures { KeepsMerged other_base }
{}

/// E4: its EncId isn't nil and wasn't used.
pub fn id_taken_law()
    ensures { KeepsMerged id_taken }
{}

/// E5: the joined heaps are within their limits.
pub fn heap_fault_law()
    ensures { KeepsMerged heap_fault }
{}

/// E6: its EncMap rises.
pub fn late_token_law()
    ensures { KeepsMerged late_token }
{}

/// E7: each table has as many rows as tokens.
pub fn uneven_table_law()
    ensures { KeepsMerged (λ c s. uneven_table s) }
{}

/// E8: each new row is the next of its table.
pub fn skipped_row_law()
    ensures { KeepsMerged skipped_row }
{}

/// E9: EncMap and EncLog have the same tokens.
pub fn unmatched_token_law()
    ensures { KeepsMerged unmatched_token }
{}

/// E10: each entry that gives a child to an owner stands before the child's own, which is the next new row.
pub fn bad_entry_law()
    ensures { KeepsMerged bad_entry }
{}

/// E11: each new child has one such entry.
pub fn unowned_child_law()
    ensures { KeepsMerged unowned_child }
{}

/// E12: it has rows only in tables that may change.
pub fn closed_table_law()
    ensures { KeepsMerged (λ c s. closed_table s) }
{}

/// E13: each index names a row that is there after it.
pub fn bad_index_law()
    ensures { KeepsMerged bad_index }
{}

/// E14: each offset is one of its heap.
pub fn bad_offset_law()
    ensures { KeepsMerged bad_offset }
{}

/// E15: an updated row says what it said.
pub fn altered_cell_law()
    ensures { KeepsMerged altered_cell }
{}

/// E16: each body is good.
pub fn broken_body_law()
    ensures { KeepsMerged broken_body }
{}

/// E17: no method loses its body.
pub fn lost_body_law()
    ensures { KeepsMerged lost_body }
{}

/// E18: no field comes to a type that has no place for it.
pub fn field_out_of_layout_law()
    ensures { KeepsMerged field_out_of_layout }
{}

/// E19: no method comes to a type that has no slot for it.
pub fn method_without_slot_law()
    ensures { KeepsMerged method_without_slot }
{}

/// E20: no new member has a twin.
pub fn twin_member_law()
    ensures { KeepsMerged twin_member }
{}

/// E21: each signature is one.
pub fn bad_signature_law()
    ensures { KeepsMerged bad_signature }
{}

/// E23: each local signature is one of locals.
pub fn bad_locals_law()
    ensures { KeepsMerged bad_locals }
{}

/// E24: it isn't one delta too many, and no table has too many rows.
pub fn too_many_law()
    ensures { KeepsMerged too_many }
{}
