//! Initial bytes of fields in the code of an image that is written (ECMA-335 II.22.18).
ghost use Rattle.std.specs.Prelude.{◌≡◌, ◌+◌, ◌<◌, ◌≤◌, ◌^◌, ◌++◌, ℕ, List, length, IfOk, OnOk};
ghost use Rattle.enc_plain.specs.Sound.{row_count};
ghost use Rattle.enc_rewriter.specs.Placed.{IsFieldPlaced};
ghost use Rattle.enc_rewriter.specs.Standing.{IsFieldCellPlaced, AreFieldsPlaced, fields_before};
ghost use Rattle.enc_rewriter.specs.Weight.{fields_weight};
ghost use Rattle.enc_base.specs.Tables.{field_rva};

use enc_base::tables::FIELD_RVA;
use enc_base::{Token, push_zeros};
use enc_pe::CODE_RVA;
use enc_plain::ModuleView;
use std::alloc::{AllocError, Global};

/// Writes bytes behind the code, at a multiple of eight, and answers their RVA.
#[tactic(auto, using(crate::proofs::FieldsPlaced::written_placed))]
fn push_bytes(bytes: &[u8], out: &mut Vec<u8>) -> Result<u32, AllocError>
    requires some { 0 < length bytes.now }
    requires room { length out.old.items + length bytes.now < 2 ^ 31 + 8192 }
    ensures placed { IfOk result (λ rva. IsFieldPlaced out.new.items bytes.now rva) }
    ensures grows { OnOk result ((rest : List ℕ) × (out.new.items ≡ out.old.items ++ rest)) }
    ensures size { OnOk result (length out.new.items ≤ length out.old.items + (8 + length bytes.now)) }
{
    push_zeros((8 - out.len() % 8) % 8, out)?;
    let place = out.len() as u32;
    out.extend_from_slice(bytes)?;
    Ok(CODE_RVA + place)
}

/// Writes the bytes of a row of FieldRVA behind the code, and answers their RVA, 0 where there are
/// none. Rows count from 0 here.
fn push_field<V: ModuleView>(view: &V, n: u32, out: &mut Vec<u8>) -> Result<u32, AllocError>
    requires few { n < 2 ^ 24 }
    requires row { n < row_count (V.meaning view.now) field_rva }
    requires room { length out.old.items + fields_weight (V.meaning view.now)
        < 2 ^ 31 + 8192 + fields_before (V.meaning view.now) n }
    ensures placed { IfOk result (λ rva. IsFieldCellPlaced (V.meaning view.now) out.new.items n rva) }
    ensures grows { OnOk result ((rest : List ℕ) × (out.new.items ≡ out.old.items ++ rest)) }
    ensures size { OnOk result (length out.new.items + fields_before (V.meaning view.now) n
        ≤ length out.old.items + fields_before (V.meaning view.now) (n + 1)) }
{
    let bytes = view.field_bytes(Token {
        table: FIELD_RVA,
        row: n + 1,
    });
    if bytes.is_empty() {
        return Ok(0);
    }
    push_bytes(bytes, out)
}

/// Writes the bytes of all rows of FieldRVA, and answers the RVA of each.
pub(crate) fn place_fields<V: ModuleView>(
    alloc: Global,
    view: &V,
    out: &mut Vec<u8>,
) -> Result<Vec<u32>, AllocError>
    requires room { length out.old.items + fields_weight (V.meaning view.now) < 2 ^ 31 + 8192 }
    ensures count { IfOk result (λ v. length v.items ≡ row_count (V.meaning view.now) field_rva) }
    ensures placed { IfOk result (λ v. AreFieldsPlaced (V.meaning view.now) out.new.items v.items
        (row_count (V.meaning view.now) field_rva)) }
    ensures grows { OnOk result ((rest : List ℕ) × (out.new.items ≡ out.old.items ++ rest)) }
    ensures size { OnOk result (length out.new.items ≤ length out.old.items + fields_weight (V.meaning view.now)) }
{
    let mut fields = Vec::new(alloc);
    for n in 0..view.count(FIELD_RVA) {
        match push_field(view, n, out) {
            Ok(rva) => fields.push(rva)?,
            Err(fault) => return Err(fault),
        }
    }
    Ok(fields)
}
