//! The Module row of the delta that stands for two (ECMA-335 II.22.30).
ghost use Rattle.std.specs.Prelude.{◌≡◌, ◌∷◌, [], ℕ, List, slice_index, OnOk, if◌then◌else◌, nat_lt, length, ◌/◌};
ghost use Rattle.enc_delta.specs.Rules.{module_token};
ghost use Rattle.enc_rows.specs.Source.{raw_in};
ghost use Rattle.enc_rows.specs.Written.{rows_at};
ghost use Rattle.enc_base.specs.Tables.{«module»};
ghost use Rattle.enc_merge.specs.Writing.{IsModuleHeld, StayBut};

use crate::last::Last;
use enc_base::Token;
use enc_base::tables::MODULE;
use enc_delta::Delta;
use enc_rows::TableBuilder;
use enc_schema::columns::{MODULE_ENC_BASE_ID, MODULE_ENC_ID, MODULE_GENERATION, MODULE_MVID};
use std::alloc::AllocError;

/// The Module row.
const MODULE_ROW: Token = Token {
    table: MODULE,
    row: 1,
};

/// The number of a GUID of a delta's Module row; 0, which is nil, where it can't be read.
fn guid_number(delta: &Delta, column: u8) -> u32
    ensures { result ≡ (if nat_lt (length delta.now.heaps.guids / 16) (raw_in delta.now module_token column) then 0
        else raw_in delta.now module_token column) }
{
    let number = delta.cell(MODULE_ROW, column);
    if number > delta.lengths().guids {
        return 0;
    }
    number
}

/// Adds the Module row: the first one's generation, no name, the Mvid, the second one's EncId, and the
/// EncBaseId of the first.
#[tactic(auto, using(crate::proofs::ModuleNumbers::some_columns, crate::proofs::ModuleNumbers::five_columns))]
pub(crate) fn push_module(last: &Last<'_>, tables: &mut TableBuilder) -> Result<(), AllocError>
    requires none { rows_at tables.old «module» ≡ [] }
    ensures single { OnOk result ((row : List ℕ)
        × ((rows_at tables.new «module» ≡ row ∷ []) × IsModuleHeld last.now (slice_index row))) }
    ensures others { OnOk result (StayBut «module» tables.old tables.new) }
{
    last.aggregate();
    let generation = last.first.cell(MODULE_ROW, MODULE_GENERATION);
    let mvid = guid_number(last.first, MODULE_MVID);
    let enc_id = guid_number(last.second, MODULE_ENC_ID);
    let base = guid_number(last.first, MODULE_ENC_BASE_ID);
    tables.push(MODULE, &[generation, 0, mvid, enc_id, base])?;
    Ok(())
}
