//! The Module row of a delta (ECMA-335 II.22.30).
ghost use Rattle.std.specs.Prelude.{◌≡◌, [], Some, length, IfOk, OnOk};
ghost use Rattle.enc_meta.specs.BuiltLaws.{heaps_joined};
ghost use Rattle.enc_meta.specs.Joined.{joined_guid};
ghost use Rattle.enc_plain.specs.Chain.{mvid_of, id_of};
ghost use Rattle.enc_rows.specs.Written.{rows_at};
ghost use Rattle.enc_base.specs.Tables.{«module»};
ghost use Rattle.enc_list_delta.specs.Holds.{MayFollow, heaps_written};
ghost use Rattle.enc_writer.specs.Stands.{NamesGuids};
ghost use Rattle.enc_writer.specs.Writing.{IsModuleWritten, OthersStay};

use crate::guids::guid_number;
use enc_base::Token;
use enc_base::tables::MODULE;
use enc_edit_list::EditList;
use enc_meta::{BuildFault, HeapBuilder};
use enc_plain::ChainView;
use enc_rows::TableBuilder;
use enc_rules::Context;
use enc_schema::columns::MODULE_MVID;
use std::alloc::AllocError;

/// The number of the base's Mvid.
fn mvid_number<C: ChainView>(chain: &C, list: &EditList) -> u32
    requires may { MayFollow (C.chain chain.now) list.now }
    requires names { NamesGuids (C.chain chain.now) }
    ensures { joined_guid (C.chain chain.now).heaps result ≡ Some (mvid_of (C.chain chain.now)) }
{
    let row = Token {
        table: MODULE,
        row: 1,
    };
    guid_number(chain, chain.guid(row, MODULE_MVID))
}

/// The number of the last EncId; 0 where no delta was applied.
fn last_number<C: ChainView>(chain: &C) -> u32
    requires names { NamesGuids (C.chain chain.now) }
    ensures { joined_guid (C.chain chain.now).heaps result
        ≡ Some (id_of (C.chain chain.now) (length (C.chain chain.now).ids)) }
{
    guid_number(chain, chain.enc_id(chain.generations() - 1))
}

/// The number of the list's EncId.
fn own_number<C: ChainView>(
    chain: &C,
    list: &EditList,
    heaps: &mut HeapBuilder,
) -> Result<u32, AllocError>
    requires may { MayFollow (C.chain chain.now) list.now }
    requires heaps { heaps.old ≡ heaps_written (C.chain chain.now) list.now }
    ensures number { IfOk result (λ k. joined_guid (heaps_joined (C.chain chain.now).heaps
        (heaps_written (C.chain chain.now) list.now)) k ≡ Some list.now.enc_id) }
    ensures same { heaps.new ≡ heaps.old }
{
    heaps.laws();
    match heaps.add_guid(list.enc_id) {
        Ok(number) => Ok(number),
        Err(BuildFault::Memory) => Err(AllocError),
        Err(BuildFault::TooLarge(_)) => unreachable!(),
    }
}

/// Adds the Module row: the next generation, no name, and the numbers of the base's Mvid, of the list's
/// EncId and of the last EncId.
fn push_module_of<C: ChainView>(
    chain: &C,
    list: &EditList,
    heaps: &mut HeapBuilder,
    tables: &mut TableBuilder,
) -> Result<(), AllocError>
    requires may { MayFollow (C.chain chain.now) list.now }
    requires names { NamesGuids (C.chain chain.now) }
    requires heaps { heaps.old ≡ heaps_written (C.chain chain.now) list.now }
    requires none { rows_at tables.old «module» ≡ [] }
    ensures single { OnOk result (IsModuleWritten (C.chain chain.now) list.now tables.new) }
    ensures others { OnOk result (OthersStay «module» tables.old tables.new) }
    ensures same { heaps.new ≡ heaps.old }
{
    let generation = chain.generations();
    let mvid = mvid_number(chain, list);
    let enc_id = own_number(chain, list, heaps)?;
    let last = last_number(chain);
    tables.push(MODULE, &[generation, 0, mvid, enc_id, last])?;
    Ok(())
}

/// Adds the Module row of a list after its chain.
pub(crate) fn push_module<C: ChainView>(
    context: &Context<'_, C>,
    heaps: &mut HeapBuilder,
    tables: &mut TableBuilder,
) -> Result<(), AllocError>
    requires may { MayFollow context.now.chain context.now.list }
    requires names { NamesGuids context.now.chain }
    requires heaps { heaps.old ≡ heaps_written context.now.chain context.now.list }
    requires none { rows_at tables.old «module» ≡ [] }
    ensures single { OnOk result (IsModuleWritten context.now.chain context.now.list tables.new) }
    ensures others { OnOk result (OthersStay «module» tables.old tables.new) }
    ensures same { heaps.new ≡ heaps.old }
{
    push_module_of(context.old.view, context.list, heaps, tables)
}
