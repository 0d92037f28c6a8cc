//! The calls that open, change and close a handle.
ghost use Rattle.std.specs.Prelude.{◌≡◌, None, Some, IfOk, OnErr, OnOk, is_some, if◌then◌else◌};
ghost use Rattle.enc_c.specs.Status.{number_of_status};
ghost use Rattle.enc_c.specs.State.{given_bytes, opened_state, applied_state};
ghost use Rattle.enc_c.specs.Outcomes.{bytes_held, ReadsState, TellsFault, ChangesOrStays, Opens, Applies};

use crate::handle::{Handle, put, take};
use crate::held::Held;
use crate::refusal::{RefusalNumbers, numbers_of};
use crate::status::Status;
use enc_base::ReadFault;
use enc_checker::Files;
use std::alloc::{AllocError, Global};

/// The bytes of a file that may be absent: where there are none.
pub(crate) fn given(alloc: Global, bytes: &[u8]) -> Result<Option<Vec<u8>>, AllocError>
    ensures { IfOk result (λ o. bytes_held o ≡ given_bytes bytes.now) }
{
    match bytes {
        [] => Ok(None),
        _ => Ok(Some(Vec::from_slice(alloc, bytes)?)),
    }
}

/// Tells a fault: a refusal by its numbers.
pub fn tell_fault(fault: ReadFault, refusal: &mut RefusalNumbers) -> u32
    ensures { TellsFault result refusal.old refusal.new fault }
{
    match fault {
        ReadFault::Refused(found) => {
            *refusal = numbers_of(found);
            Status::Refused.number()
        }
        ReadFault::Memory => Status::Memory.number(),
    }
}

/// Judges a base and its PDB.
fn read(alloc: Global, bytes: &[u8], pdb: &[u8]) -> Result<Held, ReadFault>
    ensures { ReadsState result (opened_state bytes.now (given_bytes pdb.now)) }
{
    let bytes = Vec::from_slice(alloc, bytes)?;
    let pdb = given(alloc, pdb)?;
    Held::open(alloc, bytes, pdb)
}

/// Has a closed handle hold this.
fn hold(alloc: Global, handle: &mut Handle, held: Held) -> Result<(), AllocError>
    ensures held { OnOk result (handle.new.held ≡ Some held) }
    ensures kept { OnErr result (handle.new.held ≡ handle.old.held) }
{
    match Box::new(alloc, held) {
        Ok(held) => {
            put(handle, alloc, held);
            Ok(())
        }
        Err(_) => Err(AllocError),
    }
}

/// Opens a closed handle.
fn open_closed(
    alloc: Global,
    handle: &mut Handle,
    bytes: &[u8],
    pdb: &[u8],
    refusal: &mut RefusalNumbers,
) -> u32
    requires { handle.old.held ≡ None }
    ensures { ChangesOrStays result handle.old.held handle.new.held refusal.old refusal.new
        (opened_state bytes.now (given_bytes pdb.now)) }
{
    match read(alloc, bytes, pdb) {
        Ok(held) => match hold(alloc, handle, held) {
            Ok(()) => Status::Done.number(),
            Err(AllocError) => Status::Memory.number(),
        },
        Err(fault) => tell_fault(fault, refusal),
    }
}

/// Judges a base, with its PDB, where that has bytes, and opens the handle.
#[unsafe(no_mangle)]
pub extern "C" fn enc_open(
    alloc: Global,
    handle: &mut Handle,
    bytes: &[u8],
    pdb: &[u8],
    refusal: &mut RefusalNumbers,
) -> u32
    ensures { Opens result handle.old.held handle.new.held refusal.old refusal.new
        (opened_state bytes.now (given_bytes pdb.now)) }
{
    match take(handle, alloc) {
        Some(held) => {
            put(handle, alloc, held);
            Status::Open.number()
        }
        None => open_closed(alloc, handle, bytes, pdb, refusal),
    }
}

/// The files of a delta.
pub fn files_of(alloc: Global, meta: &[u8], il: &[u8], pdb: &[u8]) -> Result<Files, AllocError>
    ensures meta { IfOk result (λ f. f.meta.items ≡ meta.now) }
    ensures il { IfOk result (λ f. f.il.items ≡ il.now) }
    ensures pdb { IfOk result (λ f. bytes_held f.pdb ≡ given_bytes pdb.now) }
{
    Ok(Files {
        meta: Vec::from_slice(alloc, meta)?,
        il: Vec::from_slice(alloc, il)?,
        pdb: given(alloc, pdb)?,
    })
}

/// Applies the files of a delta to what an open handle holds.
fn apply(
    alloc: Global,
    held: &mut Held,
    meta: &[u8],
    il: &[u8],
    pdb: &[u8],
    refusal: &mut RefusalNumbers,
) -> u32
    ensures { ChangesOrStays result (Some held.old) (Some held.new) refusal.old refusal.new
        (applied_state held.old meta.now il.now (given_bytes pdb.now)) }
{
    let Ok(files) = files_of(alloc, meta, il, pdb) else {
        return Status::Memory.number();
    };
    match held.apply(alloc, files) {
        Ok(()) => Status::Done.number(),
        Err(fault) => tell_fault(fault, refusal),
    }
}

/// Judges a delta after those before it, with its PDB, where that has bytes, and adds it.
#[unsafe(no_mangle)]
pub extern "C" fn enc_apply(
    alloc: Global,
    handle: &mut Handle,
    meta: &[u8],
    il: &[u8],
    pdb: &[u8],
    refusal: &mut RefusalNumbers,
) -> u32
    ensures { Applies result handle.old.held handle.new.held refusal.old refusal.new
        (λ s. applied_state s meta.now il.now (given_bytes pdb.now)) }
{
    let Some(held) = take(handle, alloc) else {
        return Status::Closed.number();
    };
    let mut held = held;
    let status = apply(alloc, &mut held, meta, il, pdb, refusal);
    put(handle, alloc, held);
    status
}

/// Closes a handle; closed it stays so.
#[unsafe(no_mangle)]
pub extern "C" fn enc_close(alloc: Global, handle: &mut Handle) -> u32
    ensures closed { handle.new.held ≡ None }
    ensures status { result ≡ (if is_some handle.old.held then number_of_status Status.Done
        else number_of_status Status.Closed) }
{
    match take(handle, alloc) {
        Some(_) => Status::Done.number(),
        None => Status::Closed.number(),
    }
}
