//! The calls that open and close a session.
ghost use Rattle.std.specs.Prelude.{◌≡◌, None, Ok, OnErr, OnOk, Some, is_some, if◌then◌else◌};
ghost use Rattle.enc_c.specs.Outcomes.{ChangesOrStays, ReadsState, bytes_held};
ghost use Rattle.enc_c.specs.SessionCalls.{OpensSession, session_over};
ghost use Rattle.enc_c.specs.State.{begun_state, given_bytes, opened_state, state_with_pdb};
ghost use Rattle.enc_c.specs.Status.{number_of_status};

use crate::open::{given, tell_fault};
use crate::refusal::RefusalNumbers;
use crate::session_handle::{SessionHandle, put_session, take_session};
use crate::status::Status;
use enc_base::ReadFault;
use enc_chain::read_pdb;
use enc_image::Image;
use enc_ppdb::Pdb;
use enc_session::Recording;
use std::alloc::{AllocError, Global};

/// The most events that a step tells.
const EVENTS_OF_A_STEP: u32 = 4;

/// A session over a base, with its PDB, where it has one.
fn begin(alloc: Global, image: Image, pdb: Option<Pdb>, limit: u32) -> Result<Recording, ReadFault>
    ensures { ReadsState result (session_over (Ok (begun_state image pdb)) limit) }
{
    match Recording::begin(alloc, image, pdb, limit) {
        Ok(session) => Ok(session),
        Err(AllocError) => Err(ReadFault::Memory),
    }
}

/// The same with the bytes of the PDB, which is judged.
fn begin_with(
    alloc: Global,
    image: Image,
    pdb: Option<Vec<u8>>,
    limit: u32,
) -> Result<Recording, ReadFault>
    ensures { ReadsState result (session_over (state_with_pdb image (bytes_held pdb)) limit) }
{
    let Some(bytes) = pdb else {
        return begin(alloc, image, None, limit);
    };
    let pdb = read_pdb(alloc, &image, bytes)?;
    begin(alloc, image, Some(pdb), limit)
}

/// Judges a base and its PDB.
#[tactic(auto, unfolding(crate::specs::State::opened_state))]
fn read(alloc: Global, bytes: &[u8], pdb: &[u8], limit: u32) -> Result<Recording, ReadFault>
    ensures { ReadsState result (session_over (opened_state bytes.now (given_bytes pdb.now)) limit) }
{
    let bytes = Vec::from_slice(alloc, bytes)?;
    let pdb = given(alloc, pdb)?;
    let image = Image::read(alloc, bytes)?;
    begin_with(alloc, image, pdb, limit)
}

/// Has a closed handle hold this.
fn hold(alloc: Global, session: &mut SessionHandle, recording: Recording) -> Result<(), AllocError>
    ensures held { OnOk result (session.new.held ≡ Some recording) }
    ensures kept { OnErr result (session.new.held ≡ session.old.held) }
{
    match Box::new(alloc, recording) {
        Ok(recording) => {
            put_session(session, alloc, recording);
            Ok(())
        }
        Err(_) => Err(AllocError),
    }
}

/// Opens a closed session.
fn open_closed(
    alloc: Global,
    session: &mut SessionHandle,
    bytes: &[u8],
    pdb: &[u8],
    limit: u32,
    refusal: &mut RefusalNumbers,
) -> u32
    requires { session.old.held ≡ None }
    ensures { ChangesOrStays result session.old.held session.new.held refusal.old refusal.new
        (session_over (opened_state bytes.now (given_bytes pdb.now)) limit) }
{
    match read(alloc, bytes, pdb, limit) {
        Ok(recording) => match hold(alloc, session, recording) {
            Ok(()) => Status::Done.number(),
            Err(AllocError) => Status::Memory.number(),
        },
        Err(fault) => tell_fault(fault, refusal),
    }
}

/// Judges a base, with its PDB, where that has bytes, and opens a session over it, in which there can be so many
/// events that nobody has taken. `Few` where these are fewer than a step may tell: such a session could make none.
#[unsafe(no_mangle)]
pub extern "C" fn enc_session_open(
    alloc: Global,
    session: &mut SessionHandle,
    bytes: &[u8],
    pdb: &[u8],
    limit: u32,
    refusal: &mut RefusalNumbers,
) -> u32
    ensures { OpensSession result session.old.held session.new.held refusal.old refusal.new limit
        (session_over (opened_state bytes.now (given_bytes pdb.now)) limit) }
{
    match take_session(session, alloc) {
        Some(held) => {
            put_session(session, alloc, held);
            Status::Open.number()
        }
        None if limit < EVENTS_OF_A_STEP => Status::Few.number(),
        None => open_closed(alloc, session, bytes, pdb, limit, refusal),
    }
}

/// Closes a session; closed it stays so.
#[unsafe(no_mangle)]
pub extern "C" fn enc_session_close(alloc: Global, session: &mut SessionHandle) -> u32
    ensures closed { session.new.held ≡ None }
    ensures status { result ≡ (if is_some session.old.held then number_of_status Status.Done
        else number_of_status Status.Closed) }
{
    match take_session(session, alloc) {
        Some(_) => Status::Done.number(),
        None => Status::Closed.number(),
    }
}
