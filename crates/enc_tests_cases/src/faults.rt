//! A call whose store, and then whose sink, fails at each of its calls.

use crate::call::{Answer, Call};
use crate::store::CaseStore;
use enc_outside::MemSink;
use std::alloc::AllocError;

/// The number of the status where the sink failed.
const SINK_FAILED: u8 = 5;

/// What came of the faults.
#[derive(Drop)]
pub struct Faults {
    /// The statuses where the store's first call fails, its second, and so on; the last met no fault.
    pub statuses: Vec<u8>,
    /// Whether at each fault of the store nothing was printed, and the files were as they have to be.
    pub keeps_files: bool,
    /// Whether each fault of the sink gave its status and a first part of the output.
    pub prints_parts: bool,
}

/// A call over the files of a case that meets no fault.
#[derive(Drop)]
struct Whole<'a> {
    call: &'a Call,
    before: &'a CaseStore,
    after: CaseStore,
    answer: Answer,
}

impl<'a> Whole<'a> {
    fn of(call: &'a Call, before: &'a CaseStore) -> Result<Whole<'a>, AllocError> {
        let mut after = before.copy()?;
        let answer = call.answer(&mut after)?;
        Ok(Whole {
            call,
            before,
            after,
            answer,
        })
    }

    /// Whether a file is as it has to be, where the call of the store of this number failed: new if it was
    /// saved before, the old
    /// one or a first part of the new if this was its save, and else the old one.
    fn is_kept(&self, name: &str, failed: u64, found: Option<&[u8]>) -> bool {
        let old = self.before.file(name);
        let new = self.after.file(name);
        match self.after.call_of(name) {
            Some(call) if call < failed => found == new,
            Some(call) if call == failed => found == old || is_part(found, new),
            _ => found == old,
        }
    }

    /// Whether each file of these names is as it has to be.
    fn are_kept(&self, names: &[String], failed: u64, found: &CaseStore) -> bool {
        for name in names {
            if !self.is_kept(name.as_str(), failed, found.file(name.as_str())) {
                return false;
            }
        }
        true
    }

    /// Whether a fault at the store's call of this number left nothing printed, and all files as they have to be.
    fn is_clean(&self, failed: u64, found: &CaseStore, sink: &MemSink) -> bool {
        sink.bytes().is_empty()
            && self.are_kept(self.after.names(), failed, found)
            && self.are_kept(found.names(), failed, found)
    }

    /// Fails each call of the store.
    fn store_faults(&self, faults: &mut Faults) -> Result<(), AllocError> {
        for failed in 1..u64::MAX {
            let mut store = self.before.copy()?;
            store.fail_at(failed)?;
            let mut sink = MemSink::begin(self.call.alloc);
            let status = self.call.run(&mut store, &mut sink)?;
            faults.statuses.push(status)?;
            if store.calls() < failed {
                break;
            }
            faults.keeps_files &= self.is_clean(failed, &store, &sink);
        }
        Ok(())
    }

    /// Fails each call of the sink.
    fn sink_faults(&self, faults: &mut Faults) -> Result<(), AllocError> {
        for failed in 1..u64::MAX {
            let mut store = self.before.copy()?;
            let mut sink = MemSink::begin(self.call.alloc);
            sink.fail_at(failed)?;
            let status = self.call.run(&mut store, &mut sink)?;
            if sink.calls() < failed {
                break;
            }
            let is_part = self.answer.output.starts_with(sink.bytes());
            faults.prints_parts &= status == SINK_FAILED && is_part;
        }
        Ok(())
    }
}

/// Whether a file holds a first part of another.
fn is_part(found: Option<&[u8]>, new: Option<&[u8]>) -> bool {
    match (found, new) {
        (Some(found), Some(new)) => new.starts_with(found),
        _ => false,
    }
}

/// The call with each call of the store failing, and then each of the sink.
pub fn faults_of(call: &Call, store: &CaseStore) -> Result<Faults, AllocError> {
    let whole = Whole::of(call, store)?;
    let mut faults = Faults {
        statuses: Vec::new(call.alloc),
        keeps_files: true,
        prints_parts: true,
    };
    whole.store_faults(&mut faults)?;
    whole.sink_faults(&mut faults)?;
    Ok(faults)
}
