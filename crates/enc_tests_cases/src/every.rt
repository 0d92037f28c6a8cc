//! A call over a file that is cut at every length.

use crate::call::{Answer, Call};
use crate::store::CaseStore;
use std::alloc::AllocError;

/// Neighbouring lengths, both ends among them, at which a call has the same answer.
#[derive(Drop)]
pub struct Stretch {
    pub from: usize,
    pub to: usize,
    pub answer: Answer,
}

/// The call with the file of this name cut to its first bytes, as many as `len`. The case's own files stay.
fn answer_at(call: &Call, store: &CaseStore, name: &str, len: usize) -> Result<Answer, AllocError> {
    let whole = store.file(name).unwrap_or(&[]);
    let mut cut = store.copy()?;
    cut.set_file(name, whole.get(..len).unwrap_or(whole))?;
    call.answer(&mut cut)
}

/// Adds an answer to the last stretch where it is the same, and else begins the next.
fn add(stretches: &mut Vec<Stretch>, len: usize, answer: Answer) -> Result<(), AllocError> {
    if let Some(last) = stretches.last_mut() {
        if last.answer == answer {
            last.to = len;
            return Ok(());
        }
    }
    stretches.push(Stretch {
        from: len,
        to: len,
        answer,
    })?;
    Ok(())
}

/// The call once for each length of the file, from none to all of its bytes.
pub fn stretches_of(
    call: &Call,
    store: &CaseStore,
    name: &str,
) -> Result<Vec<Stretch>, AllocError> {
    let mut stretches = Vec::new(call.alloc);
    for len in 0..=store.file(name).unwrap_or(&[]).len() {
        let answer = answer_at(call, store, name, len)?;
        add(&mut stretches, len, answer)?;
    }
    Ok(stretches)
}
