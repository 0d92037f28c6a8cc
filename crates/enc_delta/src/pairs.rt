//! The children that a delta's log gives to their owners.
ghost use Rattle.std.specs.Prelude.{◌≡◌, ◌++◌, map, IfOk};
ghost use Rattle.enc_delta.specs.Delta.{log_in};
ghost use Rattle.enc_delta.specs.Lists.{AreEntries};
ghost use Rattle.enc_delta.specs.Members.{pair_seen, pair_behind, ArePairs};
ghost use Rattle.enc_delta.specs.Pairs.{pairs_in, attached_of};
ghost use Rattle.enc_delta.specs.Rules.{counted, is_add};

use crate::copy::is_module;
use crate::delta::Delta;
use crate::log_entry::LogEntry;
use enc_base::Token;
use std::alloc::{AllocError, Global};

/// A child that an Add entry gives to its owner.
#[derive(Clone, Copy, Debug, PartialEq, Eq)]
pub struct Pair {
    pub owner: Token,
    pub child: Token,
}

/// Whether a code is that of an Add entry.
fn is_add(code: u32) -> bool
    ensures { result ≡ is_add code }
{
    1 <= code && code <= 5
}

/// Adds the pair of an entry and of the last one before it, if that is an Add entry.
fn add_pair(
    pairs: &mut Vec<Pair>,
    last: Option<LogEntry>,
    entry: LogEntry,
) -> Result<(), AllocError>
    ensures { IfOk result (λ _. pairs.new.items ≡ pairs.old.items ++ pair_behind last entry) }
{
    let Some(before) = last else {
        return Ok(());
    };
    if !is_add(before.operation) {
        return Ok(());
    }
    pairs.push(Pair {
        owner: before.token,
        child: entry.token,
    })?;
    Ok(())
}

/// The children of the Add entries with their owners, in the order of the log; the Module's entries
/// are passed over.
pub fn pairs_of(alloc: Global, log: &[LogEntry]) -> Result<Vec<Pair>, AllocError>
    ensures { IfOk result (λ p. map pair_seen p.items ≡ pairs_in (counted log.now)) }
{
    let mut pairs = Vec::new(alloc);
    let mut last: Option<LogEntry> = None;
    for k in 0..log.len() {
        let entry = log[k];
        if !is_module(entry.token) {
            add_pair(&mut pairs, last, entry)?;
            last = Some(entry);
        }
    }
    Ok(pairs)
}

/// The children that the Add entries of a delta's log give to their owners.
#[tactic(auto, using(crate::proofs::PairsIn::pairs_fit), unfolding(crate::specs::Pairs::attached_of))]
pub fn attached_of(alloc: Global, delta: &Delta, log: &[LogEntry]) -> Result<Vec<Pair>, AllocError>
    requires log { log.now ≡ log_in delta.now }
    requires rows { AreEntries log.now }
    ensures pairs { IfOk result (λ p. map pair_seen p.items ≡ attached_of delta.now) }
    ensures few { IfOk result (λ p. ArePairs p.items) }
{
    let _ = delta;
    pairs_of(alloc, log)
}
