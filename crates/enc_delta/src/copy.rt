//! EncLog and EncMap as lists in memory.
ghost use Rattle.std.specs.Prelude.{◌≡◌, ◌+◌, ◌<◌, ◌≤◌, ◌^◌, IfOk, IsTrue, length, nat_lt};
ghost use Rattle.std.specs.List.{list_all};
ghost use Rattle.enc_base.specs.declared.token.Token.{Token as TheToken};
ghost use Rattle.enc_delta.specs.declared.log_entry.LogEntry.{LogEntry as TheEntry};
ghost use Rattle.enc_rows.specs.Layout.{rows_of};
ghost use Rattle.enc_base.specs.Tables.{enc_map};
ghost use Rattle.enc_delta.specs.Delta.{log_in, listed, is_module};

use crate::delta::Delta;
use crate::log_entry::LogEntry;
use enc_base::{Steps, Token};
use std::alloc::{AllocError, Global};
use std::sync::ledger::Ledger;

/// The token of the Module row.
pub fn is_module(token: Token) -> bool
    ensures { result ≡ is_module token }
{
    token.table == 0 && token.row == 1
}

/// The entries of EncLog.
#[tactic(auto, using(crate::proofs::Listed::map_steps), unfolding(crate::specs::Delta::log_in))]
pub fn log_of(delta: &Delta, alloc: Global) -> Result<Vec<LogEntry>, AllocError>
    ensures entries { IfOk result (λ l. l.items ≡ log_in delta.now) }
    ensures rows { IfOk result (λ l. IsTrue (list_all (λ (e : TheEntry). nat_lt e.token.row 0x1000000) l.items)) }
    ensures few { IfOk result (λ l. length l.items < 2 ^ 24) }
{
    let mut log = Vec::new(alloc);
    for i in 0..delta.log_len() {
        log.push(delta.log(i))?;
    }
    Ok(log)
}

impl Delta {
    #[tactic(auto, using(crate::proofs::Listed::tokens_steps), // one token after the other
    unfolding(crate::specs::Delta::listed, crate::specs::Delta::map_in))]
    /// The tokens of EncMap but the Module's, in the map's order.
    pub fn tokens(&self, alloc: Global) -> Result<Vec<Token>, AllocError>
        ensures tokens { IfOk result (λ l. l.items ≡ listed self.now) }
        ensures rows { IfOk result (λ l. IsTrue (list_all (λ (t : TheToken). nat_lt t.row 0x1000000) l.items)) }
        ensures tables { IfOk result (λ l. IsTrue (list_all (λ (t : TheToken). nat_lt t.table 0x100) l.items)) }
        ensures few { IfOk result (λ l. length l.items < 2 ^ 24) }
    {
        let mut tokens = Vec::new(alloc);
        for i in 0..self.map_len() {
            let token = self.token(i);
            if !is_module(token) {
                tokens.push(token)?;
            }
        }
        Ok(tokens)
    }

    #[tactic(auto, using(crate::proofs::Listed::tokens_steps), // one token after the other
    unfolding(crate::specs::Delta::listed, crate::specs::Delta::map_in))]
    /// The tokens of EncMap but the Module's, in the map's order. A step for each token of the map.
    pub fn tokens_counted<L: Ledger>(
        &self,
        alloc: Global,
        steps: &mut Steps<L>,
    ) -> Result<Vec<Token>, AllocError>
        ensures tokens { IfOk result (λ l. l.items ≡ listed self.now) }
        ensures rows { IfOk result (λ l. IsTrue (list_all (λ (t : TheToken). nat_lt t.row 0x1000000) l.items)) }
        ensures tables { IfOk result (λ l. IsTrue (list_all (λ (t : TheToken). nat_lt t.table 0x100) l.items)) }
        ensures few { IfOk result (λ l. length l.items < 2 ^ 24) }
        ensures many { IfOk result (λ l. length l.items ≤ rows_of self.now.layout enc_map) }
        ensures steps { steps.new ≤ steps.old + rows_of self.now.layout enc_map }
    {
        let mut tokens = Vec::new(alloc);
        for i in 0..self.map_len() {
            let token = self.map(i, steps);
            if !is_module(token) {
                tokens.push(token)?;
            }
        }
        Ok(tokens)
    }
}
