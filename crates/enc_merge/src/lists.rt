//! EncMap and EncLog of the delta that stands for two (System.Reflection.Metadata).
ghost use Rattle.std.specs.Prelude.{◌≡◌, ◌+◌, ◌-◌, ◌^◌, ◌<◌, ◌++◌, ◌∷◌, [], ℕ, length, map, OnOk, IfOk};
ghost use Rattle.enc_base.specs.Token.{number_of};
ghost use Rattle.enc_delta.specs.Delta.{listed, log_in};
ghost use Rattle.enc_delta.specs.Rules.{counted, counts};
ghost use Rattle.enc_rows.specs.Written.{count_at, rows_at};
ghost use Rattle.enc_base.specs.Tables.{enc_log, enc_map};
ghost use Rattle.enc_list_delta.specs.Holds.{entry_numbers};
ghost use Rattle.enc_merge.specs.Writing.{AreOfEither, StayBut};

use enc_base::tables::{ENC_LOG, ENC_MAP};
use enc_delta::{Delta, LogEntry, log_of};
use enc_rows::TableBuilder;
use std::alloc::{AllocError, Global};

/// Puts the numbers of a delta's tokens behind others.
fn push_numbers(alloc: Global, delta: &Delta, numbers: &mut Vec<u32>) -> Result<(), AllocError>
    ensures { OnOk result (numbers.new.items ≡ numbers.old.items ++ map number_of (listed delta.now)) }
{
    let tokens = delta.tokens(alloc)?;
    for k in 0..tokens.len() {
        let token = tokens[k];
        numbers.push(token.number())?;
    }
    Ok(())
}

/// The numbers of the tokens that one of two deltas lists, rising.
pub(crate) fn numbers_of_either(
    alloc: Global,
    first: &Delta,
    second: &Delta,
) -> Result<Vec<u32>, AllocError>
    ensures { IfOk result (λ numbers. AreOfEither first.now second.now numbers.items) }
{
    let mut numbers = Vec::new(alloc);
    push_numbers(alloc, first, &mut numbers)?;
    push_numbers(alloc, second, &mut numbers)?;
    numbers.sort_unstable();
    numbers.dedup();
    Ok(numbers)
}

/// Adds a token to EncMap.
#[tactic(auto, using(crate::proofs::ListRows::map_columns, crate::proofs::ListRows::map_width))]
fn push_number(number: u32, tables: &mut TableBuilder) -> Result<(), AllocError>
    requires few { count_at tables.old enc_map < 2 ^ 24 - 1 }
    ensures pushed { OnOk result (rows_at tables.new enc_map ≡ rows_at tables.old enc_map ++ (number ∷ []) ∷ []) }
    ensures others { OnOk result (StayBut enc_map tables.old tables.new) }
{
    tables.push(ENC_MAP, &[number])
}

/// Adds EncMap.
pub(crate) fn push_map(numbers: &[u32], tables: &mut TableBuilder) -> Result<(), AllocError>
    requires few { count_at tables.old enc_map + length numbers.now < 2 ^ 24 }
    ensures pushed { OnOk result (rows_at tables.new enc_map
        ≡ rows_at tables.old enc_map ++ map (λ (n : ℕ). n ∷ []) numbers.now) }
    ensures others { OnOk result (StayBut enc_map tables.old tables.new) }
{
    for k in 0..numbers.len() {
        push_number(numbers[k], tables)?;
    }
    Ok(())
}

/// Whether an entry counts: all but the Module's do.
fn counts(entry: LogEntry) -> bool
    ensures { result ≡ counts entry }
{
    entry.token.table != 0 || entry.token.row != 1
}

/// Adds an entry of EncLog.
#[tactic(auto, using(crate::proofs::ListRows::log_columns, crate::proofs::ListRows::log_width))]
fn push_entry(entry: LogEntry, tables: &mut TableBuilder) -> Result<(), AllocError>
    requires number { entry.token.row < 2 ^ 24 }
    requires few { count_at tables.old enc_log < 2 ^ 24 - 1 }
    ensures pushed { OnOk result (rows_at tables.new enc_log ≡ rows_at tables.old enc_log ++ entry_numbers entry ∷ []) }
    ensures others { OnOk result (StayBut enc_log tables.old tables.new) }
{
    tables.push(ENC_LOG, &[entry.token.number(), entry.operation])
}

/// Adds an entry of EncLog, where it counts.
#[tactic(auto, unfolding(enc_delta::specs::Rules::counted))]
fn push_if_counted(entry: LogEntry, tables: &mut TableBuilder) -> Result<(), AllocError>
    requires number { entry.token.row < 2 ^ 24 }
    requires few { count_at tables.old enc_log + length (counted (entry ∷ [])) < 2 ^ 24 }
    ensures pushed { OnOk result (rows_at tables.new enc_log ≡ rows_at tables.old enc_log ++ map entry_numbers
        (counted (entry ∷ []))) }
    ensures others { OnOk result (StayBut enc_log tables.old tables.new) }
{
    if !counts(entry) {
        return Ok(());
    }
    push_entry(entry, tables)
}

/// Adds the entries of a delta's EncLog that count.
fn push_entries(alloc: Global, delta: &Delta, tables: &mut TableBuilder) -> Result<(), AllocError>
    requires few { count_at tables.old enc_log + length (counted (log_in delta.now)) < 2 ^ 24 }
    ensures pushed { OnOk result (rows_at tables.new enc_log ≡ rows_at tables.old enc_log ++ map entry_numbers
        (counted (log_in delta.now))) }
    ensures others { OnOk result (StayBut enc_log tables.old tables.new) }
{
    let log = log_of(delta, alloc)?;
    for k in 0..log.len() {
        push_if_counted(log[k], tables)?;
    }
    Ok(())
}

/// Adds EncLog: the entries of the first, and then those of the second.
pub(crate) fn push_log(
    alloc: Global,
    first: &Delta,
    second: &Delta,
    tables: &mut TableBuilder,
) -> Result<(), AllocError>
    requires few { count_at tables.old enc_log + length (counted (log_in first.now)) + length
        (counted (log_in second.now)) < 2 ^ 24 }
    ensures pushed { OnOk result (rows_at tables.new enc_log ≡ rows_at tables.old enc_log ++ map entry_numbers
        (counted (log_in first.now) ++ counted (log_in second.now))) }
    ensures others { OnOk result (StayBut enc_log tables.old tables.new) }
{
    push_entries(alloc, first, tables)?;
    push_entries(alloc, second, tables)?;
    Ok(())
}
