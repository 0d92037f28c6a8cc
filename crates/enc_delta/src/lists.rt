//! The rules of a delta that speak of whole lists of tokens.
ghost use Rattle.std.specs.Prelude.{◌≡◌, ℕ, ◌+◌, ◌==◌, ◌&&◌, map, Some, None, [], ◌++◌, ◌<◌, ◌≤◌, ◌^◌, filter, find, drop, length, slice_index, IfOk};
ghost use Rattle.std.specs.List.Sorted.{IsStrictlyIncreasing};
ghost use Rattle.enc_base.specs.Token.{number_of};
ghost use Rattle.enc_base.specs.declared.refusal.Place.TheVariants.{Log};
ghost use Rattle.enc_plain.specs.Chain.{Chain, rows_before};
ghost use Rattle.enc_delta.specs.Judged.{late_token, skipped_row, unmatched_token, bad_entry, unowned_child};
ghost use Rattle.enc_delta.specs.Lists.{AreTokens, AreEntries, parents, parent_in, next_is, is_pair};
ghost use Rattle.enc_delta.specs.Rules.{at_token, lesser, least, late, late_fault, is_insert, insert_fault, counts, changed, stands_in, in_one, set_fault, inserts, rows_with, parent_table, child_table, log_fault, adds, child_fault_in, child_fault};

use crate::context::Context;
use crate::copy::is_module;
use crate::known::is_insert;
use crate::log_entry::LogEntry;
use enc_base::tables::{
    EVENT, EVENT_MAP, FIELD, METHOD_DEF, PARAM, PROPERTY, PROPERTY_MAP, TYPE_DEF,
};
use enc_base::{Place, Token};
use enc_plain::{ChainView, ModuleView};
use std::alloc::{AllocError, Global};

/// The place of a token by its number.
pub fn placed(number: Option<u32>) -> Option<Place>
    ensures { result ≡ at_token number }
{
    match number {
        Some(n) => Some(Place::Row(Token::of(n))),
        None => None,
    }
}

/// The lesser of a number and perhaps another.
pub fn lesser(n: u32, other: Option<u32>) -> u32
    ensures { Some result ≡ lesser n other }
{
    match other {
        Some(m) => n.min(m),
        None => n,
    }
}

/// The least number that has one before it that isn't less.
fn least_late(listed: &[Token]) -> Option<u32>
    requires { AreTokens listed.now }
    ensures { result ≡ least (late (map number_of listed.now)) }
{
    let mut rest = listed;
    let mut bound: u64 = 0;
    let mut best: Option<u32> = None;
    while let [token, tail @ ..] = rest {
        let n = token.number();
        if u64::from(n) < bound {
            best = Some(lesser(n, best));
        } else {
            bound = u64::from(n) + 1;
        }
        rest = tail;
    }
    best
}

/// The least token of EncMap that has one before it that isn't less.
#[tactic(auto, unfolding(crate::specs::Rules::late_fault, crate::specs::Judged::late_token))]
pub fn late_token<C: ChainView>(context: &Context<'_, C>) -> Option<Place>
    ensures { result ≡ late_token context.now.chain context.now.delta }
{
    placed(least_late(context.tokens()))
}

/// Whether a token is the next row after those before and some inserts.
fn is_next<C: ChainView>(chain: &C, inserts: u32, token: Token) -> bool
    ensures { result ≡ (token.row == rows_before (C.chain chain.now) token.table + inserts + 1) }
{
    u64::from(token.row) == u64::from(chain.count(token.table)) + u64::from(inserts) + 1
}

/// No insert into any table.
fn none_seen() -> [u32; 256]
    ensures size { length result ≡ 256 }
    ensures zeros { (t : ℕ) → slice_index result t ≡ 0 }
{
    [0; 256]
}

/// The first insert that isn't the next row of its table.
#[tactic(auto, unfolding(crate::specs::Rules::insert_fault))]
fn insert_fault<C: ChainView>(chain: &C, listed: &[Token]) -> Option<Place>
    ensures { result ≡ insert_fault (C.chain chain.now) listed.now }
{
    let mut seen = none_seen();
    for k in 0..listed.len() {
        let token = listed[k];
        if is_insert(chain, token) {
            let inserts = seen[token.table as usize];
            if !is_next(chain, inserts, token) {
                return Some(Place::Row(token));
            }
            seen[token.table as usize] = inserts + 1;
        }
    }
    None
}

/// The first new row that isn't the next of its table.
#[tactic(auto, unfolding(crate::specs::Judged::skipped_row))]
pub fn skipped_row<C: ChainView>(context: &Context<'_, C>) -> Option<Place>
    ensures { result ≡ skipped_row context.now.chain context.now.delta }
{
    insert_fault(context.old.view, context.tokens())
}

/// Whether an entry counts: its token isn't the Module's.
fn counts(entry: LogEntry) -> bool
    ensures { result ≡ counts entry }
{
    !is_module(entry.token)
}

/// Whether an entry counts and has code 0.
fn is_change(entry: LogEntry) -> bool
    ensures { result ≡ (counts entry && entry.operation == 0) }
{
    counts(entry) && entry.operation == 0
}

/// The tokens of the entries with code 0.
fn changed_of(alloc: Global, log: &[LogEntry]) -> Result<Vec<Token>, AllocError>
    requires rows { AreEntries log.now }
    ensures tokens { IfOk result (λ l. l.items ≡ changed log.now) }
    ensures rows { IfOk result (λ l. AreTokens l.items) }
{
    let mut tokens = Vec::new(alloc);
    for k in 0..log.len() {
        let entry = log[k];
        if is_change(entry) {
            tokens.push(entry.token)?;
        }
    }
    Ok(tokens)
}

/// The numbers of tokens.
fn numbers_of(alloc: Global, tokens: &[Token]) -> Result<Vec<u32>, AllocError>
    requires { AreTokens tokens.now }
    ensures { IfOk result (λ l. l.items ≡ map number_of tokens.now) }
{
    let mut numbers = Vec::new(alloc);
    for k in 0..tokens.len() {
        let token = tokens[k];
        numbers.push(token.number())?;
    }
    Ok(numbers)
}

/// The numbers of tokens in order, each once.
fn set_of(alloc: Global, tokens: &[Token]) -> Result<Vec<u32>, AllocError>
    requires { AreTokens tokens.now }
    ensures rises { IfOk result (λ l. IsStrictlyIncreasing l.items) }
    ensures same { IfOk result (λ l. (n : ℕ) → stands_in l.items n ≡ stands_in (map number_of tokens.now) n) }
{
    let mut numbers = numbers_of(alloc, tokens)?;
    numbers.sort_unstable();
    numbers.dedup();
    Ok(numbers)
}

/// The least number that stands in one of two lists alone.
fn least_apart(left: &[u32], right: &[u32]) -> Option<u32>
    requires left { IsStrictlyIncreasing left.now }
    requires right { IsStrictlyIncreasing right.now }
    ensures { result ≡ least (filter (in_one left.now right.now) (left.now ++ right.now)) }
{
    for k in 0..left.len() {
        let x = left[k];
        if k >= right.len() {
            return Some(x);
        }
        let y = right[k];
        if x != y {
            return Some(x.min(y));
        }
    }
    if left.len() < right.len() {
        return Some(right[left.len()]);
    }
    None
}

/// The least token that stands in EncMap alone or with code 0 in the log alone.
fn set_fault(
    alloc: Global,
    listed: &[Token],
    changed: &[Token],
) -> Result<Option<Place>, AllocError>
    requires listed { AreTokens listed.now }
    requires changed { AreTokens changed.now }
    ensures { IfOk result (λ p. p ≡ set_fault (map number_of listed.now) (map number_of changed.now)) }
{
    let left = set_of(alloc, listed)?;
    let right = set_of(alloc, changed)?;
    Ok(placed(least_apart(&left, &right)))
}

/// The least token that stands in EncMap alone or with code 0 in the log alone. It takes memory for
/// both sets.
#[tactic(auto, unfolding(crate::specs::Judged::unmatched_token))]
pub fn unmatched_token<C: ChainView>(
    alloc: Global,
    context: &Context<'_, C>,
) -> Result<Option<Place>, AllocError>
    ensures { IfOk result (λ p. p ≡ unmatched_token context.now.chain context.now.delta) }
{
    let changed = changed_of(alloc, context.log())?;
    set_fault(alloc, context.tokens(), &changed)
}

/// Whether a token is an insert into a table.
fn is_insert_into<C: ChainView>(chain: &C, token: Token, table: u8) -> bool
    ensures { result ≡ (token.table == table && is_insert (C.chain chain.now) token) }
{
    token.table == table && is_insert(chain, token)
}

/// How many of the tokens are inserts into a table.
fn inserts<C: ChainView>(chain: &C, listed: &[Token], table: u8) -> u64
    ensures number { result ≡ inserts (C.chain chain.now) listed.now table }
    ensures few { result ≤ length listed.now }
{
    let mut n = 0;
    for k in 0..listed.len() {
        let token = listed[k];
        if is_insert_into(chain, token, table) {
            n += 1;
        }
    }
    n
}

/// How many rows a table has after the delta.
#[tactic(auto, unfolding(crate::specs::Rules::rows_with))]
fn rows_with<C: ChainView>(chain: &C, listed: &[Token], table: u8) -> u64
    ensures { result ≡ rows_with (C.chain chain.now) listed.now table }
{
    u64::from(chain.count(table)) + inserts(chain, listed, table)
}

/// By code, how many rows the parent's table of an Add entry has after the delta.
fn parents<C: ChainView>(chain: &C, listed: &[Token]) -> [u64; 6]
    ensures { result ≡ parents (C.chain chain.now) listed.now }
{
    let types = rows_with(chain, listed, TYPE_DEF);
    let methods = rows_with(chain, listed, METHOD_DEF);
    let property_maps = rows_with(chain, listed, PROPERTY_MAP);
    let event_maps = rows_with(chain, listed, EVENT_MAP);
    [0, types, types, methods, property_maps, event_maps]
}

/// The table of an Add entry's parent.
fn parent_table(code: u32) -> u8
    requires { code ≤ 5 }
    ensures { result ≡ parent_table code }
{
    [0, TYPE_DEF, TYPE_DEF, METHOD_DEF, PROPERTY_MAP, EVENT_MAP][code as usize]
}

/// The table of an Add entry's child.
fn child_table(code: u32) -> u8
    requires { code ≤ 5 }
    ensures { result ≡ child_table code }
{
    [0, METHOD_DEF, FIELD, PARAM, PROPERTY, EVENT][code as usize]
}

/// Whether the token of an Add entry is a row of its parent's table after the delta.
fn parent_in(parents: &[u64; 6], entry: LogEntry) -> bool
    requires { entry.operation ≤ 5 }
    ensures { result ≡ parent_in parents.now entry }
{
    entry.token.table == parent_table(entry.operation)
        && entry.token.row >= 1
        && u64::from(entry.token.row) <= parents[entry.operation as usize]
}

/// Whether an entry is there, has code 0 and this row.
fn next_is(table: u8, row: u64, next: Option<LogEntry>) -> bool
    ensures { result ≡ next_is table row next }
{
    match next {
        Some(entry) => entry.operation == 0
            && entry.token.table == table
            && u64::from(entry.token.row) == row,
        None => false,
    }
}

/// The first entry that counts from a place on.
fn next_counting(log: &[LogEntry], from: usize) -> Option<LogEntry>
    requires { from ≤ length log.now }
    ensures { result ≡ find counts (drop from log.now) }
{
    for k in from..log.len() {
        let entry = log[k];
        if counts(entry) {
            return Some(entry);
        }
    }
    None
}

/// Whether an Add entry has its parent and its child; `from` is the place behind it.
fn is_pair<C: ChainView>(
    chain: &C,
    parents: &[u64; 6],
    pairs: u32,
    entry: LogEntry,
    log: &[LogEntry],
    from: usize,
) -> bool
    requires code { entry.operation ≤ 5 }
    requires from { from ≤ length log.now }
    ensures { result ≡ is_pair (C.chain chain.now) parents.now pairs (drop from log.now) entry }
{
    if !parent_in(parents, entry) {
        return false;
    }
    let table = child_table(entry.operation);
    let row = u64::from(chain.count(table)) + u64::from(pairs) + 1;
    next_is(table, row, next_counting(log, from))
}

/// The place of an entry of the log, from 1.
fn log_place(k: usize) -> Place
    requires { k + 1 < 2 ^ 32 }
    ensures { result ≡ Log (k + 1) }
{
    Place::Log((k + 1) as u32)
}

/// The first entry of the log that counts and is neither a change nor an Add entry with its parent
/// and its child.
fn log_fault<C: ChainView>(chain: &C, listed: &[Token], log: &[LogEntry]) -> Option<Place>
    requires few { length log.now < 2 ^ 32 }
    ensures { result ≡ log_fault (C.chain chain.now) listed.now log.now }
{
    let rows = parents(chain, listed);
    let mut pairs = [0u32; 6];
    for k in 0..log.len() {
        let entry = log[k];
        if counts(entry) {
            if entry.operation > 5 {
                return Some(log_place(k));
            }
            if entry.operation != 0 {
                let before = pairs[entry.operation as usize];
                if !is_pair(chain, &rows, before, entry, log, k + 1) {
                    return Some(log_place(k));
                }
                pairs[entry.operation as usize] = before + 1;
            }
        }
    }
    None
}

/// The first entry of the log that isn't in order.
#[tactic(auto, unfolding(crate::specs::Judged::bad_entry))]
pub fn bad_entry<C: ChainView>(context: &Context<'_, C>) -> Option<Place>
    ensures { result ≡ bad_entry context.now.chain context.now.delta }
{
    log_fault(context.old.view, context.tokens(), context.log())
}

/// How many Add entries have a code.
fn adds(log: &[LogEntry], code: u32) -> u64
    ensures number { result ≡ adds log.now code }
    ensures few { result ≤ length log.now }
{
    let mut n = 0;
    for k in 0..log.len() {
        if has_code(log[k], code) {
            n += 1;
        }
    }
    n
}

/// Whether an entry counts and has a code.
fn has_code(entry: LogEntry, code: u32) -> bool
    ensures { result ≡ (counts entry && entry.operation == code) }
{
    counts(entry) && entry.operation == code
}

/// The first new row of a child's table without its one Add entry.
fn child_fault_in<C: ChainView>(
    chain: &C,
    listed: &[Token],
    log: &[LogEntry],
    code: u32,
) -> Option<Place>
    requires rows { AreTokens listed.now }
    requires inserts { insert_fault (C.chain chain.now) listed.now ≡ None }
    requires log { log_fault (C.chain chain.now) listed.now log.now ≡ None }
    requires low { 1 ≤ code }
    requires high { code ≤ 5 }
    ensures { result ≡ child_fault_in (C.chain chain.now) listed.now log.now (child_table code) }
{
    let table = child_table(code);
    let pairs = adds(log, code);
    if pairs < inserts(chain, listed, table) {
        let row = (u64::from(chain.count(table)) + pairs + 1) as u32;
        return Some(Place::Row(Token { table, row }));
    }
    None
}

/// The first new row of a table of children without its one Add entry.
#[tactic(auto, unfolding(crate::specs::Rules::child_fault))]
fn child_fault<C: ChainView>(chain: &C, listed: &[Token], log: &[LogEntry]) -> Option<Place>
    requires rows { AreTokens listed.now }
    requires inserts { insert_fault (C.chain chain.now) listed.now ≡ None }
    requires log { log_fault (C.chain chain.now) listed.now log.now ≡ None }
    ensures { result ≡ child_fault (C.chain chain.now) listed.now log.now }
{
    if let Some(fault) = child_fault_in(chain, listed, log, 2) {
        return Some(fault);
    }
    if let Some(fault) = child_fault_in(chain, listed, log, 1) {
        return Some(fault);
    }
    if let Some(fault) = child_fault_in(chain, listed, log, 3) {
        return Some(fault);
    }
    if let Some(fault) = child_fault_in(chain, listed, log, 5) {
        return Some(fault);
    }
    child_fault_in(chain, listed, log, 4)
}

#[tactic(auto, unfolding(crate::specs::Judged::unowned_child, // a new child without its Add entry
crate::specs::Judged::skipped_row, // a new row that isn't the next
crate::specs::Judged::bad_entry // an entry out of order
))]
/// The first new row of a table of children without its one Add entry, where the new rows and the
/// log are in order.
pub fn unowned_child<C: ChainView>(context: &Context<'_, C>) -> Option<Place>
    requires inserts { skipped_row context.now.chain context.now.delta ≡ None }
    requires log { bad_entry context.now.chain context.now.delta ≡ None }
    ensures { result ≡ unowned_child context.now.chain context.now.delta }
{
    child_fault(context.old.view, context.tokens(), context.log())
}
