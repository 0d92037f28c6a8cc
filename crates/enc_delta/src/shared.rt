//! Members by numbers that twins have in common: those of one number stand in a row, and only they are
//! compared.
ghost use Rattle.std.specs.Prelude.{◌≡◌, ◌<◌, ◌++◌, map, filter, length, IsTrue, IfOk};
ghost use Rattle.std.specs.List.Sorted.{IsNonDecreasingBy};
ghost use Rattle.enc_delta.specs.Members.{is_member_table, owner_key, name_key, twin_key, keyed_by_name, keyed_by_signature, has_key, is_namesake, has_neighbour, near_told, no_keyed, is_other, AreKeyed, AreChildren, AreSame};
ghost use Rattle.enc_delta.specs.Cuts.{IsCutBy};

use crate::pairs::Pair;
use crate::twins::Members;
use enc_base::tables::{EVENT, FIELD, METHOD_DEF, PROPERTY};
use enc_sigs::{Mix, finished, mixed, mixed_ends};
use std::alloc::{AllocError, Global};

/// A member of an owner, with a number that its twins have too.
#[derive(Clone, Copy, Debug, PartialEq, Eq)]
pub struct Keyed {
    pub key: u64,
    pub pair: Pair,
    /// It is one of the new children, and no old member.
    pub is_new: bool,
}

/// What the numbers of the members of a pair's owner in its child's table begin with.
#[tactic(auto, unfolding(crate::specs::Members::owner_key))]
fn owner_key(pair: Pair) -> Mix
    ensures { result ≡ owner_key pair }
{
    Mix {
        high: u64::from(pair.child.table),
        low: u64::from(pair.owner.row),
    }
}

/// A number of a pair's owner, of its table and of its child's name, for which long names are read at
/// their ends alone.
#[tactic(auto, unfolding(crate::specs::Members::name_key))]
fn name_key<M: Members>(members: &M, pair: Pair) -> u64
    requires { IsTrue (is_member_table pair.child.table) }
    ensures { result ≡ name_key (M.asked members.now) pair }
{
    finished(mixed_ends(32, owner_key(pair), members.name(pair.child)))
}

/// A number of a pair's owner, of its table, of its child's name and of its child's signature.
#[tactic(auto, unfolding(crate::specs::Members::twin_key))]
fn twin_key<M: Members>(members: &M, pair: Pair) -> u64
    requires { IsTrue ((M.asked members.now).counts pair.child) }
    ensures { result ≡ twin_key (M.asked members.now) (M.keys members.now) pair }
{
    let signed = mixed(owner_key(pair), members.key(pair.child));
    finished(mixed_ends(0x800, signed, members.name(pair.child)))
}

/// Adds the pairs whose children count, each by the number of its name.
pub fn add_named<M: Members>(
    members: &M,
    entries: &mut Vec<Keyed>,
    pairs: &[Pair],
    is_new: bool,
) -> Result<(), AllocError>
    ensures named { IfOk result (λ _. entries.new.items ≡ entries.old.items ++ map
        (keyed_by_name (M.asked members.now) is_new)
        (filter (λ (k : Pair). (M.asked members.now).counts k.child) pairs.now)) }
    ensures children { IfOk result (λ _. AreChildren (M.asked members.now) pairs.now) }
{
    for k in 0..pairs.len() {
        let pair = pairs[k];
        if members.counts(pair.child) {
            entries.push(Keyed {
                key: name_key(members, pair),
                pair,
                is_new,
            })?;
        }
    }
    Ok(())
}

/// The members in the order of their numbers.
pub fn sorted(mut entries: Vec<Keyed>) -> Vec<Keyed>
    ensures sorted { IsNonDecreasingBy (λ (e : Keyed). e.key) result.items }
    ensures same { AreSame entries.items result.items }
{
    entries.sort_unstable_by_key(|entry| entry.key);
    entries
}

/// Whether a table is one of members (ECMA-335 II.22.15, II.22.26, II.22.13, II.22.34).
fn is_member_table(table: u8) -> bool
    ensures { result ≡ is_member_table table }
{
    table == FIELD || table == METHOD_DEF || table == EVENT || table == PROPERTY
}

/// How many of some members in the order of their numbers have a lesser one.
fn cut(entries: &[Keyed], key: u64) -> usize
    requires { IsNonDecreasingBy (λ (e : Keyed). e.key) entries.now }
    ensures { IsCutBy (λ (e : Keyed). e.key) no_keyed entries.now key result }
{
    entries.partition_point(|entry| entry.key < key)
}

/// Whether one of some members in the order of their numbers has a number.
fn has_key(entries: &[Keyed], key: u64) -> bool
    requires { IsNonDecreasingBy (λ (e : Keyed). e.key) entries.now }
    ensures { result ≡ has_key entries.now key }
{
    let i = cut(entries, key);
    if i >= entries.len() {
        return false;
    }
    entries[i].key == key
}

/// Whether a pair's child is of a table of members, and one of some members has its name's number.
fn is_namesake<M: Members>(members: &M, entries: &[Keyed], pair: Pair) -> bool
    requires { IsNonDecreasingBy (λ (e : Keyed). e.key) entries.now }
    ensures { result ≡ is_namesake (M.asked members.now) entries.now pair }
{
    is_member_table(pair.child.table) && has_key(entries, name_key(members, pair))
}

/// The pairs with whose names some members have a number in common. Nothing but the name is read, and
/// no other pair's child is a twin of one of those members.
pub fn namesakes<M: Members>(
    alloc: Global,
    members: &M,
    entries: &[Keyed],
    pairs: &[Pair],
) -> Result<Vec<Pair>, AllocError>
    requires { IsNonDecreasingBy (λ (e : Keyed). e.key) entries.now }
    ensures { IfOk result (λ l. l.items ≡ filter (is_namesake (M.asked members.now) entries.now) pairs.now) }
{
    let mut kept = Vec::new(alloc);
    for k in 0..pairs.len() {
        let pair = pairs[k];
        if is_namesake(members, entries, pair) {
            kept.push(pair)?;
        }
    }
    Ok(kept)
}

/// Whether the member before one or the one behind it has the same number.
#[tactic(auto, unfolding(crate::specs::Members::has_neighbour))]
fn has_neighbour(entries: &[Keyed], k: usize) -> bool
    requires { k < length entries.now }
    ensures { result ≡ has_neighbour entries.now k }
{
    let key = entries[k].key;
    0 < k && entries[k - 1].key == key || k + 1 < entries.len() && entries[k + 1].key == key
}

/// Learns what is asked for the numbers of the members whose number another has.
pub fn learn_shared<M: Members>(
    alloc: Global,
    members: &mut M,
    entries: &[Keyed],
) -> Result<(), AllocError>
    ensures { members.new ≡ members.old }
{
    for k in 0..entries.len() {
        let child = entries[k].pair.child;
        if has_neighbour(entries, k) && members.counts(child) {
            members.learn(alloc, child)?;
        }
    }
    Ok(())
}

/// The members whose number another has, each by a number of its signature too.
pub fn shared<M: Members>(
    alloc: Global,
    members: &M,
    entries: &[Keyed],
) -> Result<Vec<Keyed>, AllocError>
    requires { AreKeyed (M.asked members.now) (name_key (M.asked members.now)) entries.now }
    ensures { IfOk result (λ l. l.items ≡ near_told (M.asked members.now) (M.keys members.now) entries.now
        (length entries.now)) }
{
    let mut kept = Vec::new(alloc);
    for k in 0..entries.len() {
        let entry = entries[k];
        if has_neighbour(entries, k) {
            kept.push(Keyed {
                key: twin_key(members, entry.pair),
                pair: entry.pair,
                is_new: entry.is_new,
            })?;
        }
    }
    Ok(kept)
}
