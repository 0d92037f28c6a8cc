//! Twins: new children that neither name nor signature tells from another member of their owner.
ghost use Rattle.std.specs.Prelude.{◌≡◌, ℕ, ◌<◌, map, filter, length, IsTrue, IfOk};
ghost use Rattle.std.specs.List.Sorted.{IsNonDecreasingBy};
ghost use Rattle.enc_base.specs.declared.token.Token.{Token as TheToken};
ghost use Rattle.enc_schema.specs.Children.{is_child_table};
ghost use Rattle.enc_delta.specs.Twins.{Asked, is_twin, twin_fault};
ghost use Rattle.enc_delta.specs.TwinLaw.{NamesLeastTwin};
ghost use Rattle.enc_delta.specs.Rules.{least};
ghost use Rattle.enc_delta.specs.Members.{pair_seen, is_member_table, is_twin_beside, twin_key, keyed_at, keyed_number, has_twin_among, is_new_twin, IsTwinBehind, IsTwinBefore, AreKeyed, ArePairs, AreInMemberTables, AlikeHaveOneKey};

use crate::lists::{lesser, placed};
use crate::pairs::Pair;
use crate::shared::{Keyed, add_named, learn_shared, namesakes, shared, sorted};
use crate::siblings::{is_beside, old_members};
use enc_base::{Place, Token};
use enc_plain::{ChainView, ModuleView};
use std::alloc::{AllocError, Global};

/// What twins are told by. No call but `learn` and `alike` takes memory.
pub trait Members {
    // How it answers.
    ghost asked: { Self → Asked };
    // Numbers that rows with alike signatures have in common.
    ghost keys: { Self → TheToken → ℕ };

    /// Whether the row counts. Only rows of child tables do.
    fn counts(&self, member: Token) -> bool
        ensures counts { result ≡ (asked self.now).counts member }
        ensures child { IsTrue result → IsTrue (is_child_table member.table) };

    /// The name of a row of a table of members, whether it counts or not.
    fn name(&self, member: Token) -> &[u8]
        requires { IsTrue (is_member_table member.table) }
        ensures { result.now ≡ (asked self.now).name member };

    /// Whether two rows of one table that count have alike signatures.
    fn alike(&mut self, member: Token, other: Token) -> bool
        requires member { IsTrue ((asked self.old).counts member) }
        requires other { IsTrue ((asked self.old).counts other) }
        requires table { member.table ≡ other.table }
        ensures alike { result ≡ (asked self.old).alike member other }
        ensures kept { self.new ≡ self.old };

    /// A number that rows with alike signatures have in common.
    fn key(&self, member: Token) -> u64
        requires { IsTrue ((asked self.now).counts member) }
        ensures { result ≡ keys self.now member };

    /// Learns what is asked for the number of a row that counts, so that it is found once for all.
    fn learn(&mut self, alloc: Global, member: Token) -> Result<(), AllocError>
        requires { IsTrue ((asked self.old).counts member) }
        ensures { self.new ≡ self.old };

    // Those that count are of tables of members.
    ghost tables: { (m : Self) → AreInMemberTables (asked m) };

    // Those with alike signatures have one.
    ghost one: { (m : Self) → AlikeHaveOneKey (asked m) (keys m) };
}

/// Whether another row of a member's table counts and has the same name and an alike signature.
fn is_twin<M: Members>(members: &mut M, member: Token, other: Token) -> bool
    requires counts { IsTrue ((M.asked members.old).counts member) }
    requires table { member.table ≡ other.table }
    ensures twin { result ≡ is_twin (M.asked members.old) member other }
    ensures kept { members.new ≡ members.old }
{
    member.row != other.row
        && members.counts(other)
        && members.name(member) == members.name(other)
        && members.alike(member, other)
}

/// Whether the child of another pair is a twin of a pair's child.
fn is_twin_beside<M: Members>(members: &mut M, pair: Pair, other: Pair) -> bool
    requires { IsTrue ((M.asked members.old).counts pair.child) }
    ensures twin { result ≡ is_twin_beside (M.asked members.old) pair other }
    ensures kept { members.new ≡ members.old }
{
    if !is_beside(pair, other) {
        return false;
    }
    let child = Token {
        table: pair.child.table,
        row: other.child.row,
    };
    is_twin(members, pair.child, child)
}

/// Whether a twin of a member stands behind it, among those of its number.
fn has_twin_behind<M: Members>(members: &mut M, entries: &[Keyed], k: usize) -> bool
    requires k { k < length entries.now }
    requires keyed { AreKeyed (M.asked members.old) (twin_key (M.asked members.old) (M.keys members.old)) entries.now }
    requires sorted { IsNonDecreasingBy (λ (e : Keyed). e.key) entries.now }
    ensures twin { IsTwinBehind (M.asked members.old) entries.now k result }
    ensures kept { members.new ≡ members.old }
{
    let entry = entries[k];
    for j in k + 1..entries.len() {
        let other = entries[j];
        if other.key != entry.key {
            return false;
        }
        if is_twin_beside(members, entry.pair, other.pair) {
            return true;
        }
    }
    false
}

/// Whether a twin of a member stands before it, among those of its number.
fn has_twin_before<M: Members>(members: &mut M, entries: &[Keyed], k: usize) -> bool
    requires k { k < length entries.now }
    requires keyed { AreKeyed (M.asked members.old) (twin_key (M.asked members.old) (M.keys members.old)) entries.now }
    requires sorted { IsNonDecreasingBy (λ (e : Keyed). e.key) entries.now }
    ensures twin { IsTwinBefore (M.asked members.old) entries.now k result }
    ensures kept { members.new ≡ members.old }
{
    let entry = entries[k];
    let mut left = k;
    while left > 0 {
        left -= 1;
        let other = entries[left];
        if other.key != entry.key {
            return false;
        }
        if is_twin_beside(members, entry.pair, other.pair) {
            return true;
        }
    }
    false
}

/// Whether a member has a twin among those of its number.
fn has_twin<M: Members>(members: &mut M, entries: &[Keyed], k: usize) -> bool
    requires k { k < length entries.now }
    requires keyed { AreKeyed (M.asked members.old) (twin_key (M.asked members.old) (M.keys members.old)) entries.now }
    requires sorted { IsNonDecreasingBy (λ (e : Keyed). e.key) entries.now }
    ensures twin { result ≡ has_twin_among (M.asked members.old) entries.now (keyed_at entries.now k) }
    ensures kept { members.new ≡ members.old }
{
    if has_twin_behind(members, entries, k) {
        return true;
    }
    has_twin_before(members, entries, k)
}

/// Whether a member is new and has a twin among those of its number.
fn is_new_twin<M: Members>(members: &mut M, entries: &[Keyed], k: usize) -> bool
    requires k { k < length entries.now }
    requires keyed { AreKeyed (M.asked members.old) (twin_key (M.asked members.old) (M.keys members.old)) entries.now }
    requires sorted { IsNonDecreasingBy (λ (e : Keyed). e.key) entries.now }
    ensures twin { result ≡ is_new_twin (M.asked members.old) entries.now (keyed_at entries.now k) }
    ensures kept { members.new ≡ members.old }
{
    if !entries[k].is_new {
        return false;
    }
    has_twin(members, entries, k)
}

/// The least new member that has a twin among those of its number.
fn least_twin<M: Members>(members: &mut M, entries: &[Keyed]) -> Option<u32>
    requires keyed { AreKeyed (M.asked members.old) (twin_key (M.asked members.old) (M.keys members.old)) entries.now }
    requires sorted { IsNonDecreasingBy (λ (e : Keyed). e.key) entries.now }
    ensures twin { result ≡ least (map keyed_number
        (filter (is_new_twin (M.asked members.old) entries.now) entries.now)) }
    ensures kept { members.new ≡ members.old }
{
    let mut best: Option<u32> = None;
    for k in 0..entries.len() {
        let child = entries[k].pair.child;
        if is_new_twin(members, entries, k) {
            best = Some(lesser(child.number(), best));
        }
    }
    best
}

/// The least new child that has a twin, None where none has. No call but this one takes memory.
pub fn twin_fault<C: ChainView, M: Members>(
    alloc: Global,
    chain: &C,
    members: &mut M,
    pairs: &[Pair],
) -> Result<Option<Place>, AllocError>
    requires rows { ArePairs pairs.now }
    ensures { IfOk result (λ p. p ≡ twin_fault (M.asked members.old) (C.chain chain.now).plain
        (map pair_seen pairs.now)) }
{
    let old = old_members(alloc, chain, members, pairs)?;
    let mut new = Vec::new(alloc);
    add_named(members, &mut new, pairs, true)?;
    let mut entries = sorted(new);
    let kept = namesakes(alloc, members, &entries, &old)?;
    add_named(members, &mut entries, &kept, false)?;
    let named = sorted(entries);
    learn_shared(alloc, members, &named)?;
    let told = sorted(shared(alloc, members, &named)?);
    Ok(placed(least_twin(members, &told)))
}

/// Where `twin_fault` names a child, it has a twin, and no lesser new child has one; where it names
/// none, none has.
pub fn twin_law()
    ensures { NamesLeastTwin }
{}
