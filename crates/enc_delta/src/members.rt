//! Judging new fields and methods by the types that gain them, and new members by their
//! siblings.
ghost use Rattle.std.specs.Prelude.{◌≡◌, ◌<◌, ◌==◌, ◌&&◌, ◌||◌, Some, not, map, unwrap_or, IfOk, IsTrue};
ghost use Rattle.enc_plain.specs.Alike.{signatures_alike};
ghost use Rattle.enc_plain.specs.Cell.{blobs, kind_in};
ghost use Rattle.enc_plain.specs.Rows.{bytes_at};
ghost use Rattle.enc_plain.specs.Signatures.{signature_column};
ghost use Rattle.enc_delta.specs.Gains.{breaks, has_signature};
ghost use Rattle.enc_delta.specs.Rules.{is_insert};
ghost use Rattle.enc_base.specs.Numbers.{has_flag};
ghost use Rattle.enc_delta.specs.Context.{joined_rows};
ghost use Rattle.enc_delta.specs.Pairs.{attached_of};
ghost use Rattle.enc_delta.specs.Twins.{twin_fault};
ghost use Rattle.enc_delta.specs.Members.{pair_seen, ArePairs};
ghost use Rattle.enc_plain.specs.Keys.{member_key};
ghost use Rattle.enc_plain.specs.Known.{AreKnownAlike};
ghost use Rattle.enc_delta.specs.OneKey.{in_member_tables, one_key};
ghost use Rattle.enc_plain.specs.ValueType.{is_value_type};
ghost use Rattle.enc_delta.specs.Changes.{has_layout, is_out_of_layout, has_no_slot, least_child, is_member, asked_of, name_column, same_signature, field_out_of_layout, method_without_slot, twin_member};
ghost use Rattle.enc_base.specs.Tables.{type_def};

use crate::context::Context;
use crate::known::is_insert;
use crate::lists::{lesser, placed};
use crate::pairs::Pair;
use crate::twins::{Members, twin_fault};
use enc_base::tables::{EVENT, FIELD, METHOD_DEF, PROPERTY, TYPE_DEF};
use enc_base::{Place, Token};
use enc_plain::{CellView, ChainView, KnownAlike, PlacedBlob, RefKeys, is_value_type};
use enc_schema::columns::{
    FIELD_FLAGS, FIELD_SIGNATURE, METHOD_DEF_FLAGS, METHOD_DEF_SIGNATURE, TYPE_DEF_FLAGS,
};
use std::alloc::{AllocError, Global};
use std::marker::Model;

/// A flag is set.
fn has_flag(flag: u32, flags: u32) -> bool
    requires { 0 < flag }
    ensures { result ≡ has_flag flag flags }
{
    flags / flag % 2 == 1
}

/// The type says how its fields are laid out, or is a value type.
#[tactic(auto, using(enc_plain::proofs::ColumnKinds::type_flags))]
fn is_laid_out<R: CellView>(rows: &R, owner: Token) -> bool
    requires { owner.table ≡ type_def }
    ensures { result ≡ (has_layout (R.rows rows.now) owner || is_value_type (R.rows rows.now) owner) }
{
    rows.number(owner, TYPE_DEF_FLAGS) / 8 % 4 != 0 || is_value_type(rows, owner)
}

/// The pair gives a child of a table to a type that was there.
fn gives_to_old<C: ChainView>(chain: &C, pair: Pair, table: u8) -> bool
    ensures given { result ≡ (pair.child.table == table && pair.owner.table == type_def
        && not (is_insert (C.chain chain.now) pair.owner)) }
    ensures child { IsTrue result → pair.child.table ≡ table }
    ensures owner { IsTrue result → pair.owner.table ≡ type_def }
{
    pair.child.table == table && pair.owner.table == TYPE_DEF && !is_insert(chain, pair.owner)
}

/// A field that isn't static, for a type that a chain has and that is laid out, by these rows.
#[tactic(auto, using(enc_plain::proofs::ColumnKinds::field_flags), unfolding(crate::specs::Changes::is_out_of_layout))]
pub fn is_out_of_layout<C: ChainView, R: CellView>(chain: &C, rows: &R, pair: Pair) -> bool
    ensures { result ≡ is_out_of_layout (C.chain chain.now) (R.rows rows.now) (pair_seen pair) }
{
    gives_to_old(chain, pair, FIELD)
        && !has_flag(0x10, rows.number(pair.child, FIELD_FLAGS))
        && is_laid_out(rows, pair.owner)
}

/// A virtual method for an interface that a chain has, or one that is abstract too for any type that it
/// has, by these rows.
#[tactic(auto, using(enc_plain::proofs::ColumnKinds::flags_cases), unfolding(crate::specs::Changes::has_no_slot))]
pub fn has_no_slot<C: ChainView, R: CellView>(chain: &C, rows: &R, pair: Pair) -> bool
    ensures { result ≡ has_no_slot (C.chain chain.now) (R.rows rows.now) (pair_seen pair) }
{
    if !gives_to_old(chain, pair, METHOD_DEF) {
        return false;
    }
    let flags = rows.number(pair.child, METHOD_DEF_FLAGS);
    has_flag(0x40, flags)
        && (has_flag(0x20, rows.number(pair.owner, TYPE_DEF_FLAGS)) || has_flag(0x400, flags))
}

/// Which gains are judged.
#[derive(Clone, Copy, Debug, PartialEq, Eq)]
enum Gain {
    /// Fields of types that are laid out.
    Field,
    /// Methods that take a place among a type's virtual ones.
    Method,
}

/// The pair breaks the rule.
fn breaks<C: ChainView>(context: &Context<'_, C>, gain: Gain, pair: Pair) -> bool
    ensures { result ≡ breaks context.now gain (pair_seen pair) }
{
    match gain {
        Gain::Field => is_out_of_layout(context.old.view, context, pair),
        Gain::Method => has_no_slot(context.old.view, context, pair),
    }
}

/// The least child whose pair breaks the rule.
fn least_child<C: ChainView>(context: &Context<'_, C>, gain: Gain) -> Option<Place>
    ensures { result ≡ least_child (breaks context.now gain) context.now.delta }
{
    let mut best: Option<u32> = None;
    let pairs = context.pairs();
    for k in 0..pairs.len() {
        let pair = pairs[k];
        if breaks(context, gain, pair) {
            best = Some(lesser(pair.child.number(), best));
        }
    }
    placed(best)
}

/// The least new field that isn't static, in a type that was there and is laid out.
#[tactic(auto, unfolding(crate::specs::Changes::field_out_of_layout))]
pub fn field_out_of_layout<C: ChainView>(context: &Context<'_, C>) -> Option<Place>
    ensures { result ≡ field_out_of_layout context.now.chain context.now.delta }
{
    least_child(context, Gain::Field)
}

/// The least new method that takes a place in a type that was there.
#[tactic(auto, unfolding(crate::specs::Changes::method_without_slot))]
pub fn method_without_slot<C: ChainView>(context: &Context<'_, C>) -> Option<Place>
    ensures { result ≡ method_without_slot context.now.chain context.now.delta }
{
    least_child(context, Gain::Method)
}

/// The column of a member's name.
fn name_column(table: u8) -> u8
    ensures { result ≡ name_column table }
{
    if table == METHOD_DEF { 3 } else { 1 }
}

/// The column of the signature of fields, methods or properties.
#[tactic(auto, using(crate::proofs::MemberKinds::signature_steps, enc_plain::proofs::ColumnKinds::method_signature))]
fn signature_at(table: u8) -> u8
    requires { IsTrue (has_signature table) }
    ensures column { result ≡ unwrap_or (signature_column table) 0 }
    ensures kind { kind_in table result ≡ Some blobs }
{
    if table == METHOD_DEF {
        return METHOD_DEF_SIGNATURE;
    }
    // a property's stands in the same column
    FIELD_SIGNATURE
}

/// Whether two places are one.
pub fn is_one_place(a: Option<u64>, b: Option<u64>) -> bool
    ensures { IsTrue result → a ≡ b }
{
    match a {
        Some(m) => match b {
            Some(n) => m == n,
            None => false,
        },
        None => false,
    }
}

/// Whether the blobs of two rows of one table are alike signatures. Those of one place aren't read,
/// and two are compared once, however many rows have them. It takes memory for what is known of
/// likeness; without it, it is judged again.
fn are_alike<R: CellView>(
    rows: &R,
    known: &mut KnownAlike,
    column: u8,
    member: Token,
    other: Token,
) -> bool
    requires table { member.table ≡ other.table }
    requires kind { kind_in member.table column ≡ Some blobs }
    requires known { AreKnownAlike (R.rows rows.now) (R.stored rows.now) known.old }
    ensures alike { result ≡ signatures_alike (R.rows rows.now) member.table (bytes_at (R.rows rows.now) member column)
        (bytes_at (R.rows rows.now) other column) }
    ensures known { AreKnownAlike (R.rows rows.now) (R.stored rows.now) known.new }
{
    let left = PlacedBlob {
        place: rows.blob_place(member, column),
        bytes: rows.blob(member, column),
    };
    let right = PlacedBlob {
        place: rows.blob_place(other, column),
        bytes: rows.blob(other, column),
    };
    if is_one_place(left.place, right.place) {
        return true;
    }
    known.stored_alike(rows, member.table, &left, &right)
}

/// Whether two members of one table have alike signatures; events have none.
#[tactic(auto, using(crate::proofs::MemberKinds::told_by_signature), unfolding(crate::specs::Changes::same_signature))]
fn same_signature<R: CellView>(
    rows: &R,
    known: &mut KnownAlike,
    member: Token,
    other: Token,
) -> bool
    requires counts { IsTrue (is_member (R.rows rows.now) member) }
    requires table { member.table ≡ other.table }
    requires known { AreKnownAlike (R.rows rows.now) (R.stored rows.now) known.old }
    ensures alike { result ≡ same_signature (R.rows rows.now) member other }
    ensures known { AreKnownAlike (R.rows rows.now) (R.stored rows.now) known.new }
{
    if member.table == EVENT {
        return true;
    }
    are_alike(rows, known, signature_at(member.table), member, other)
}

/// The key of a member's signature; events have none.
#[tactic(auto, using(crate::proofs::MemberKinds::told_by_signature), unfolding(enc_plain::specs::Keys::member_key))]
fn member_key<R: CellView>(keys: &RefKeys<'_, R>, member: Token) -> u64
    requires { IsTrue (is_member (R.rows keys.now) member) }
    ensures { result ≡ member_key (R.rows keys.now) member }
{
    if member.table == EVENT {
        return 0;
    }
    keys.row_key(member, signature_at(member.table))
}

/// Learns the key of a member's signature, once for all that share it; events have none.
#[tactic(auto, using(crate::proofs::MemberKinds::told_by_signature))]
fn learn_member<R: CellView>(
    alloc: Global,
    keys: &mut RefKeys<'_, R>,
    member: Token,
) -> Result<(), AllocError>
    requires { IsTrue (is_member (R.rows keys.old) member) }
    ensures { keys.new ≡ keys.old }
{
    if member.table == EVENT {
        return Ok(());
    }
    keys.learn_row(alloc, member, signature_at(member.table))
}

/// Rows with the keys of their signatures, and with what is known of the likeness of those of each
/// table: what is known of one table's is forgotten where another's are asked for.
#[derive(Drop)]
struct Signatures<'a, R: CellView> {
    keys: RefKeys<'a, R>,
    fields: KnownAlike,
    methods: KnownAlike,
    properties: KnownAlike,
}

impl<'a, R: CellView> Model for Signatures<'a, R> {
    ghost use Rattle.enc_plain.specs.Known.{AreKnownAlike};

    ghost Value = { R };

    ghost view = { λ s. s.keys };

    ghost invariant = { λ s. AreKnownAlike (R.rows s.keys) (R.stored s.keys) s.fields
        × AreKnownAlike (R.rows s.keys) (R.stored s.keys) s.methods
        × AreKnownAlike (R.rows s.keys) (R.stored s.keys) s.properties };
}

impl<'a, R: CellView> Signatures<'a, R> {
    /// Nothing is known yet.
    fn new(alloc: Global, rows: &'a R) -> Signatures<'a, R>
        ensures { result ≡ rows.now }
    {
        Signatures {
            keys: RefKeys::new(rows),
            fields: KnownAlike::new(alloc),
            methods: KnownAlike::new(alloc),
            properties: KnownAlike::new(alloc),
        }
    }

    /// Whether two members of one table have alike signatures.
    fn are_alike(&mut self, member: Token, other: Token) -> bool
        requires counts { IsTrue (is_member (R.rows self.old) member) }
        requires table { member.table ≡ other.table }
        ensures alike { result ≡ same_signature (R.rows self.old) member other }
        ensures kept { self.new ≡ self.old }
    {
        let rows = self.keys.rows();
        match member.table {
            FIELD => same_signature(rows, &mut self.fields, member, other),
            METHOD_DEF => same_signature(rows, &mut self.methods, member, other),
            _ => same_signature(rows, &mut self.properties, member, other),
        }
    }
}

impl<R: CellView> Members for Signatures<'_, R> {
    ghost asked = { λ r. asked_of (R.rows r) };

    ghost keys = { λ r. member_key (R.rows r) };

    ghost tables = { λ r. in_member_tables (R.rows r) };

    ghost one = { λ r. one_key (R.rows r) };

    #[tactic(auto, using(enc_plain::proofs::ColumnKinds::flags_steps), unfolding(crate::specs::Changes::is_member))]
    fn counts(&self, member: Token) -> bool {
        let rows = self.keys.rows();
        match member.table {
            FIELD => rows.number(member, FIELD_FLAGS) % 8 != 0,
            METHOD_DEF => rows.number(member, METHOD_DEF_FLAGS) % 8 != 0,
            table => table == EVENT || table == PROPERTY,
        }
    }

    #[tactic(auto, using(crate::proofs::MemberKinds::name_kind))]
    fn name(&self, member: Token) -> &[u8] {
        self.keys.rows().text(member, name_column(member.table))
    }

    fn alike(&mut self, member: Token, other: Token) -> bool {
        self.are_alike(member, other)
    }

    fn key(&self, member: Token) -> u64 {
        member_key(&self.keys, member)
    }

    fn learn(&mut self, alloc: Global, member: Token) -> Result<(), AllocError> {
        learn_member(alloc, &mut self.keys, member)
    }
}

/// The least of some new members that has a sibling of equal name and, but for an event, alike
/// signature: one that its owner has in a chain, or another new one. Cells and likeness are those of the
/// rows. It takes memory for each new member and each old one beside it, for the references that
/// signatures of members of one name name, and for what is known of the likeness of those of one key.
pub fn twin_among<C: ChainView, R: CellView>(
    alloc: Global,
    chain: &C,
    rows: &R,
    pairs: &[Pair],
) -> Result<Option<Place>, AllocError>
    requires { ArePairs pairs.now }
    ensures { IfOk result (λ p. p ≡ twin_fault (asked_of (R.rows rows.now)) (C.chain chain.now).plain
        (map pair_seen pairs.now)) }
{
    let mut members = Signatures::new(alloc, rows);
    twin_fault(alloc, chain, &mut members, pairs)
}

/// The least new member of a delta with a sibling of equal name and, but for an event, alike signature.
#[tactic(auto, unfolding(crate::specs::Changes::twin_member))]
pub fn twin_member<C: ChainView>(
    alloc: Global,
    context: &Context<'_, C>,
) -> Result<Option<Place>, AllocError>
    ensures { IfOk result (λ p. p ≡ twin_member context.now.chain context.now.delta) }
{
    twin_among(alloc, context.old.view, context, context.pairs())
}
