//! Rows with the keys of those of their references that were asked for, so that each is found once.
ghost use Rattle.std.specs.Prelude.{◌≡◌, ℕ, ◌+◌, ◌*◌, ◌^◌, ◌<◌, List, Some, IfSome, length, is_some};
ghost use Rattle.enc_plain.specs.Cell.{blobs, kind_in};
ghost use Rattle.enc_plain.specs.Keys.{inner_key, spec_shape, spec_key, key_of, signature_key};
ghost use Rattle.enc_plain.specs.Rows.{bytes_at, AreStoredAt};
ghost use Rattle.enc_base.specs.Tables.{type_spec};

use crate::cells::CellView;
use crate::keys::{spec_of, token_key};
use crate::known::spec_place;
use crate::scope_keys::ScopeKeys;
use crate::signature::kind_in_table;
use enc_base::Token;
use enc_base::tables::{TYPE_REF, TYPE_SPEC};
use enc_key_map::{Index, Key, KeyEntry};
use enc_sigs::{Mix, SigKind, coded_token, finished, sig_shape};
use std::alloc::{AllocError, Global};
use std::marker::Model;

/// Rows, and the keys that were learnt: those of TypeRefs and of the scopes around them, and those of
/// signatures by the places of their blobs.
#[derive(Drop)]
pub struct RefKeys<'a, R: CellView> {
    scopes: ScopeKeys<'a, R>,
    index: Index<Mix>,
    specs: Index<Mix>,
    signatures: Index<u64>,
}

impl<'a, R: CellView> Model for RefKeys<'a, R> {
    ghost use Rattle.enc_plain.specs.Keys.{AreKeys, AreSpecShapes, AreSignatureKeys};

    ghost Value = { R };

    ghost view = { λ k. k.scopes };

    ghost invariant = { λ k. AreKeys (R.rows k.scopes) k.index
        × AreSpecShapes (R.rows k.scopes) (R.stored k.scopes) k.specs
        × AreSignatureKeys (R.rows k.scopes) (R.stored k.scopes) k.signatures };
}

/// What a token's key stands by.
fn place_of(token: Token) -> Key
    ensures { result ≡ record { table = token.table; row = token.row; place = 0 } }
{
    Key {
        table: token.table,
        row: token.row,
        place: 0,
    }
}

/// What the key of a signature of a table stands by: the place of its blob.
fn place_of_blob(table: u8, place: u64) -> Key
    ensures table { result.table ≡ table }
    ensures place { result.place * 2 ^ 32 + result.row ≡ place }
{
    Key {
        table,
        row: (place % 0x1_0000_0000) as u32,
        place: (place / 0x1_0000_0000) as u32,
    }
}

/// The token that stands behind a byte of a signature, if one may stand there: behind CLASS,
/// VALUETYPE, CMOD_REQD or CMOD_OPT (ECMA-335 II.23.1.16).
fn token_behind(blob: &[u8], at: usize) -> Option<Token>
    requires { at < length blob.now }
{
    match blob[at] {
        0x11 | 0x12 | 0x1f | 0x20 => {}
        _ => return None,
    }
    let (token, _) = coded_token(&blob[at + 1..])?;
    Some(token)
}

impl<'a, R: CellView> RefKeys<'a, R> {
    /// No key is learnt yet.
    #[tactic(auto, using(crate::proofs::Learnt::learnt_steps))]
    pub fn new(rows: &'a R) -> RefKeys<'a, R>
        ensures { result ≡ rows.now }
    {
        RefKeys {
            scopes: ScopeKeys::new(rows),
            index: Index::new(),
            specs: Index::new(),
            signatures: Index::new(),
        }
    }

    /// The rows.
    pub fn rows(&self) -> &'a R
        ensures { result.now ≡ self.now }
    {
        self.scopes.rows()
    }

    /// The key of a token in the signature of a TypeSpec.
    fn inner_key(&self, token: Token) -> Mix
        ensures { result ≡ inner_key (R.rows self.now) token }
    {
        self.scopes.inner_key(token)
    }

    /// The shape of the signature of a TypeSpec.
    #[tactic(auto, unfolding(crate::specs::Keys::spec_shape))]
    fn spec_shape(&self, blob: &[u8]) -> Mix
        ensures { result ≡ spec_shape (R.rows self.now) blob.now }
    {
        sig_shape(SigKind::TypeSpec, blob, |t| self.inner_key(t))
    }

    /// The shape of the signature of a TypeSpec at a place, where it was learnt.
    fn learnt_shape(&self, place: Option<u64>) -> Option<Mix>
        ensures { (blob : List ℕ) → AreStoredAt (R.stored self.now) place blob
            → IfSome result (λ k. k ≡ spec_shape (R.rows self.now) blob) }
    {
        let shape = self.specs.get(place_of_blob(TYPE_SPEC, place?))?;
        Some(*shape)
    }

    /// The shape of the signature of a TypeSpec's row.
    fn shape_of(&self, token: Token) -> Mix
        requires { token.table ≡ type_spec }
        ensures { result ≡ spec_shape (R.rows self.now) (bytes_at (R.rows self.now) token 0) }
    {
        let rows = self.scopes.rows();
        match self.learnt_shape(spec_place(rows, token)) {
            Some(shape) => shape,
            None => self.spec_shape(spec_of(rows, token)),
        }
    }

    /// The key of a TypeSpec: the shape of its signature. One that names no row is alike itself alone.
    #[tactic(auto, unfolding(crate::specs::Keys::spec_key))]
    fn spec_key(&self, token: Token) -> Mix
        requires { token.table ≡ type_spec }
        ensures { result ≡ spec_key (R.rows self.now) token }
    {
        if self.scopes.rows().has(token) {
            return self.shape_of(token);
        }
        token_key(token)
    }

    /// The key of a token that isn't learnt.
    #[tactic(auto, unfolding(crate::specs::Keys::key_of))]
    fn found_key(&self, token: Token) -> Mix
        ensures { result ≡ key_of (R.rows self.now) token }
    {
        if token.table == TYPE_SPEC {
            return self.spec_key(token);
        }
        self.scopes.ref_key(token)
    }

    /// The key of any token. Alike tokens have one.
    fn key_of(&self, token: Token) -> Mix
        ensures { result ≡ key_of (R.rows self.now) token }
    {
        match self.index.get(place_of(token)) {
            Some(key) => *key,
            None => self.found_key(token),
        }
    }

    /// Learns a key.
    #[tactic(auto, using(crate::proofs::Learnt::more_learnt))]
    fn put(&mut self, alloc: Global, token: Token, key: Mix) -> Result<(), AllocError>
        requires { key ≡ key_of (R.rows self.old) token }
        ensures { self.new ≡ self.old }
    {
        let entry = KeyEntry::new(alloc, place_of(token), key)?;
        self.index.put(entry);
        Ok(())
    }

    /// Learns the key of a TypeRef.
    fn learn_ref(&mut self, alloc: Global, token: Token) -> Result<(), AllocError>
        ensures { self.new ≡ self.old }
    {
        if token.table != TYPE_REF || self.index.get(place_of(token)).is_some() {
            return Ok(());
        }
        self.scopes.learn(alloc, token)?;
        let key = self.found_key(token);
        self.put(alloc, token, key)
    }

    /// Learns the keys of the TypeRefs in a signature.
    fn learn_refs(&mut self, alloc: Global, blob: &[u8]) -> Result<(), AllocError>
        ensures { self.new ≡ self.old }
    {
        for at in 0..blob.len() {
            if let Some(token) = token_behind(blob, at) {
                self.learn_ref(alloc, token)?;
            }
        }
        Ok(())
    }

    /// Learns the shape of the signature of a TypeSpec, by the place of its blob.
    #[tactic(auto, using(crate::proofs::Learnt::more_shapes))]
    fn put_shape(&mut self, alloc: Global, at: Key, blob: &[u8]) -> Result<(), AllocError>
        requires { R.stored self.old (at.place * 2 ^ 32 + at.row) ≡ Some blob.now }
        ensures { self.new ≡ self.old }
    {
        let shape = self.spec_shape(blob);
        let entry = KeyEntry::new(alloc, at, shape)?;
        self.specs.put(entry);
        Ok(())
    }

    /// Learns the shape of the signature of a TypeSpec and the keys of the TypeRefs in it, where it
    /// isn't learnt yet.
    fn learn_shape(&mut self, alloc: Global, at: Key, blob: &[u8]) -> Result<(), AllocError>
        requires { R.stored self.old (at.place * 2 ^ 32 + at.row) ≡ Some blob.now }
        ensures { self.new ≡ self.old }
    {
        if self.specs.get(at).is_some() {
            return Ok(());
        }
        self.learn_refs(alloc, blob)?;
        self.put_shape(alloc, at, blob)
    }

    /// Learns the key of a TypeSpec, once for all whose signature stands at one place.
    fn learn_spec(&mut self, alloc: Global, token: Token) -> Result<(), AllocError>
        requires { token.table ≡ type_spec }
        ensures { self.new ≡ self.old }
    {
        let rows = self.scopes.rows();
        match spec_place(rows, token) {
            Some(place) => self.learn_shape(
                alloc,
                place_of_blob(TYPE_SPEC, place),
                spec_of(rows, token),
            ),
            None => Ok(()),
        }
    }

    /// Learns the key of a token.
    fn learn_token(&mut self, alloc: Global, token: Token) -> Result<(), AllocError>
        ensures { self.new ≡ self.old }
    {
        if token.table == TYPE_SPEC {
            return self.learn_spec(alloc, token);
        }
        self.learn_ref(alloc, token)
    }

    /// Learns the keys of the TypeRefs and TypeSpecs in a signature. It takes memory for each that
    /// isn't learnt yet.
    fn learn(&mut self, alloc: Global, blob: &[u8]) -> Result<(), AllocError>
        ensures { self.new ≡ self.old }
    {
        for at in 0..blob.len() {
            if let Some(token) = token_behind(blob, at) {
                self.learn_token(alloc, token)?;
            }
        }
        Ok(())
    }

    /// The key of a signature of a table's rows.
    #[tactic(auto, unfolding(crate::specs::Keys::signature_key))]
    fn signature_key(&self, table: u8, blob: &[u8]) -> u64
        ensures { result ≡ signature_key (R.rows self.now) table blob.now }
    {
        let kind = kind_in_table(table, blob);
        finished(sig_shape(kind, blob, |t| self.key_of(t)))
    }

    /// The key of the signature of a table at a place, where it was learnt.
    fn learnt_at(&self, table: u8, place: Option<u64>) -> Option<u64>
        ensures { (blob : List ℕ) → AreStoredAt (R.stored self.now) place blob
            → IfSome result (λ k. k ≡ signature_key (R.rows self.now) table blob) }
    {
        let key = self.signatures.get(place_of_blob(table, place?))?;
        Some(*key)
    }

    /// Learns the key of a signature of a table, by the place of its blob.
    #[tactic(auto, using(crate::proofs::Learnt::more_signatures))]
    fn put_signature(&mut self, alloc: Global, at: Key, blob: &[u8]) -> Result<(), AllocError>
        requires { R.stored self.old (at.place * 2 ^ 32 + at.row) ≡ Some blob.now }
        ensures { self.new ≡ self.old }
    {
        let key = self.signature_key(at.table, blob);
        let entry = KeyEntry::new(alloc, at, key)?;
        self.signatures.put(entry);
        Ok(())
    }

    /// Learns the key of a signature and those of the tokens in it, where it isn't learnt yet.
    fn learn_at(&mut self, alloc: Global, at: Key, blob: &[u8]) -> Result<(), AllocError>
        requires { R.stored self.old (at.place * 2 ^ 32 + at.row) ≡ Some blob.now }
        ensures { self.new ≡ self.old }
    {
        if self.signatures.get(at).is_some() {
            return Ok(());
        }
        self.learn(alloc, blob)?;
        self.put_signature(alloc, at, blob)
    }

    /// Learns the key of the signature in a column of a row. It is found once for all rows of a table
    /// whose signature stands at one place, and takes memory for each place, and for each TypeRef and
    /// TypeSpec in it that isn't learnt yet.
    pub fn learn_row(&mut self, alloc: Global, row: Token, column: u8) -> Result<(), AllocError>
        requires { kind_in row.table column ≡ Some blobs }
        ensures { self.new ≡ self.old }
    {
        let rows = self.scopes.rows();
        match rows.blob_place(row, column) {
            Some(place) => self.learn_at(
                alloc,
                place_of_blob(row.table, place),
                rows.blob(row, column),
            ),
            None => Ok(()),
        }
    }

    /// The key of the signature in a column of a row. Alike signatures of fields, methods or
    /// properties have one. It takes no memory.
    pub fn row_key(&self, row: Token, column: u8) -> u64
        requires { kind_in row.table column ≡ Some blobs }
        ensures { result ≡ signature_key (R.rows self.now) row.table (bytes_at (R.rows self.now) row column) }
    {
        let rows = self.scopes.rows();
        match self.learnt_at(row.table, rows.blob_place(row, column)) {
            Some(key) => key,
            None => self.signature_key(row.table, rows.blob(row, column)),
        }
    }
}
