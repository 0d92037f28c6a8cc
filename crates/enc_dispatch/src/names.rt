//! Methods as slots tell them apart: by name and signature.
ghost use Rattle.std.specs.Prelude.{◌≡◌, IfOk, Some};
ghost use Rattle.enc_plain.specs.Alike.{signatures_alike};
ghost use Rattle.enc_plain.specs.Rows.{bytes_at};
ghost use Rattle.enc_base.specs.Tables.{method_def};
ghost use Rattle.enc_dispatch.specs.Buckets.{slot_key};
ghost use Rattle.enc_dispatch.specs.Slots.{shares_slot};
ghost use Rattle.enc_dispatch.specs.Walks.{method_at};

use enc_base::Token;
use enc_base::tables::METHOD_DEF;
use enc_plain::{CellView, KnownAlike, PlacedBlob, RefKeys};
use enc_schema::columns::{METHOD_DEF_NAME, METHOD_DEF_SIGNATURE};
use enc_sigs::{finished, mix_of, mixed, mixed_ends};
use std::alloc::{AllocError, Global};
use std::marker::Model;

/// How many bytes of a name count at either end.
const MOST: usize = 0x800;

/// The names and signatures of methods, with the keys of the signatures and with what is known of
/// their likeness.
#[derive(Drop)]
pub(crate) struct MethodNames<'a, R: CellView> {
    keys: RefKeys<'a, R>,
    known: KnownAlike,
}

impl<'a, R: CellView> Model for MethodNames<'a, R> {
    ghost use Rattle.enc_plain.specs.Known.{AreKnownAlike};

    ghost Value = { R };

    ghost view = { λ n. n.keys };

    ghost invariant = { λ n. AreKnownAlike (R.rows n.keys) (R.stored n.keys) n.known };
}

impl<'a, R: CellView> MethodNames<'a, R> {
    /// Nothing is known yet.
    pub fn new(alloc: Global, rows: &'a R) -> MethodNames<'a, R>
        ensures { result ≡ rows.now }
    {
        MethodNames {
            keys: RefKeys::new(rows),
            known: KnownAlike::new(alloc),
        }
    }

    /// The name of a method (ECMA-335 II.22.26).
    #[tactic(auto, unfolding(enc_schema::specs::Schema::columns_in))]
    fn name(&self, method: Token) -> &[u8]
        requires { method.table ≡ method_def }
        ensures { result.now ≡ bytes_at (R.rows self.now) method 3 }
    {
        self.keys.rows().text(method, METHOD_DEF_NAME)
    }

    /// Whether two methods have alike signatures (ECMA-335 II.23.2). Two blobs are compared once.
    #[tactic(auto, unfolding(enc_schema::specs::Schema::columns_in))]
    fn are_alike(&mut self, a: Token, b: Token) -> bool
        requires a { a.table ≡ method_def }
        requires b { b.table ≡ method_def }
        ensures alike { result ≡ signatures_alike (R.rows self.old) method_def (bytes_at (R.rows self.old) a 4)
            (bytes_at (R.rows self.old) b 4) }
        ensures kept { self.new ≡ self.old }
    {
        let rows = self.keys.rows();
        let left = PlacedBlob {
            place: rows.blob_place(a, METHOD_DEF_SIGNATURE),
            bytes: rows.blob(a, METHOD_DEF_SIGNATURE),
        };
        let right = PlacedBlob {
            place: rows.blob_place(b, METHOD_DEF_SIGNATURE),
            bytes: rows.blob(b, METHOD_DEF_SIGNATURE),
        };
        self.known.stored_alike(rows, METHOD_DEF, &left, &right)
    }

    /// Whether the method of a row shares another's slot: they have equal names and alike signatures.
    #[tactic(auto, unfolding(crate::specs::Slots::shares_slot))]
    pub fn share_slot(&mut self, row: u32, other: Token) -> bool
        requires { other.table ≡ method_def }
        ensures share { result ≡ shares_slot (R.rows self.old) (method_at row) other }
        ensures kept { self.new ≡ self.old }
    {
        let method = Token {
            table: METHOD_DEF,
            row,
        };
        if self.name(method) != self.name(other) {
            return false;
        }
        self.are_alike(method, other)
    }

    /// The key of a method: methods that share a slot have one. It takes memory for each signature,
    /// and for each reference in it, whose key isn't learnt yet.
    #[tactic(auto, unfolding(enc_schema::specs::Schema::columns_in, crate::specs::Buckets::slot_key))]
    pub fn key(&mut self, alloc: Global, method: Token) -> Result<u64, AllocError>
        requires { method.table ≡ method_def }
        ensures key { IfOk result (λ k. k ≡ slot_key (R.rows self.old) method) }
        ensures kept { self.new ≡ self.old }
    {
        self.keys.learn_row(alloc, method, METHOD_DEF_SIGNATURE)?;
        let signature = self.keys.row_key(method, METHOD_DEF_SIGNATURE);
        let name = mixed_ends(MOST, mix_of(0), self.name(method));
        Ok(finished(mixed(name, signature)))
    }
}
