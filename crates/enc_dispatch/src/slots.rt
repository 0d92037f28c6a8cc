//! The slots of methods: each method is given the one of the first method that shares it.
ghost use Rattle.std.specs.Prelude.{◌≡◌, ◌+◌, ◌-◌, ◌<◌, ◌≤◌, ◌^◌, ◌++◌, ◌∷◌, [], ℕ, Some, None, IfOk, length, slice_get, if◌then◌else◌};
ghost use Rattle.enc_base.specs.Token.{nth_row};
ghost use Rattle.enc_key_map.specs.declared.key.Key.{Key as TheKey};
ghost use Rattle.enc_key_map.specs.Key.{is_key};
ghost use Rattle.enc_key_map.specs.Index.{value_at, either, latest};
ghost use Rattle.enc_base.specs.Tables.{method_def};
ghost use Rattle.enc_dispatch.specs.Buckets.{alike_first, bucket_key, stored_head, head_over, AreBuckets};
ghost use Rattle.enc_dispatch.specs.Slots.{slot_in};

use crate::names::MethodNames;
use enc_base::Token;
use enc_base::tables::METHOD_DEF;
use enc_key_map::{Index, Key, KeyEntry, push_entry};
use enc_plain::CellView;
use std::alloc::{AllocError, Global};

/// The first methods of all slots, by their keys: of each key the newest, and behind each method the
/// one that was the newest before it.
#[derive(Drop)]
pub(crate) struct Slots {
    pub heads: Index<u32>,
    pub next: Vec<Option<u32>>,
}

/// The slots of methods that come behind others: the heads that they put before the others', the same
/// as entries, and what is behind each of these methods.
#[derive(Drop)]
pub(crate) struct MoreSlots {
    pub heads: Index<u32>,
    pub entries: Vec<KeyEntry<u32>>,
    pub next: Vec<Option<u32>>,
}

/// What the newest first method with a key stands by.
fn bucket_key(key: u64) -> Key
    ensures { result ≡ bucket_key key }
{
    Key {
        table: METHOD_DEF,
        row: (key % 0x1_0000_0000) as u32,
        place: (key / 0x1_0000_0000) as u32,
    }
}

impl Slots {
    /// No method has a slot yet. It takes no memory.
    pub fn new(alloc: Global) -> Slots
        ensures none { (q : TheKey) → value_at result.heads q ≡ None }
        ensures size { result.next.items ≡ [] }
    {
        Slots {
            heads: Index::new(),
            next: Vec::new(alloc),
        }
    }

    /// The newest first method with a key.
    fn head(&self, key: u64) -> Option<u32>
        ensures { result ≡ stored_head self.now.heads key }
    {
        self.heads.get(bucket_key(key)).copied()
    }
}

impl MoreSlots {
    /// No method comes yet. It takes no memory.
    pub fn new(alloc: Global) -> MoreSlots
        ensures none { (q : TheKey) → value_at result.heads q ≡ None }
        ensures entries { (q : TheKey) → latest result.entries.items q ≡ value_at result.heads q }
        ensures size { result.next.items ≡ [] }
    {
        MoreSlots {
            heads: Index::new(),
            entries: Vec::new(alloc),
            next: Vec::new(alloc),
        }
    }

    /// The newest first method with a key.
    fn head(&self, below: &Slots, key: u64) -> Option<u32>
        ensures { result ≡ head_over below.now.heads self.now.heads key }
    {
        match self.heads.get(bucket_key(key)).copied() {
            Some(row) => Some(row),
            None => below.head(key),
        }
    }

    /// The first method that was the newest with its key before a row.
    fn before(&self, below: &Slots, row: u32) -> Option<u32>
        requires some { 0 < row }
        requires there { row ≤ length (below.now.next.items ++ self.now.next.items) }
        ensures { slice_get (below.now.next.items ++ self.now.next.items) (row - 1) ≡ Some result }
    {
        let at = row as usize - 1;
        if at < below.next.len() {
            return below.next[at];
        }
        self.next[at - below.next.len()]
    }

    /// The first method of the slot that a method shares, among those with its key.
    fn first_alike<R: CellView>(
        &self,
        below: &Slots,
        names: &mut MethodNames<'_, R>,
        key: u64,
        method: Token,
    ) -> Option<u32>
        requires table { method.table ≡ method_def }
        requires buckets { AreBuckets (R.rows names.old) (head_over below.now.heads self.now.heads)
            (below.now.next.items ++ self.now.next.items) }
        ensures first { result ≡ alike_first (R.rows names.old) key method
            (length (below.now.next.items ++ self.now.next.items)) }
        ensures names { names.new ≡ names.old }
    {
        let mut at = self.head(below, key);
        while let Some(row) = at {
            if names.share_slot(row, method) {
                return Some(row);
            }
            at = self.before(below, row);
        }
        None
    }

    /// Puts a method behind the others.
    fn add(&mut self, below: &Slots, key: u64) -> Result<(), AllocError>
        ensures heads { self.new.heads ≡ self.old.heads }
        ensures entries { self.new.entries.items ≡ self.old.entries.items }
        ensures next { IfOk result (λ _. self.new.next.items
            ≡ self.old.next.items ++ head_over below.now.heads self.old.heads key ∷ []) }
    {
        let head = self.head(below, key);
        self.next.push(head)?;
        Ok(())
    }

    /// Puts a method that is the first of its slot behind the others.
    #[tactic(auto, using(crate::proofs::Found::entries_more))]
    fn add_first(
        &mut self,
        alloc: Global,
        below: &Slots,
        key: u64,
        row: u32,
    ) -> Result<(), AllocError>
        requires { (q : TheKey) → latest self.old.entries.items q ≡ value_at self.old.heads q }
        ensures heads { IfOk result (λ _. (q : TheKey) → value_at self.new.heads q
            ≡ either (if is_key (bucket_key key) q then Some row else None) (value_at self.old.heads q)) }
        ensures entries { IfOk result (λ _. (q : TheKey)
            → latest self.new.entries.items q ≡ value_at self.new.heads q) }
        ensures next { IfOk result (λ _. self.new.next.items
            ≡ self.old.next.items ++ head_over below.now.heads self.old.heads key ∷ []) }
    {
        self.add(below, key)?;
        push_entry(&mut self.entries, alloc, bucket_key(key), row)?;
        self.heads.put(KeyEntry::new(alloc, bucket_key(key), row)?);
        Ok(())
    }

    /// The slot of the next method, the n-th from 0: the row of the first that shares it. It takes
    /// memory for the method and for what `MethodNames::key` learns.
    pub fn slot_for<R: CellView>(
        &mut self,
        alloc: Global,
        below: &Slots,
        names: &mut MethodNames<'_, R>,
        n: u32,
    ) -> Result<u32, AllocError>
        requires few { n < 2 ^ 24 }
        requires size { length (below.now.next.items ++ self.old.next.items) ≡ n }
        requires buckets { AreBuckets (R.rows names.old) (head_over below.now.heads self.old.heads)
            (below.now.next.items ++ self.old.next.items) }
        requires entries { (q : TheKey) → latest self.old.entries.items q ≡ value_at self.old.heads q }
        ensures slot { IfOk result (λ s. slot_in (R.rows names.old) (nth_row method_def n) ≡ Some s) }
        ensures buckets { IfOk result (λ _. AreBuckets (R.rows names.old) (head_over below.now.heads self.new.heads)
            (below.now.next.items ++ self.new.next.items)) }
        ensures entries { IfOk result (λ _. (q : TheKey)
            → latest self.new.entries.items q ≡ value_at self.new.heads q) }
        ensures size { IfOk result (λ _. length self.new.next.items ≡ length self.old.next.items + 1) }
        ensures names { names.new ≡ names.old }
    {
        let method = Token {
            table: METHOD_DEF,
            row: n + 1,
        };
        let key = names.key(alloc, method)?;
        let Some(row) = self.first_alike(below, names, key, method) else {
            self.add_first(alloc, below, key, n + 1)?;
            return Ok(n + 1);
        };
        self.add(below, key)?;
        Ok(row)
    }
}
