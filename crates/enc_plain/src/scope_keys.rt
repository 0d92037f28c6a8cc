//! Keys of references through the scopes around them, by doubling: that of 2 ^ k scopes is made of two
//! of half as many. What is asked again is remembered, so scopes cost what their number does, however
//! deep they stand in one another and whether they lead back to themselves or not.
ghost use Rattle.std.specs.Prelude.{◌≡◌, IfSome};
ghost use Rattle.enc_plain.specs.Keys.{single_key, near, scope_onward, outer, inner, end_key, scope_ended, ref_key, inner_key};

use crate::cells::CellView;
use crate::keys::{scope_of, single_key, token_key};
use crate::near::{Near, scopes_joined};
use enc_base::Token;
use enc_base::tables::TYPE_REF;
use enc_key_map::{Index, Key, KeyEntry};
use enc_sigs::{Mix, mixed_both};
use std::alloc::{AllocError, Global};
use std::marker::Model;

/// Rows, and the keys that were learnt of tokens and of scopes around them.
#[derive(Drop)]
pub struct ScopeKeys<'a, R: CellView> {
    rows: &'a R,
    near: Index<Near>,
}

impl<'a, R: CellView> Model for ScopeKeys<'a, R> {
    ghost use Rattle.enc_plain.specs.Keys.{AreScopesNear};

    ghost Value = { R };

    ghost view = { λ k. k.rows.now };

    ghost invariant = { λ k. AreScopesNear (R.rows k.rows.now) k.near };
}

/// What the key of 2 ^ level scopes stands by.
fn place_of(token: Token, level: u8) -> Key
    ensures { result ≡ record { table = token.table; row = token.row; place = level } }
{
    Key {
        table: token.table,
        row: token.row,
        place: u32::from(level),
    }
}

impl<'a, R: CellView> ScopeKeys<'a, R> {
    /// No key is learnt yet.
    #[tactic(auto, using(crate::proofs::Learnt::none_near))]
    pub fn new(rows: &'a R) -> ScopeKeys<'a, R>
        ensures { result ≡ rows.now }
    {
        ScopeKeys {
            rows,
            near: Index::new(),
        }
    }

    /// The rows.
    pub fn rows(&self) -> &'a R
        ensures { result.now ≡ self.now }
    {
        self.rows
    }

    /// The key of 2 ^ level scopes, where it was learnt.
    fn learnt(&self, level: u8, token: Token) -> Option<Near>
        ensures { IfSome result (λ a. a ≡ near (R.rows self.now) level token) }
    {
        let near = self.near.get(place_of(token, level))?;
        Some(*near)
    }

    /// The key of a token and of the scope around it.
    #[tactic(auto, unfolding(crate::specs::Keys::near))]
    fn first(&self, token: Token) -> Near
        ensures { result ≡ near (R.rows self.now) 0 token }
    {
        Near {
            mix: single_key(self.rows, token),
            end: scope_of(self.rows, token),
        }
    }

    /// The key of 2 ^ level scopes that isn't learnt, of those of half as many.
    #[cycle(doubler)]
    #[tactic(auto, using(crate::proofs::ScopeKeys::near_steps))]
    fn found_near(&self, level: u8, token: Token) -> Near
        ensures { result ≡ near (R.rows self.now) level token }
    {
        let mut near = self.first(token);
        for k in 0..level {
            near = scopes_joined(near, self.near(k, near.end));
        }
        near
    }

    /// The key of a token and of the scopes around it, 2 ^ level in all.
    #[cycle(doubler)]
    fn near(&self, level: u8, token: Token) -> Near
        ensures { result ≡ near (R.rows self.now) level token }
    {
        match self.learnt(level, token) {
            Some(near) => near,
            None => self.found_near(level, token),
        }
    }

    /// So many scopes more.
    fn scope_onward(&self, first: Near, level: u8) -> Near
        ensures { result ≡ scope_onward (R.rows self.now) first level }
    {
        scopes_joined(first, self.near(level, first.end))
    }

    /// The key of a token and of 99 scopes around it.
    #[tactic(auto, unfolding(crate::specs::Keys::outer))]
    fn outer(&self, token: Token) -> Near
        ensures { result ≡ outer (R.rows self.now) token }
    {
        let near = self.near(6, token);
        let near = self.scope_onward(near, 5);
        self.scope_onward(near, 2)
    }

    /// The key of a token and of 98 scopes around it.
    #[tactic(auto, unfolding(crate::specs::Keys::inner))]
    fn inner(&self, token: Token) -> Near
        ensures { result ≡ inner (R.rows self.now) token }
    {
        let near = self.near(6, token);
        let near = self.scope_onward(near, 5);
        let near = self.scope_onward(near, 1);
        self.scope_onward(near, 0)
    }

    /// The key of a token by itself.
    #[tactic(auto, unfolding(crate::specs::Keys::near))]
    fn own(&self, token: Token) -> Mix
        ensures { result ≡ single_key (R.rows self.now) token }
    {
        self.near(0, token).mix
    }

    /// The key of the scope where likeness ends: a TypeRef is alike itself alone there.
    #[tactic(auto, unfolding(crate::specs::Keys::end_key))]
    fn end_key(&self, token: Token) -> Mix
        ensures { result ≡ end_key (R.rows self.now) token }
    {
        if token.table == TYPE_REF {
            return token_key(token);
        }
        self.own(token)
    }

    /// With the scope behind them.
    fn scope_ended(&self, near: Near) -> Mix
        ensures { result ≡ scope_ended (R.rows self.now) near }
    {
        mixed_both(near.mix, self.end_key(near.end))
    }

    /// The key of a token that is no TypeSpec.
    #[tactic(auto, unfolding(crate::specs::Keys::ref_key))]
    pub fn ref_key(&self, token: Token) -> Mix
        ensures { result ≡ ref_key (R.rows self.now) token }
    {
        if token.table == TYPE_REF {
            return self.scope_ended(self.outer(token));
        }
        self.own(token)
    }

    /// The key of a token in the signature of a TypeSpec.
    #[tactic(auto, unfolding(crate::specs::Keys::inner_key))]
    pub fn inner_key(&self, token: Token) -> Mix
        ensures { result ≡ inner_key (R.rows self.now) token }
    {
        if token.table == TYPE_REF {
            return self.scope_ended(self.inner(token));
        }
        self.own(token)
    }

    /// Remembers the key of 2 ^ level scopes.
    #[tactic(auto, using(crate::proofs::Learnt::more_near))]
    fn put(&mut self, alloc: Global, level: u8, token: Token, found: Near) -> Result<(), AllocError>
        requires { found ≡ near (R.rows self.old) level token }
        ensures { self.new ≡ self.old }
    {
        let entry = KeyEntry::new(alloc, place_of(token, level), found)?;
        self.near.put(entry);
        Ok(())
    }

    /// Learns the key of 2 ^ level scopes, and those of which it is made.
    #[tactic(auto, using(crate::proofs::ScopeKeys::near_steps))]
    fn learn_near(&mut self, alloc: Global, level: u8, token: Token) -> Result<(), AllocError>
        ensures { self.new ≡ self.old }
    {
        if self.learnt(level, token).is_some() {
            return Ok(());
        }
        let mut near = self.first(token);
        for k in 0..level {
            self.learn_near(alloc, k, near.end)?;
            near = scopes_joined(near, self.near(k, near.end));
        }
        self.put(alloc, level, token, near)
    }

    /// Learns the keys of which those of a reference are made, so that each is found once.
    pub fn learn(&mut self, alloc: Global, token: Token) -> Result<(), AllocError>
        ensures { self.new ≡ self.old }
    {
        self.learn_near(alloc, 6, token)?;
        let near = self.near(6, token);
        self.learn_near(alloc, 5, near.end)?;
        let near = self.scope_onward(near, 5);
        self.learn_near(alloc, 2, near.end)?;
        self.learn_near(alloc, 0, self.scope_onward(near, 2).end)
    }
}
