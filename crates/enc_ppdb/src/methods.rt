//! Lists of tokens, in which a token is found by halves where they rise.
ghost use Rattle.std.specs.Prelude.{◌≡◌, ◌==◌, ◌&&◌, [], ◌∷◌, ◌++◌, ◌<◌, length, position, option_copied, slice_get, Some, OnOk, OnErr};
ghost use Rattle.std.specs.List.Sorted.{IsNonDecreasingBy};
ghost use Rattle.enc_base.specs.Token.{is_token};
ghost use Rattle.enc_ppdb.specs.Seen.{token_order, is_next, IsCut};

use enc_base::Token;
use std::alloc::{AllocError, Global};
use std::marker::Model;

/// Tokens in the order in which they were put, as those of methods.
#[derive(Drop)]
pub struct MethodList {
    tokens: Vec<Token>,
    // none stands behind one of a later table, or of a later row of its table
    rises: bool,
}

impl Model for MethodList {
    ghost use Rattle.std.specs.Prelude.{List, IsTrue};
    ghost use Rattle.std.specs.List.Sorted.{IsNonDecreasingBy};
    ghost use Rattle.enc_base.specs.declared.token.Token.{Token as TheToken};
    ghost use Rattle.enc_ppdb.specs.Seen.{token_order};

    ghost Value = { List TheToken };

    ghost view = { λ m. m.tokens.items };

    ghost invariant = { λ m. IsTrue m.rises → IsNonDecreasingBy token_order m.tokens.items };
}

/// A token's number, in which all 32 bits of its row have room.
fn order(token: Token) -> u64
    ensures { result ≡ token_order token }
{
    u64::from(token.table) * 0x1_0000_0000 + u64::from(token.row)
}

/// Whether the token may stand last in a list that rises.
fn is_next(tokens: &[Token], token: Token) -> bool
    ensures { result ≡ is_next tokens.now token }
{
    match tokens.last() {
        Some(last) => order(*last) <= order(token),
        None => true,
    }
}

/// Whether tokens of which this is said rise still with one more.
fn rises_with(rises: bool, tokens: &[Token], token: Token) -> bool
    ensures { result ≡ (rises && is_next tokens.now token) }
{
    rises && is_next(tokens, token)
}

/// Whether two tokens are the same, also by their order.
fn is_same(token: Token, other: Token) -> bool
    ensures fields { result ≡ is_token token other }
    ensures order { result ≡ (token_order token == token_order other) }
{
    token.table == other.table && token.row == other.row
}

/// Where a token would stand: how many of the tokens are before it in order.
fn cut(tokens: &[Token], token: Token) -> usize
    requires { IsNonDecreasingBy token_order tokens.now }
    ensures { IsCut tokens.now token result }
{
    let wanted = order(token);
    tokens.partition_point(|t| order(*t) < wanted)
}

/// The first position of a token, by a search by halves.
fn place_by_halves(tokens: &[Token], token: Token) -> Option<usize>
    requires { IsNonDecreasingBy token_order tokens.now }
    ensures { result ≡ position (is_token token) tokens.now }
{
    let i = cut(tokens, token);
    if i >= tokens.len() {
        return None;
    }
    if is_same(token, tokens[i]) {
        return Some(i);
    }
    None
}

/// The first position of a token, by a search from the front.
fn place_by_scan(tokens: &[Token], token: Token) -> Option<usize>
    ensures { result ≡ position (is_token token) tokens.now }
{
    tokens.iter().position(|t| is_same(token, *t))
}

impl MethodList {
    /// No token.
    pub fn begin(alloc: Global) -> MethodList
        ensures { result ≡ [] }
    {
        MethodList {
            tokens: Vec::new(alloc),
            rises: true,
        }
    }

    /// Puts a token behind the others. `AllocError` where there is no memory, and then nothing
    /// changes.
    pub fn push(&mut self, method: Token) -> Result<(), AllocError>
        ensures ok { OnOk result (self.new ≡ self.old ++ method ∷ []) }
        ensures err { OnErr result (self.new ≡ self.old) }
    {
        let rises = rises_with(self.rises, &self.tokens, method);
        self.tokens.reserve(1)?;
        self.tokens.push_reserved(method);
        self.rises = rises;
        Ok(())
    }

    /// How many tokens there are.
    pub fn len(&self) -> usize
        ensures { result ≡ length self.now }
    {
        self.tokens.len()
    }

    /// The i-th token, from 0; None past the last.
    pub fn get(&self, i: usize) -> Option<&Token>
        ensures { option_copied result ≡ slice_get self.now i }
    {
        self.tokens.get(i)
    }

    /// The i-th token, from 0.
    pub(crate) fn token(&self, i: usize) -> Token
        requires { i < length self.now }
        ensures { slice_get self.now i ≡ Some result }
    {
        self.tokens[i]
    }

    /// The first position of a token: by a search by halves where the tokens rise, else from the
    /// front. None where it isn't in the list.
    pub(crate) fn place(&self, token: Token) -> Option<usize>
        ensures { result ≡ position (is_token token) self.now }
    {
        if self.rises {
            return place_by_halves(&self.tokens, token);
        }
        place_by_scan(&self.tokens, token)
    }
}
