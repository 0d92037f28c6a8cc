//! The types that were touched (ECMA-335 II.10.5.3).
ghost use Rattle.std.specs.Prelude.{◌≡◌, ◌≤◌, ◌++◌, ◌∷◌, [], drop, length, slice_get, take, IfOk};
ghost use Rattle.std.specs.List.{list_any};
ghost use Rattle.enc_base.specs.Token.{is_token};
ghost use Rattle.enc_base.specs.declared.token.Token.{Token as TheToken};
ghost use Rattle.enc_base.specs.Tables.{type_def};
ghost use Rattle.enc_vm.specs.Calls.{with_type};
ghost use Rattle.enc_vm.specs.Touched.{AreTypesFrom};

use enc_base::Token;
use enc_base::tables::TYPE_DEF;
use std::alloc::{AllocError, Global};
use std::marker::Model;

/// A list with others behind it.
fn joined(mut tokens: Vec<Token>, rest: &[Token]) -> Result<Vec<Token>, AllocError>
    ensures { IfOk result (λ l. l.items ≡ tokens.items ++ rest.now) }
{
    tokens.extend_from_slice(rest)?;
    Ok(tokens)
}

/// Tokens with one more at a place.
fn with_at(
    alloc: Global,
    tokens: &[Token],
    at: usize,
    token: Token,
) -> Result<Vec<Token>, AllocError>
    requires { at ≤ length tokens.now }
    ensures { IfOk result (λ l. l.items ≡ take at tokens.now ++ token ∷ drop at tokens.now) }
{
    let mut all = Vec::with_capacity(alloc, tokens.len() + 1)?;
    all.extend_from_slice(&tokens[..at])?;
    all.push(token)?;
    all.extend_from_slice(&tokens[at..])?;
    Ok(all)
}

/// Types with one more in their order, once. Its place is found by halves, and the others are copied as they stand.
fn with_type(alloc: Global, token: Token, types: &[Token]) -> Result<Vec<Token>, AllocError>
    requires kind { token.table ≡ type_def }
    requires order { AreTypesFrom 0 types.now }
    ensures { IfOk result (λ l. l.items ≡ with_type token types.now) }
{
    match types.binary_search_by_key(&token.row, |t| t.row) {
        Ok(_) => joined(Vec::new(alloc), types),
        Err(at) => with_at(alloc, types, at, token),
    }
}

/// The types that were touched, in the order of their tokens.
#[derive(Drop)]
pub(crate) struct Touched {
    items: Vec<Token>,
}

impl Model for Touched {
    ghost use Rattle.std.specs.Prelude.{List};
    ghost use Rattle.enc_base.specs.declared.token.Token.{Token as OneToken};
    ghost use Rattle.enc_vm.specs.Touched.{AreTypesFrom};

    ghost Value = { List OneToken };

    ghost view = { λ t. t.items.items };

    ghost invariant = { λ t. AreTypesFrom 0 t.items.items };
}

impl Touched {
    /// None. It takes no memory.
    pub(crate) fn begin(alloc: Global) -> Touched
        ensures { result ≡ [] }
    {
        Touched {
            items: Vec::new(alloc),
        }
    }

    /// All, in the order of their tokens.
    pub(crate) fn as_slice(&self) -> &[Token]
        ensures { result.now ≡ self.now }
    {
        self.items.as_slice()
    }

    /// The i-th of them, from 0, None past the last.
    pub(crate) fn at(&self, i: u32) -> Option<Token>
        ensures { result ≡ slice_get self.now i }
    {
        self.items.get(i as usize).copied()
    }

    /// Whether a type was touched. Its time is logarithmic in the number of those that were.
    pub(crate) fn has(&self, token: Token) -> bool
        ensures { result ≡ list_any (λ (t : TheToken). is_token t token) self.now }
    {
        match self.items.binary_search_by_key(&token.row, |t| t.row) {
            Ok(_) => token.table == TYPE_DEF,
            Err(_) => false,
        }
    }

    /// These types and one more.
    #[tactic(auto, using(crate::proofs::Types::kept))]
    pub(crate) fn with(&self, alloc: Global, token: Token) -> Result<Touched, AllocError>
        requires { token.table ≡ type_def }
        ensures { IfOk result (λ t. t ≡ with_type token self.now) }
    {
        let items = with_type(alloc, token, self.items.as_slice())?;
        Ok(Touched { items })
    }
}
