//! The methods of a delta, each with the size of its code.
ghost use Rattle.std.specs.Prelude.{◌≡◌, [], ◌∷◌, ◌++◌, length, slice_get, OnOk, OnErr};
ghost use Rattle.enc_ppdb.specs.Misplaced.{size_for};

use crate::methods::MethodList;
use enc_base::Token;
use enc_base::tables::METHOD_DEF;
use std::alloc::{AllocError, Global};
use std::marker::Model;

/// The MethodDef tokens of a delta, each with the size of its code in bytes, 0 where it has no body.
#[derive(Drop)]
pub struct CodeSizes {
    methods: MethodList,
    sizes: Vec<u32>,
}

impl Model for CodeSizes {
    ghost use Rattle.std.specs.Prelude.{◌≡◌, ℕ, List, length};
    ghost use Rattle.enc_base.specs.declared.token.Token.{Token as TheToken};
    ghost use Rattle.enc_ppdb.specs.Seen.{sized};

    ghost Value = { List (TheToken × ℕ) };

    ghost view = { λ c. sized c.methods c.sizes.items };

    ghost invariant = { λ c. length c.methods ≡ length c.sizes.items };
}

/// A number of a list; None past the last.
fn number(numbers: &[u32], i: usize) -> Option<u32>
    ensures { result ≡ slice_get numbers.now i }
{
    numbers.get(i).copied()
}

impl CodeSizes {
    /// No method.
    pub fn begin(alloc: Global) -> CodeSizes
        ensures { result ≡ [] }
    {
        CodeSizes {
            methods: MethodList::begin(alloc),
            sizes: Vec::new(alloc),
        }
    }

    /// Puts a method with the size of its code behind the others. `AllocError` where there is no
    /// memory, and then nothing changes.
    #[tactic(auto, using(crate::proofs::Sized::sized_push))]
    pub fn push(&mut self, method: Token, size: u32) -> Result<(), AllocError>
        ensures ok { OnOk result (self.new ≡ self.old ++ (method, size) ∷ []) }
        ensures err { OnErr result (self.new ≡ self.old) }
    {
        self.sizes.reserve(1)?;
        self.methods.push(method)?;
        self.sizes.push_reserved(size);
        Ok(())
    }

    /// How many methods there are.
    #[tactic(auto, using(crate::proofs::Sized::sized_length))]
    pub fn len(&self) -> usize
        ensures { result ≡ length self.now }
    {
        self.sizes.len()
    }

    /// The i-th method, from 0, and the size of its code; None past the last.
    #[tactic(auto, using(crate::proofs::Sized::sized_steps))]
    pub fn get(&self, i: usize) -> Option<(Token, u32)>
        ensures { result ≡ slice_get self.now i }
    {
        let method = self.methods.get(i)?;
        let size = number(&self.sizes, i)?;
        Some((*method, size))
    }

    /// The size of the code of the method that a token of MethodDebugInformation names by its row:
    /// by halves where the methods rise. None where the method isn't one of these.
    #[tactic(auto, using(crate::proofs::Sized::size_missing, crate::proofs::Sized::size_found))]
    pub(crate) fn size_for(&self, token: Token) -> Option<u32>
        ensures { result ≡ size_for self.now token }
    {
        let i = self.methods.place(Token {
            table: METHOD_DEF,
            row: token.row,
        })?;
        number(&self.sizes, i)
    }
}
