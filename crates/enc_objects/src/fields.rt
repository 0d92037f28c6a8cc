//! Values by token.
ghost use Rattle.std.specs.Prelude.{◌≡◌, [], slice_get, IfOk, OnOk, OnErr};
ghost use Rattle.std.specs.List.Sorted.{IsStrictlySortedBy};
ghost use Rattle.std.specs.Map.{keys_of};
ghost use Rattle.enc_objects.specs.Entries.{token_ordering, value_for, put_value};

use crate::value::Value;
use enc_base::Token;
use std::alloc::{AllocError, Global};
use std::collections::BTreeMap;
use std::marker::Model;

/// The values that were set, in the order of their tokens.
#[derive(Drop)]
pub(crate) struct Fields {
    values: BTreeMap<Token, Value>,
}

impl Model for Fields {
    ghost use Rattle.enc_objects.specs.Entries.{Entries};

    ghost Value = { Entries };

    ghost view = { λ f. f.values.entries };
}

impl Fields {
    /// No values, which take no memory.
    pub(crate) fn begin(alloc: Global) -> Fields
        ensures { result ≡ [] }
    {
        Fields {
            values: BTreeMap::new(alloc),
        }
    }

    /// The value that was set for a token.
    pub(crate) fn get(&self, token: Token) -> Option<Value>
        ensures { result ≡ value_for token self.now }
    {
        self.values.get(&token).copied()
    }

    /// Sets a token's value. Without memory nothing changes.
    pub(crate) fn set(&mut self, token: Token, value: Value) -> Result<(), AllocError>
        ensures ok { OnOk result (self.new ≡ put_value token value self.old) }
        ensures err { OnErr result (self.new ≡ self.old) }
    {
        match self.values.insert(token, value) {
            Ok(_) => Ok(()),
            Err(_) => Err(AllocError),
        }
    }

    /// All tokens with their values, in the order of tokens.
    pub(crate) fn all(&self, alloc: Global) -> Result<Vec<(Token, Value)>, AllocError>
        ensures { IfOk result (λ l. l.items ≡ self.now) }
    {
        let mut all = Vec::with_capacity(alloc, self.values.len())?;
        for (token, value) in &self.values {
            all.push((*token, *value))?;
        }
        Ok(all)
    }

    /// The i-th token with its value, from 0 in the order of tokens.
    pub(crate) fn at(&self, i: u32) -> Option<(Token, Value)>
        ensures entry { result ≡ slice_get self.now i }
        ensures ordered { IsStrictlySortedBy token_ordering (keys_of self.now) }
    {
        match self.values.iter().nth(i as usize) {
            Some((token, value)) => Some((*token, *value)),
            None => None,
        }
    }
}
