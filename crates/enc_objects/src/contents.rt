//! The elements of arrays and the units of texts.
ghost use Rattle.std.specs.Prelude.{◌≡◌, ◌≤◌, length, replicate, slice_get, slice_set, is_some, IfOk};
ghost use Rattle.enc_objects.specs.Values.{default_of};
ghost use Rattle.enc_objects.specs.Limits.{most_parts};

use crate::kind::Kind;
use crate::value::Value;
use std::alloc::{AllocError, Global};
use std::marker::Model;

/// As many elements of arrays and units of texts as a store has, together.
pub(crate) const MOST_PARTS: u32 = 16_000_000;

/// The elements of an array.
#[derive(Drop)]
pub(crate) struct Elements {
    items: Vec<Value>,
}

impl Model for Elements {
    ghost use Rattle.std.specs.Prelude.{◌≤◌, List, length};
    ghost use Rattle.enc_objects.specs.declared.value.Value.{Value as OneValue};
    ghost use Rattle.enc_objects.specs.Limits.{most_parts};

    ghost Value = { List OneValue };

    ghost view = { λ e. e.items.items };

    ghost invariant = { λ e. length e.items.items ≤ most_parts };
}

impl Elements {
    /// So many elements, each its kind's default.
    pub(crate) fn begin(alloc: Global, kind: Kind, len: u32) -> Result<Elements, AllocError>
        requires { len ≤ most_parts }
        ensures { IfOk result (λ e. e ≡ replicate len (default_of kind)) }
    {
        let items = vec![in alloc; kind.default_value(); len as usize]?;
        Ok(Elements { items })
    }

    /// How many elements there are.
    pub(crate) fn len(&self) -> u32
        ensures len { result ≡ length self.now }
        ensures few { result ≤ most_parts }
    {
        self.items.len() as u32
    }

    /// The element at an index, None behind the last.
    pub(crate) fn get(&self, i: u32) -> Option<Value>
        ensures { result ≡ slice_get self.now i }
    {
        self.items.get(i as usize).copied()
    }

    /// All, in order.
    pub(crate) fn as_slice(&self) -> &[Value]
        ensures { result.now ≡ self.now }
    {
        self.items.as_slice()
    }

    /// Sets the element at an index, where there is one, and answers whether there is.
    pub(crate) fn set(&mut self, i: u32, value: Value) -> bool
        ensures set { self.new ≡ slice_set self.old i value }
        ensures there { result ≡ is_some (slice_get self.old i) }
    {
        match self.items.get_mut(i as usize) {
            Some(element) => {
                *element = value;
                true
            }
            None => false,
        }
    }
}

/// The UTF-16 units of a text.
#[derive(Drop)]
pub(crate) struct TextUnits {
    items: Vec<u16>,
}

impl Model for TextUnits {
    ghost use Rattle.std.specs.Prelude.{◌≤◌, ℕ, List, length};
    ghost use Rattle.enc_objects.specs.Limits.{most_parts};

    ghost Value = { List ℕ };

    ghost view = { λ t. t.items.items };

    ghost invariant = { λ t. length t.items.items ≤ most_parts };
}

impl TextUnits {
    /// A copy of units.
    pub(crate) fn begin(alloc: Global, units: &[u16]) -> Result<TextUnits, AllocError>
        requires { length units.now ≤ most_parts }
        ensures { IfOk result (λ t. t ≡ units.now) }
    {
        let items = Vec::from_slice(alloc, units)?;
        Ok(TextUnits { items })
    }

    /// How many units there are.
    pub(crate) fn len(&self) -> u32
        ensures len { result ≡ length self.now }
        ensures few { result ≤ most_parts }
    {
        self.items.len() as u32
    }

    /// The units.
    pub(crate) fn as_slice(&self) -> &[u16]
        ensures { result.now ≡ self.now }
    {
        self.items.as_slice()
    }
}
