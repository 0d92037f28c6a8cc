//! One object: what it is, and the values of its fields.
ghost use Rattle.std.specs.Prelude.{◌≡◌, ◌≤◌, ℕ, List, length, option_map, is_some, IfSome, OnOk, OnErr};
ghost use Rattle.enc_objects.specs.Objects.{part_count, content_shape, element_of, with_element_of, field_of, with_field_of, elements_of_content, units_of_content};
ghost use Rattle.enc_objects.specs.Limits.{most_parts};

use crate::contents::{Elements, TextUnits};
use crate::fields::Fields;
use crate::kind::Kind;
use crate::shape::Shape;
use crate::value::Value;
use enc_base::Token;
use std::alloc::AllocError;

/// What an object is.
#[derive(Drop)]
pub(crate) enum Content {
    /// An instance of a class, by the class's token.
    Instance(Token),
    /// An array of elements of a kind.
    Array(Kind, Elements),
    /// A text.
    Text(TextUnits),
}

/// An object.
#[derive(Drop)]
pub(crate) struct Object {
    pub(crate) content: Content,
    pub(crate) fields: Fields,
}

impl Content {
    /// How many elements of an array and units of a text it has.
    pub(crate) fn parts(&self) -> u32
        ensures parts { result ≡ part_count self.now }
        ensures few { result ≤ most_parts }
    {
        match self {
            Content::Instance(_) => 0,
            Content::Array(_, elements) => elements.len(),
            Content::Text(units) => units.len(),
        }
    }

    /// What it is, without its parts.
    pub(crate) fn shape(&self) -> Shape
        ensures { result ≡ content_shape self.now }
    {
        match self {
            Content::Instance(class) => Shape::Object(*class),
            Content::Array(kind, elements) => Shape::Array(*kind, elements.len()),
            Content::Text(units) => Shape::Text(units.len()),
        }
    }

    /// The elements of an array, None where it is none.
    pub(crate) fn elements(&self) -> Option<&[Value]>
        ensures { option_map (λ e. e.now) result ≡ elements_of_content self.now }
    {
        match self {
            Content::Array(_, elements) => Some(elements.as_slice()),
            _ => None,
        }
    }

    /// How many units a text has, None where it is none.
    pub(crate) fn text_len(&self) -> Option<u32>
        ensures len { result ≡ option_map (λ (u : List ℕ). length u) (units_of_content self.now) }
        ensures few { IfSome result (λ n. n ≤ most_parts) }
    {
        match self {
            Content::Text(units) => Some(units.len()),
            _ => None,
        }
    }

    /// The units of a text, None where it is none.
    pub(crate) fn units(&self) -> Option<&[u16]>
        ensures { option_map (λ u. u.now) result ≡ units_of_content self.now }
    {
        match self {
            Content::Instance(_) | Content::Array(_, _) => None,
            Content::Text(units) => Some(units.as_slice()),
        }
    }
}

impl Object {
    /// The element of an array at an index, None where there is none.
    pub(crate) fn element(&self, i: u32) -> Option<Value>
        ensures { result ≡ element_of i self.now }
    {
        match &self.content {
            Content::Instance(_) | Content::Text(_) => None,
            Content::Array(_, elements) => elements.get(i),
        }
    }

    /// Sets the element of an array, where there is one at the index, and answers whether there is.
    pub(crate) fn set_element(&mut self, i: u32, value: Value) -> bool
        ensures set { self.new ≡ with_element_of i value self.old }
        ensures there { result ≡ is_some (element_of i self.old) }
    {
        match &mut self.content {
            Content::Instance(_) | Content::Text(_) => false,
            Content::Array(_, elements) => elements.set(i, value),
        }
    }

    /// The value of a field, which is its kind's default where none was set.
    pub(crate) fn field(&self, field: Token, kind: Kind) -> Value
        ensures { result ≡ field_of field kind self.now }
    {
        match self.fields.get(field) {
            None => kind.default_value(),
            Some(value) => value,
        }
    }

    /// Sets a field. Without memory nothing changes.
    pub(crate) fn set_field(&mut self, field: Token, value: Value) -> Result<(), AllocError>
        ensures ok { OnOk result (self.new ≡ with_field_of field value self.old) }
        ensures err { OnErr result (self.new ≡ self.old) }
    {
        self.fields.set(field, value)
    }
}
