//! The store of objects.
ghost use Rattle.std.specs.Prelude.{◌≡◌, ◌≤◌, ◌↔◌, ℕ, List, false, length, option_map, is_some, slice_get, IsTrue, IsErrOf, IfOk, IfSome, OnOk, OnErr};
ghost use Rattle.std.specs.List.Sorted.{IsStrictlySortedBy};
ghost use Rattle.std.specs.Map.{keys_of};
ghost use Rattle.enc_objects.specs.Entries.{token_ordering};
ghost use Rattle.enc_objects.specs.Limits.{most_objects, most_parts};
ghost use Rattle.enc_objects.specs.Objects.{object_at, has_object, is_full, with_object, next_object, part_count, new_array_of, shape_in, fields_in, field_in, with_field, static_in, with_static, element_in, with_element, elements_held, units_held, no_objects};
ghost use Rattle.enc_objects.specs.declared.objects.MakeFault.{MakeFault};
ghost use Rattle.enc_objects.specs.declared.object.Content.TheVariants.{Instance, Text};

use crate::contents::{Elements, MOST_PARTS, TextUnits};
use crate::fields::Fields;
use crate::kind::Kind;
use crate::object::{Content, Object};
use crate::shape::Shape;
use crate::value::Value;
use enc_base::Token;
use std::alloc::{AllocError, Global};
use std::marker::Model;

/// As many objects as a store has.
const MOST_OBJECTS: usize = 1_000_000;

/// Why there is no new object.
#[derive(Clone, Copy, Debug, PartialEq, Eq)]
pub enum MakeFault {
    /// There is no memory for it.
    Memory,
    /// It would be one of more than 1,000,000 objects, or there would be more than 16,000,000 elements of arrays and
    /// units of texts together.
    Full,
}

impl From<AllocError> for MakeFault {
    ghost from_gives = { λ _ e. e ≡ MakeFault.Memory };

    fn from(_: AllocError) -> MakeFault {
        MakeFault::Memory
    }
}

/// Objects, numbered from 1 as they were made, with the values that were set for their fields, and the values that
/// were set for static fields. An object is an instance of a class, an array or a text. It isn't removed.
#[derive(Drop)]
pub struct Objects {
    objects: Vec<Object>,
    statics: Fields,
    /// The elements of all arrays and the units of all texts.
    parts: u32,
    alloc: Global,
}

impl Model for Objects {
    ghost use Rattle.std.specs.Prelude.{◌≡◌, ◌≤◌, length};
    ghost use Rattle.enc_objects.specs.Limits.{most_objects, most_parts};
    ghost use Rattle.enc_objects.specs.Objects.{Store, parts_held};

    ghost Value = { Store };

    ghost view = { λ o. record { objects = o.objects.items; statics = o.statics } };

    ghost invariant = { λ o. (length o.objects.items ≤ most_objects) × (o.parts ≤ most_parts)
        × (o.parts ≡ parts_held o.objects.items) };
}

impl Objects {
    /// No objects and no statics. It takes no memory.
    pub fn begin(alloc: Global) -> Objects
        ensures { result ≡ no_objects }
    {
        Objects {
            objects: Vec::new(alloc),
            statics: Fields::begin(alloc),
            parts: 0,
            alloc,
        }
    }

    /// Whether one object more, with so many elements or units, would pass a limit.
    #[tactic(auto, unfolding(crate::specs::Objects::is_full))]
    pub fn is_full(&self, parts: usize) -> bool
        ensures full { result ≡ is_full self.now parts }
        ensures room { result ≡ false → parts ≤ most_parts }
    {
        self.objects.len() >= MOST_OBJECTS || parts > (MOST_PARTS - self.parts) as usize
    }

    /// One object more, and its number. Without memory nothing changes.
    fn add(&mut self, content: Content) -> Result<u32, AllocError>
        requires { is_full self.old (part_count content) ≡ false }
        ensures number { IfOk result (λ id. id ≡ next_object self.old) }
        ensures ok { OnOk result (self.new ≡ with_object content self.old) }
        ensures err { OnErr result (self.new ≡ self.old) }
    {
        let parts = content.parts();
        let object = Object {
            content,
            fields: Fields::begin(self.alloc),
        };
        self.objects.push(object)?;
        self.parts += parts;
        Ok(self.objects.len() as u32)
    }

    /// A new instance of a class, and its number. `Full` exactly where it would pass a limit. After a fault nothing
    /// has changed.
    pub fn new_object(&mut self, class: Token) -> Result<u32, MakeFault>
        ensures number { IfOk result (λ id. id ≡ next_object self.old) }
        ensures ok { OnOk result (self.new ≡ with_object (Instance class) self.old) }
        ensures err { OnErr result (self.new ≡ self.old) }
        ensures full { IsErrOf result MakeFault.Full ↔ IsTrue (is_full self.old 0) }
    {
        if self.is_full(0) {
            return Err(MakeFault::Full);
        }
        Ok(self.add(Content::Instance(class))?)
    }

    /// A new array of so many elements, each its kind's default, and its number. `Full` exactly where it would pass a
    /// limit. After a fault nothing has changed.
    pub fn new_array(&mut self, kind: Kind, len: u32) -> Result<u32, MakeFault>
        ensures number { IfOk result (λ id. id ≡ next_object self.old) }
        ensures ok { OnOk result (self.new ≡ with_object (new_array_of kind len) self.old) }
        ensures err { OnErr result (self.new ≡ self.old) }
        ensures full { IsErrOf result MakeFault.Full ↔ IsTrue (is_full self.old len) }
    {
        if self.is_full(len as usize) {
            return Err(MakeFault::Full);
        }
        let elements = Elements::begin(self.alloc, kind, len)?;
        Ok(self.add(Content::Array(kind, elements))?)
    }

    /// A new text of these UTF-16 units, and its number. `Full` exactly where it would pass a limit. After a fault
    /// nothing has changed.
    pub fn new_text(&mut self, units: &[u16]) -> Result<u32, MakeFault>
        ensures number { IfOk result (λ id. id ≡ next_object self.old) }
        ensures ok { OnOk result (self.new ≡ with_object (Text units.now) self.old) }
        ensures err { OnErr result (self.new ≡ self.old) }
        ensures full { IsErrOf result MakeFault.Full ↔ IsTrue (is_full self.old (length units.now)) }
    {
        if self.is_full(units.len()) {
            return Err(MakeFault::Full);
        }
        let units = TextUnits::begin(self.alloc, units)?;
        Ok(self.add(Content::Text(units))?)
    }

    /// How many objects there are.
    pub fn count(&self) -> u32
        ensures count { result ≡ length self.now.objects }
        ensures few { result ≤ most_objects }
    {
        self.objects.len() as u32
    }

    /// The object of a number, None where there is none.
    #[inline(always)]
    fn object(&self, id: u32) -> Option<&Object>
        ensures { option_map (λ o. o.now) result ≡ object_at self.now id }
    {
        let i = id.checked_sub(1)?;
        self.objects.get(i as usize)
    }

    /// What the object of a number is. None exactly where there is no such object.
    #[inline(always)]
    #[tactic(auto, unfolding(crate::specs::Objects::shape_in, crate::specs::Objects::has_object))]
    pub fn shape(&self, id: u32) -> Option<Shape>
        ensures shape { result ≡ shape_in self.now id }
        ensures there { is_some result ≡ has_object self.now id }
    {
        let object = self.object(id)?;
        Some(object.content.shape())
    }

    /// The value of an object's field, which is its kind's default where none was set, or where there is no such
    /// object.
    #[inline(always)]
    #[tactic(auto, unfolding(crate::specs::Objects::field_in, crate::specs::Objects::fields_in))]
    pub fn get_field(&self, id: u32, field: Token, kind: Kind) -> Value
        ensures { result ≡ field_in self.now id field kind }
    {
        match self.object(id) {
            None => kind.default_value(),
            Some(object) => object.field(field, kind),
        }
    }

    /// Sets the value of an object's field, as it is. Where there is no such object, and without memory, nothing
    /// changes.
    #[tactic(auto, unfolding(crate::specs::Objects::with_field))]
    pub fn set_field(&mut self, id: u32, field: Token, value: Value) -> Result<(), AllocError>
        ensures ok { OnOk result (self.new ≡ with_field id field value self.old) }
        ensures err { OnErr result (self.new ≡ self.old) }
    {
        let Some(at) = id.checked_sub(1) else {
            return Ok(());
        };
        match self.objects.get_mut(at as usize) {
            None => Ok(()),
            Some(object) => object.set_field(field, value),
        }
    }

    /// The value of a static field, which is its kind's default where none was set.
    #[tactic(auto, unfolding(crate::specs::Objects::static_in))]
    pub fn get_static(&self, field: Token, kind: Kind) -> Value
        ensures { result ≡ static_in self.now field kind }
    {
        match self.statics.get(field) {
            None => kind.default_value(),
            Some(value) => value,
        }
    }

    /// Sets the value of a static field, as it is. Without memory nothing changes.
    #[tactic(auto, unfolding(crate::specs::Objects::with_static))]
    pub fn set_static(&mut self, field: Token, value: Value) -> Result<(), AllocError>
        ensures ok { OnOk result (self.new ≡ with_static field value self.old) }
        ensures err { OnErr result (self.new ≡ self.old) }
    {
        self.statics.set(field, value)
    }

    /// The element of an array at an index from 0. None exactly where there is no such object, it isn't an array, or
    /// it hasn't so many elements.
    #[inline(always)]
    #[tactic(auto, unfolding(crate::specs::Objects::element_in))]
    pub fn element(&self, id: u32, i: u32) -> Option<Value>
        ensures { result ≡ element_in self.now id i }
    {
        match self.object(id) {
            None => None,
            Some(object) => object.element(i),
        }
    }

    /// Sets the element of an array, as it is, and answers true. Where `element` gives None nothing changes, and it
    /// answers false.
    #[tactic(auto, unfolding(crate::specs::Objects::element_in, crate::specs::Objects::with_element))]
    pub fn set_element(&mut self, id: u32, i: u32, value: Value) -> bool
        ensures there { result ≡ is_some (element_in self.old id i) }
        ensures set { self.new ≡ with_element id i value self.old }
    {
        let Some(at) = id.checked_sub(1) else {
            return false;
        };
        match self.objects.get_mut(at as usize) {
            None => false,
            Some(object) => object.set_element(i, value),
        }
    }

    /// The UTF-16 units of a text. None exactly where there is no such object or it isn't a text.
    #[tactic(auto, unfolding(crate::specs::Objects::units_held))]
    pub fn units(&self, id: u32) -> Option<&[u16]>
        ensures { option_map (λ u. u.now) result ≡ units_held self.now id }
    {
        match self.object(id) {
            None => None,
            Some(object) => object.content.units(),
        }
    }

    /// How many UTF-16 units a text has. None exactly where there is no such object, or it isn't a text.
    #[tactic(auto, unfolding(crate::specs::Objects::units_held))]
    pub fn text_len(&self, id: u32) -> Option<u32>
        ensures len { result ≡ option_map (λ (u : List ℕ). length u) (units_held self.now id) }
        ensures few { IfSome result (λ n. n ≤ most_parts) }
    {
        match self.object(id) {
            None => None,
            Some(object) => object.content.text_len(),
        }
    }

    /// The elements of an array. None exactly where there is no such object, or it isn't an array.
    #[tactic(auto, unfolding(crate::specs::Objects::elements_held))]
    pub fn elements(&self, id: u32) -> Option<&[Value]>
        ensures { option_map (λ e. e.now) result ≡ elements_held self.now id }
    {
        match self.object(id) {
            None => None,
            Some(object) => object.content.elements(),
        }
    }

    /// All fields of an object for which a value was set, and the values, in the order of tokens; none where there
    /// is no such object.
    #[tactic(auto, unfolding(crate::specs::Objects::fields_in))]
    pub fn fields(&self, id: u32) -> Result<Vec<(Token, Value)>, AllocError>
        ensures { IfOk result (λ l. l.items ≡ fields_in self.now id) }
    {
        match self.object(id) {
            None => Ok(Vec::new(self.alloc)),
            Some(object) => object.fields.all(self.alloc),
        }
    }

    /// All static fields for which a value was set, and the values, in the order of tokens.
    pub fn statics(&self) -> Result<Vec<(Token, Value)>, AllocError>
        ensures { IfOk result (λ l. l.items ≡ self.now.statics) }
    {
        self.statics.all(self.alloc)
    }

    /// The i-th field of an object for which a value was set, and the value, from 0 in the order of tokens. None
    /// exactly where there are no more.
    #[tactic(auto, unfolding(crate::specs::Objects::fields_in))]
    pub fn field_at(&self, id: u32, i: u32) -> Option<(Token, Value)>
        ensures field { result ≡ slice_get (fields_in self.now id) i }
        ensures ordered { IsStrictlySortedBy token_ordering (keys_of (fields_in self.now id)) }
    {
        match self.object(id) {
            None => None,
            Some(object) => object.fields.at(i),
        }
    }

    /// The i-th static field for which a value was set, and the value, from 0 in the order of tokens. None exactly
    /// where there are no more.
    pub fn static_at(&self, i: u32) -> Option<(Token, Value)>
        ensures field { result ≡ slice_get self.now.statics i }
        ensures ordered { IsStrictlySortedBy token_ordering (keys_of self.now.statics) }
    {
        self.statics.at(i)
    }
}
