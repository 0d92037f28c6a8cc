//! Instructions on objects (ECMA-335 III.4).
ghost use Rattle.std.specs.Prelude.{◌≡◌, ◌<◌};
ghost use Rattle.enc_objects.specs.declared.trap.Trap.TheVariants.{X4};
ghost use Rattle.enc_frames.specs.Does.{Does};
ghost use Rattle.enc_frames.specs.Results.{or_trap};
ghost use Rattle.enc_frames.specs.Memory.{load_text, load_field_of, store_field_of, load_static, store_static, new_array_of_kind, array_in_value, array_of, array_length, index_in, load_element, store_element, element_width, element_kind};

use crate::frame::Frame;
use crate::stop::Stop;
use crate::values::{fit, reference, word};
use enc_base::Token;
use enc_objects::{Kind, MakeFault, Objects, Shape, Trap, Value};

impl From<MakeFault> for Stop {
    ghost use Rattle.std.specs.Prelude.{◌≡◌};
    ghost use Rattle.enc_frames.specs.Does.{stop_by};

    ghost from_gives = { λ f e. e ≡ stop_by f };

    fn from(fault: MakeFault) -> Stop {
        match fault {
            MakeFault::Memory => Stop::Memory,
            MakeFault::Full => Stop::Trap(Trap::X12),
        }
    }
}

/// `ldstr` (ECMA-335 III.4.16).
#[tactic(auto, unfolding(crate::specs::Memory::load_text, crate::specs::Straight::load))]
pub fn load_text(
    objects: &mut Objects,
    frame: &mut Frame,
    next: u32,
    units: &[u16],
) -> Result<(), Stop>
    ensures { Does result (objects.new, frame.new) (
      objects.old,
      frame.old,
    ) (load_text frame.old.code.code.max next units.now objects.old frame.old) }
{
    if objects.is_full(units.len()) {
        return Err(Stop::Trap(Trap::X12));
    }
    if frame.stack.len() >= frame.max() as usize {
        return Err(Stop::Trap(Trap::X13));
    }
    frame.stack.push(Value::Null)?;
    match objects.new_text(units) {
        Err(fault) => {
            frame.stack.remove(1);
            Err(Stop::from(fault))
        }
        Ok(id) => {
            frame.stack.replace(1, Value::Obj(id));
            frame.offset = next;
            Ok(())
        }
    }
}

/// `ldfld` of a field of a kind (ECMA-335 III.4.10).
#[tactic(auto, unfolding(crate::specs::Memory::load_field_of))]
pub(crate) fn load_field(
    objects: &Objects,
    frame: &mut Frame,
    kind: Kind,
    next: u32,
    field: Token,
) -> Result<(), Stop>
    ensures { Does result (objects.now, frame.new) (
      objects.now,
      frame.old,
    ) (load_field_of kind next field objects.now frame.old) }
{
    let value = frame.stack.upper()?;
    let Some(id) = reference(value)? else {
        return Err(Stop::Trap(Trap::X5));
    };
    let value = objects.get_field(id, field, kind);
    frame.stack.replace(1, value);
    frame.offset = next;
    Ok(())
}

/// `stfld` of a field of a kind (ECMA-335 III.4.28).
#[tactic(auto, unfolding(crate::specs::Memory::store_field_of))]
pub(crate) fn store_field(
    objects: &mut Objects,
    frame: &mut Frame,
    kind: Kind,
    next: u32,
    field: Token,
) -> Result<(), Stop>
    ensures { Does result (objects.new, frame.new) (
      objects.old,
      frame.old,
    ) (store_field_of kind next field objects.old frame.old) }
{
    let (object, value) = frame.stack.upper_two()?;
    let id = reference(object)?;
    let value = fit(kind, value)?;
    let Some(id) = id else {
        return Err(Stop::Trap(Trap::X5));
    };
    objects.set_field(id, field, value)?;
    frame.stack.remove(2);
    frame.offset = next;
    Ok(())
}

/// `ldsfld` of a field of a kind (ECMA-335 III.4.14).
#[tactic(auto, unfolding(crate::specs::Memory::load_static))]
pub fn load_static(
    objects: &Objects,
    frame: &mut Frame,
    kind: Kind,
    next: u32,
    field: Token,
) -> Result<(), Stop>
    ensures { Does result (objects.now, frame.new) (
      objects.now,
      frame.old,
    ) (load_static kind frame.old.code.code.max next field objects.now frame.old) }
{
    let value = objects.get_static(field, kind);
    frame.load(next, value)
}

/// `stsfld` of a field of a kind (ECMA-335 III.4.30).
#[tactic(auto, unfolding(crate::specs::Memory::store_static))]
pub fn store_static(
    objects: &mut Objects,
    frame: &mut Frame,
    kind: Kind,
    next: u32,
    field: Token,
) -> Result<(), Stop>
    ensures { Does result (objects.new, frame.new) (
      objects.old,
      frame.old,
    ) (store_static kind next field objects.old frame.old) }
{
    let value = frame.stack.upper()?;
    let value = fit(kind, value)?;
    objects.set_static(field, value)?;
    frame.stack.remove(1);
    frame.offset = next;
    Ok(())
}

/// `newarr` of elements of a kind (ECMA-335 III.4.20).
#[tactic(auto, unfolding(crate::specs::Memory::new_array_of_kind))]
pub(crate) fn new_array(
    objects: &mut Objects,
    frame: &mut Frame,
    kind: Kind,
    next: u32,
) -> Result<(), Stop>
    ensures { Does result (objects.new, frame.new) (
      objects.old,
      frame.old,
    ) (new_array_of_kind kind next objects.old frame.old) }
{
    let value = frame.stack.upper()?;
    let count = word(value)?;
    if count < 0 {
        return Err(Stop::Trap(Trap::X7));
    }
    let id = objects.new_array(kind, count.unsigned_abs())?;
    frame.stack.replace(1, Value::Obj(id));
    frame.offset = next;
    Ok(())
}

/// An array.
#[derive(Clone, Copy, Debug, PartialEq, Eq)]
pub(crate) struct ArrayOf {
    /// The number of the object.
    pub id: u32,
    /// The kind of its elements.
    pub kind: Kind,
    /// How many there are.
    pub count: u32,
}

/// The array that a value is of, None within of null; X4 where it is none.
fn array_in(objects: &Objects, value: Value) -> Result<Option<ArrayOf>, Trap>
    ensures { result ≡ or_trap X4 (array_in_value objects.now value) }
{
    match value {
        Value::I4(_) | Value::I8(_) => Err(Trap::X4),
        Value::Null => Ok(None),
        Value::Obj(id) => match objects.shape(id) {
            Some(Shape::Array(kind, count)) => Ok(Some(ArrayOf { id, kind, count })),
            Some(Shape::Object(_)) | Some(Shape::Text(_)) | None => Err(Trap::X4),
        },
    }
}

/// `ldlen` (ECMA-335 III.4.12).
#[tactic(auto, unfolding(crate::specs::Memory::array_length))]
pub(crate) fn array_length(objects: &Objects, frame: &mut Frame, next: u32) -> Result<(), Stop>
    ensures { Does result (objects.now, frame.new) (objects.now, frame.old) (array_length next objects.now frame.old) }
{
    let value = frame.stack.upper()?;
    let Some(array) = array_in(objects, value)? else {
        return Err(Stop::Trap(Trap::X5));
    };
    frame.stack.replace(1, Value::I4(array.count.cast_signed()));
    frame.offset = next;
    Ok(())
}

/// How many bytes an element of a kind has; a reference has a width of its own.
#[tactic(auto, unfolding(crate::specs::Memory::element_width))]
fn width_of(kind: Kind) -> u8
    ensures { result ≡ element_width kind }
{
    match kind {
        Kind::I1 | Kind::U1 => 1,
        Kind::I2 | Kind::U2 => 2,
        Kind::I4 | Kind::U4 => 4,
        Kind::I8 | Kind::U8 => 8,
        Kind::Ref => 0,
    }
}

/// The array of a kind's width that a value is of, None within of null; X4 where it is none.
#[tactic(auto, unfolding(crate::specs::Memory::array_of))]
fn array_of(objects: &Objects, kind: Kind, value: Value) -> Result<Option<ArrayOf>, Trap>
    ensures { result ≡ array_of kind objects.now value }
{
    let Some(array) = array_in(objects, value)? else {
        return Ok(None);
    };
    if width_of(array.kind) != width_of(kind) {
        return Err(Trap::X4);
    }
    Ok(Some(array))
}

/// An index that lies in the array; X8 where it doesn't.
fn index_in(array: ArrayOf, index: i32) -> Result<u32, Trap>
    ensures { result ≡ index_in array index }
{
    if index < 0 || index.unsigned_abs() >= array.count {
        return Err(Trap::X8);
    }
    Ok(index.unsigned_abs())
}

/// `ldelem` of a kind (ECMA-335 III.4.7, III.4.8).
#[tactic(auto, unfolding(crate::specs::Memory::load_element))]
pub(crate) fn load_element(
    objects: &Objects,
    frame: &mut Frame,
    kind: Kind,
    next: u32,
) -> Result<(), Stop>
    ensures { Does result (objects.now, frame.new) (
      objects.now,
      frame.old,
    ) (load_element kind next objects.now frame.old) }
{
    let (array, index) = frame.stack.upper_two()?;
    let array = array_of(objects, kind, array)?;
    let index = word(index)?;
    let Some(array) = array else {
        return Err(Stop::Trap(Trap::X5));
    };
    let i = index_in(array, index)?;
    let Some(value) = objects.element(array.id, i) else {
        return Err(Stop::Trap(Trap::X8));
    };
    let value = fit(kind, value)?;
    frame.stack.replace(2, value);
    frame.offset = next;
    Ok(())
}

/// The kind as which a value is stored: that of the array.
fn element_kind(kind: Kind, array: Option<ArrayOf>) -> Kind
    ensures { result ≡ element_kind kind array }
{
    match array {
        None => kind,
        Some(array) => array.kind,
    }
}

/// `stelem` of a kind (ECMA-335 III.4.25, III.4.26).
#[tactic(auto, unfolding(crate::specs::Memory::store_element))]
pub(crate) fn store_element(
    objects: &mut Objects,
    frame: &mut Frame,
    kind: Kind,
    next: u32,
) -> Result<(), Stop>
    ensures { Does result (objects.new, frame.new) (
      objects.old,
      frame.old,
    ) (store_element kind next objects.old frame.old) }
{
    let (array, index, value) = frame.stack.upper_three()?;
    let array = array_of(objects, kind, array)?;
    let index = word(index)?;
    let value = fit(element_kind(kind, array), value)?;
    let Some(array) = array else {
        return Err(Stop::Trap(Trap::X5));
    };
    let i = index_in(array, index)?;
    objects.set_element(array.id, i, value);
    frame.stack.remove(3);
    frame.offset = next;
    Ok(())
}
