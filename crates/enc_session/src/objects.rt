//! Objects as they are shown.
ghost use Rattle.std.specs.Prelude.{◌≡◌, ◌++◌, ◌∷◌, [], codes, flat_map, unwrap_or, IsTrue, OnOk};
ghost use Rattle.enc_objects.specs.Objects.{elements_held, fields_in, has_object, units_held};
ghost use Rattle.enc_session.specs.States.{bracketed_values, fields_text, array_kind_text, objects_text, static_line, shown_value};
ghost use Rattle.enc_session.specs.StatesSeen.{content_at, object_line_at};
ghost use Rattle.enc_text.specs.BodyText.{utf8_of};
ghost use Rattle.enc_text.specs.Text.{quoted, token_text};

use crate::values::{push_bracketed, push_value};
use enc_base::Token;
use enc_objects::{Kind, Objects, Shape, Value};
use enc_text::{push_decimal, push_str, push_token, push_units};
use std::alloc::{AllocError, Global};

/// Appends a field and its value.
fn push_entry(
    alloc: Global,
    field: Token,
    value: Value,
    out: &mut Vec<u8>,
) -> Result<(), AllocError>
    ensures { OnOk result (out.new.items ≡ out.old.items ++ token_text field ++ 0x3d ∷ shown_value value) }
{
    push_token(out, field)?;
    push_str(out, "=")?;
    push_value(alloc, value, out)
}

/// Appends fields and their values, a space before each.
fn push_fields(
    alloc: Global,
    fields: &[(Token, Value)],
    out: &mut Vec<u8>,
) -> Result<(), AllocError>
    ensures { OnOk result (out.new.items ≡ out.old.items ++ fields_text fields.now) }
{
    for (field, value) in fields {
        push_str(out, " ")?;
        push_entry(alloc, *field, *value, out)?;
    }
    Ok(())
}

/// How a kind of elements is shown.
fn kind_name(kind: Kind) -> &'static str
    ensures { result.now ≡ array_kind_text kind }
{
    match kind {
        Kind::I1 => "I1",
        Kind::U1 => "U1",
        Kind::I2 => "I2",
        Kind::U2 => "U2",
        Kind::I4 => "I4",
        Kind::U4 => "U4",
        Kind::I8 => "I8",
        Kind::U8 => "U8",
        Kind::Ref => "Ref",
    }
}

/// Appends what an instance of a class is, with the fields of the object of a number.
fn push_instance(
    alloc: Global,
    objects: &Objects,
    id: u32,
    class: Token,
    out: &mut Vec<u8>,
) -> Result<(), AllocError>
    ensures { OnOk result (out.new.items
        ≡ out.old.items ++ (codes "class " ++ token_text class ++ fields_text (fields_in objects.now id))) }
{
    push_str(out, "class ")?;
    push_token(out, class)?;
    let fields = objects.fields(id)?;
    push_fields(alloc, fields.as_slice(), out)
}

/// Appends what an array of a kind is, with the elements of the object of a number.
fn push_array(
    alloc: Global,
    objects: &Objects,
    id: u32,
    kind: Kind,
    out: &mut Vec<u8>,
) -> Result<(), AllocError>
    ensures { OnOk result (out.new.items ≡ out.old.items
        ++ (codes "array " ++ bracketed_values (array_kind_text kind) (unwrap_or (elements_held objects.now id) []))) }
{
    push_str(out, "array ")?;
    push_bracketed(
        alloc,
        kind_name(kind),
        objects.elements(id).unwrap_or(&[]),
        out,
    )
}

/// Appends what a text is, by the units of the object of a number.
fn push_text(alloc: Global, objects: &Objects, id: u32, out: &mut Vec<u8>) -> Result<(), AllocError>
    ensures { OnOk result (out.new.items
        ≡ out.old.items ++ (codes "text " ++ quoted (utf8_of (unwrap_or (units_held objects.now id) [])))) }
{
    push_str(out, "text ")?;
    push_units(alloc, objects.units(id).unwrap_or(&[]), out)
}

/// Appends what the object of a number is.
fn push_content(
    alloc: Global,
    objects: &Objects,
    id: u32,
    out: &mut Vec<u8>,
) -> Result<(), AllocError>
    ensures { OnOk result (out.new.items ≡ out.old.items ++ content_at objects.now id) }
{
    match objects.shape(id) {
        None => Ok(()),
        Some(Shape::Object(class)) => push_instance(alloc, objects, id, class, out),
        Some(Shape::Array(kind, _)) => push_array(alloc, objects, id, kind, out),
        Some(Shape::Text(_)) => push_text(alloc, objects, id, out),
    }
}

/// Appends the line of the object of a number.
fn push_object(
    alloc: Global,
    objects: &Objects,
    id: u32,
    out: &mut Vec<u8>,
) -> Result<(), AllocError>
    requires { IsTrue (has_object objects.now id) }
    ensures { OnOk result (out.new.items ≡ out.old.items ++ object_line_at objects.now id) }
{
    push_str(out, "object ")?;
    push_decimal(alloc, out, id)?;
    push_str(out, " ")?;
    push_content(alloc, objects, id, out)?;
    push_str(out, "\n")
}

/// Appends the lines of all objects.
pub(crate) fn push_objects(
    alloc: Global,
    objects: &Objects,
    out: &mut Vec<u8>,
) -> Result<(), AllocError>
    ensures { OnOk result (out.new.items ≡ out.old.items ++ objects_text 1 objects.now.objects) }
{
    for i in 0..objects.count() {
        push_object(alloc, objects, i + 1, out)?;
    }
    Ok(())
}

/// Appends the line of a static and its value.
#[tactic(auto, unfolding(crate::specs::States::static_line))]
fn push_static(
    alloc: Global,
    field: Token,
    value: Value,
    out: &mut Vec<u8>,
) -> Result<(), AllocError>
    ensures { OnOk result (out.new.items ≡ out.old.items ++ static_line (field, value)) }
{
    push_str(out, "static ")?;
    push_entry(alloc, field, value, out)?;
    push_str(out, "\n")
}

/// Appends the lines of statics and their values.
pub(crate) fn push_statics(
    alloc: Global,
    statics: &[(Token, Value)],
    out: &mut Vec<u8>,
) -> Result<(), AllocError>
    ensures { OnOk result (out.new.items ≡ out.old.items ++ flat_map static_line statics.now) }
{
    for (field, value) in statics {
        push_static(alloc, *field, *value, out)?;
    }
    Ok(())
}
