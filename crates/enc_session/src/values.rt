//! Values as they are shown.
ghost use Rattle.std.specs.Prelude.{◌≡◌, ◌++◌, ◌∷◌, OnOk};
ghost use Rattle.enc_session.specs.States.{bracketed_values, more_values, shown_value, values_text};

use enc_objects::Value;
use enc_text::{push_decimal, push_signed, push_str};
use std::alloc::{AllocError, Global};

/// Appends a value.
pub(crate) fn push_value(alloc: Global, value: Value, out: &mut Vec<u8>) -> Result<(), AllocError>
    ensures { OnOk result (out.new.items ≡ out.old.items ++ shown_value value) }
{
    match value {
        Value::I4(n) => push_signed(alloc, i64::from(n), out),
        Value::I8(n) => {
            push_signed(alloc, n, out)?;
            push_str(out, "L")
        }
        Value::Null => push_str(out, "null"),
        Value::Obj(id) => {
            push_str(out, "#")?;
            push_decimal(alloc, out, id)
        }
    }
}

/// Appends values, a space before each.
fn push_more_values(alloc: Global, values: &[Value], out: &mut Vec<u8>) -> Result<(), AllocError>
    ensures { OnOk result (out.new.items ≡ out.old.items ++ more_values values.now) }
{
    for value in values {
        push_str(out, " ")?;
        push_value(alloc, *value, out)?;
    }
    Ok(())
}

/// Appends values, a space between them.
fn push_values(alloc: Global, values: &[Value], out: &mut Vec<u8>) -> Result<(), AllocError>
    ensures { OnOk result (out.new.items ≡ out.old.items ++ values_text values.now) }
{
    match values {
        [] => Ok(()),
        [first, rest @ ..] => {
            push_value(alloc, *first, out)?;
            push_more_values(alloc, rest, out)
        }
    }
}

/// Appends values in brackets, behind a name.
#[tactic(auto, unfolding(crate::specs::States::bracketed_values))]
pub(crate) fn push_bracketed(
    alloc: Global,
    name: &str,
    values: &[Value],
    out: &mut Vec<u8>,
) -> Result<(), AllocError>
    ensures { OnOk result (out.new.items ≡ out.old.items ++ bracketed_values name.now values.now) }
{
    push_str(out, name)?;
    push_str(out, "(")?;
    push_values(alloc, values, out)?;
    push_str(out, ")")
}
