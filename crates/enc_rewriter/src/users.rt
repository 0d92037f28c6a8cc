//! The user texts that a body names, put into `#US` (ECMA-335 II.24.2.4).
ghost use Rattle.std.specs.Prelude.{◌≡◌, ◌<◌, ◌^◌, ◌%◌, ℕ, length, OnOk};
ghost use Rattle.std.specs.Option.{option_map_or};
ghost use Rattle.enc_base.specs.Token.{nth_row};
ghost use Rattle.enc_base.specs.Units.{units_of};
ghost use Rattle.enc_il.specs.Seen.{arg_seen};
ghost use Rattle.enc_meta.specs.Built.{unit_bytes};
ghost use Rattle.enc_opcodes.specs.Body.{body_of, code_seen, told};
ghost use Rattle.enc_rewriter.specs.Values.{with_all, text_named, texts_named, units_told, IsPast};
ghost use Rattle.enc_rewriter.specs.declared.pass.Pass.TheVariants.{Users};

use crate::module_values::ModuleValues;
use enc_il::instr_at;
use enc_meta::BuildFault;
use enc_opcodes::{Arg, CodeRef};
use enc_plain::ModuleView;

/// The bytes up to the end of the last whole unit.
#[tactic(auto, using(crate::proofs::UserTexts::whole))]
fn whole_units(bytes: &[u8]) -> &[u8]
    ensures units { result.now ≡ unit_bytes (units_of bytes.now) }
    ensures even { length result.now % 2 ≡ 0 }
{
    &bytes[..bytes.len() / 2 * 2]
}

/// The bytes of the units of the user text at an offset, none where none stands there.
#[tactic(auto, unfolding(enc_base::specs::Units::units_of))]
pub(crate) fn units_at<V: ModuleView>(view: &V, offset: u32) -> &[u8]
    ensures units { result.now ≡ units_told (V.users view.now offset) }
    ensures even { length result.now % 2 ≡ 0 }
{
    match view.user_text(offset) {
        Some(bytes) => whole_units(bytes),
        None => &[],
    }
}

/// Adds the user text of an operand, where it names one.
#[tactic(auto, unfolding(crate::specs::Values::with_all))]
fn add_argument<'a, V: ModuleView>(
    view: &'a V,
    arg: &Arg<'_>,
    heaps: &mut ModuleValues<'a>,
) -> Result<(), BuildFault>
    ensures filled { (end : ℕ) → OnOk result
        (heaps.new ≡ with_all Users heaps.old (text_named (told (V.users view.now) (arg_seen end arg.now)))) }
    ensures past { (end : ℕ) → IsPast result Users
        (with_all Users heaps.old (text_named (told (V.users view.now) (arg_seen end arg.now)))) }
{
    match *arg {
        Arg::User(offset) => heaps.add_units(units_at(view, offset)),
        _ => Ok(()),
    }
}

/// Adds the user texts that a code names, in the order of its instructions.
pub(crate) fn add_named<'a, V: ModuleView>(
    view: &'a V,
    code: &CodeRef<'_>,
    heaps: &mut ModuleValues<'a>,
) -> Result<(), BuildFault>
    requires few { length code.now.code.now < 2 ^ 32 }
    ensures filled { OnOk result (heaps.new
        ≡ with_all Users heaps.old (texts_named (body_of (V.users view.now) (code_seen code.now)).code)) }
    ensures past { IsPast result Users
        (with_all Users heaps.old (texts_named (body_of (V.users view.now) (code_seen code.now)).code)) }
{
    let mut at = 0;
    while let Some((instr, end)) = instr_at(code, at) {
        match add_argument(view, &instr.arg, heaps) {
            Ok(()) => {}
            Err(fault) => return Err(fault),
        }
        at = end;
    }
    Ok(())
}
