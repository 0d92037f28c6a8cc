//! The bodies in a delta's code (ECMA-335 II.25.4).
ghost use Rattle.std.specs.Prelude.{◌≡◌, ◌<◌, ◌^◌, length, option_map, option_copied, IfSome};
ghost use Rattle.enc_meta.specs.Regions.{rest_loaded};
ghost use Rattle.enc_opcodes.specs.Body.{code_seen};
ghost use Rattle.enc_plain.specs.Bodies.{code_there, code_loaded};
ghost use Rattle.enc_delta.specs.Delta.{loaded_code};

use enc_il::read_body;
use enc_opcodes::CodeRef;

/// The bytes of the code from an offset on, None where none stands there.
#[tactic(auto, unfolding(enc_meta::specs::Regions::rest_loaded))]
fn rest_from(il: &[u8], offset: u32) -> Option<&[u8]>
    ensures { option_copied result ≡ rest_loaded (loaded_code il.now) offset }
{
    let at = offset as usize;
    if at < il.len() {
        return Some(&il[at..]);
    }
    None
}

/// The parts of the body at an offset of the code, None where none stands whole there.
pub fn body_from(il: &[u8], offset: u32) -> Option<CodeRef<'_>>
    ensures code { option_map code_seen result ≡ code_there (loaded_code il.now) offset }
    ensures few { IfSome result (λ c. length c.code.now < 2 ^ 32) }
    ensures short { IfSome result (λ c. length c.sections.now < 2 ^ 32) }
{
    let Some(bytes) = rest_from(il, offset) else {
        return None;
    };
    match read_body(bytes, 0, offset) {
        Ok(code) => Some(code),
        Err(_) => None,
    }
}

/// The parts of the body at a method's place in the code, of which 0 is none.
#[tactic(auto, unfolding(enc_plain::specs::Bodies::code_loaded))]
pub fn code_at(il: &[u8], place: u32) -> Option<CodeRef<'_>>
    ensures code { option_map code_seen result ≡ code_loaded (loaded_code il.now) place }
    ensures few { IfSome result (λ c. length c.code.now < 2 ^ 32) }
    ensures short { IfSome result (λ c. length c.sections.now < 2 ^ 32) }
{
    if place == 0 {
        return None;
    }
    body_from(il, place)
}
