//! The bodies of an image's methods.
ghost use Rattle.std.specs.Prelude.{◌≡◌, ◌<◌, ◌^◌, length, option_map, IfSome, is_some};
ghost use Rattle.enc_opcodes.specs.Body.{code_seen};
ghost use Rattle.enc_plain.specs.Bodies.{code_loaded};

use enc_il::read_body;
use enc_opcodes::CodeRef;
use enc_pe::LoadedFile;

/// The parts of the body at an RVA, None where none stands whole there.
#[tactic(auto, unfolding(enc_plain::specs::Bodies::code_loaded))]
pub fn code_at<'a>(loaded: &LoadedFile<'a>, rva: u32) -> Option<CodeRef<'a>>
    ensures code { option_map code_seen result ≡ code_loaded loaded.now rva }
    ensures few { IfSome result (λ c. length c.code.now < 2 ^ 32) }
    ensures short { IfSome result (λ c. length c.sections.now < 2 ^ 32) }
{
    if rva == 0 {
        return None;
    }
    let Some(bytes) = loaded.rest(rva) else {
        return None;
    };
    match read_body(bytes, 0, rva) {
        Ok(code) => Some(code),
        Err(_) => None,
    }
}
