//! The bytes of a body's instructions.
ghost use Rattle.std.specs.Prelude.{◌≡◌, ◌<◌, ◌^◌, ◌++◌, ◌+◌, true, List, length, slice_get, Some, IfOk};
ghost use Rattle.std.specs.List.{list_all};
ghost use Rattle.enc_meta.specs.Built.{user_offset};
ghost use Rattle.enc_edit_list.specs.Form.{instr_fits};
ghost use Rattle.enc_edit_list.specs.Sizes.{length_of_code};
ghost use Rattle.enc_edit_list.specs.declared.body.InstrValue.{InstrValue as TheInstr};
ghost use Rattle.enc_assembly.specs.Assembly.{code_bytes, are_small, text_is_kept};

use crate::instr::push_instr;
use enc_edit_list::{InstrValue, instruction_size};
use enc_meta::HeapBuilder;
use std::alloc::{AllocError, Global};

/// The instruction at a place.
fn instr_at(code: &[InstrValue], k: usize) -> &InstrValue
    requires { k < length code.now }
    ensures { slice_get code.now k ≡ Some result.now }
{
    &code[k]
}

/// The code of instructions that stand one behind the other from 0 on. Their user texts are in the heap
/// already, whose offsets they are named by. The time is linear in what is written.
#[tactic(auto, using(crate::proofs::Steps::code_steps))]
pub fn assemble(
    alloc: Global,
    code: &[InstrValue],
    heaps: &mut HeapBuilder,
) -> Result<Vec<u8>, AllocError>
    requires fits { list_all instr_fits code.now ≡ true }
    requires small { are_small (user_offset heaps.old) code.now ≡ true }
    requires kept { list_all (λ (i : TheInstr). text_is_kept heaps.old i.arg) code.now ≡ true }
    requires size { length_of_code code.now < 2 ^ 32 }
    ensures bytes { IfOk result (λ v. v.items ≡ code_bytes (user_offset heaps.old) 0 code.now) }
    ensures same { heaps.new ≡ heaps.old }
{
    let mut out = Vec::new(alloc);
    let mut end: u32 = 0;
    for k in 0..code.len() {
        let instr = instr_at(code, k);
        end += instruction_size(instr) as u32;
        match push_instr(instr, end, heaps, &mut out) {
            Ok(()) => {}
            Err(error) => return Err(error),
        }
    }
    Ok(out)
}
