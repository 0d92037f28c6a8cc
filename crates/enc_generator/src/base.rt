//! The base of a case.
ghost use Rattle.std.specs.Prelude.{◌≡◌, ◌++◌, map, IfOk, OnOk};
ghost use Rattle.enc_rows.specs.Sums.{below};
ghost use Rattle.enc_generator.specs.Generated.{base_method as method_of_base, base_edits, generated_base};

use crate::edits::{base_method, module_type, mscorlib, object, p_type};
use enc_edit_list::{Documents, EditList, Edits};
use enc_memory_module::{PlainModule, apply_edits};
use std::alloc::{AllocError, Global};

/// How many methods the base has.
pub const METHODS: u32 = 1000;

/// The Mvid of the base, 33221100-5544-7766-8899-aabbccddeeff.
const MVID: [u8; 16] = [
    0x00, 0x11, 0x22, 0x33, 0x44, 0x55, 0x66, 0x77, 0x88, 0x99, 0xAA, 0xBB, 0xCC, 0xDD, 0xEE, 0xFF,
];

/// Adds the methods M0, M1 and so on, so many.
#[tactic(auto, using(crate::proofs::Turning::method_steps))]
fn push_methods(alloc: Global, count: u32, edits: &mut Edits) -> Result<(), AllocError>
    ensures { OnOk result (edits.new ≡ edits.old ++ map method_of_base (below count)) }
{
    for k in 0..count {
        edits.push(base_method(alloc, k)?)?;
    }
    Ok(())
}

/// The rows of the base but for that of Module.
#[tactic(auto, unfolding(crate::specs::Generated::base_edits))]
fn base_edits(alloc: Global) -> Result<Edits, AllocError>
    ensures { IfOk result (λ e. e ≡ base_edits) }
{
    let mut edits = Edits::begin(alloc);
    edits.push(mscorlib(alloc)?)?;
    edits.push(object(alloc)?)?;
    edits.push(module_type(alloc)?)?;
    edits.push(p_type(alloc)?)?;
    push_methods(alloc, METHODS, &mut edits)?;
    Ok(edits)
}

/// The base: a module of this name with these rows.
#[tactic(auto, unfolding(crate::specs::Generated::generated_base))]
pub fn make_base(alloc: Global) -> Result<PlainModule, AllocError>
    ensures { IfOk result (λ m. m.plain ≡ generated_base) }
{
    let begun = PlainModule::begin(alloc, b"g.dll", MVID)?;
    let list = EditList {
        enc_id: [0; 16],
        edits: base_edits(alloc)?,
        documents: Documents::begin(alloc),
    };
    apply_edits(alloc, &begun, &list)
}
