ghost use Rattle.std.specs.Prelude.{◌≡◌, ℕ, List, true};
ghost use Rattle.std.specs.List.{list_all};
ghost use Rattle.enc_meta.specs.Built.{Built};
ghost use Rattle.enc_edit_list.specs.Form.{instr_fits};
ghost use Rattle.enc_edit_list.specs.Sizes.{length_of_code};
ghost use Rattle.enc_edit_list.specs.declared.body.InstrValue.{InstrValue as TheInstr};
ghost use Rattle.enc_assembly.specs.Assembly.{are_small, text_is_kept};

use enc_assembly::assemble;
use enc_base::Token;
use enc_edit_list::*;
use enc_meta::{HeapBuilder, HeapLengths};
use enc_opcodes::{Op, Operand};
use std::test::Fail;

/// `ldarg.s 5`, `br.s` to the last instruction, `call 0a000001`, `ret`.
fn code() -> [InstrValue; 4]
    ensures fits { list_all instr_fits result ≡ true }
    ensures small { (offset : List ℕ → ℕ) → are_small offset result ≡ true }
    ensures kept { (heaps : Built) → list_all (λ (i : TheInstr). text_is_kept heaps i.arg) result ≡ true }
    ensures size { length_of_code result ≡ 10 }
{
    [
        InstrValue {
            op: Op {
                byte: 0x0E,
                operand: Operand::U8,
            },
            arg: ArgValue::Num(5),
        },
        InstrValue {
            op: Op {
                byte: 0x2B,
                operand: Operand::Branch8,
            },
            arg: ArgValue::Target(9),
        },
        InstrValue {
            op: Op {
                byte: 0x28,
                operand: Operand::Token,
            },
            arg: ArgValue::Token(Token {
                table: 0x0A,
                row: 1,
            }),
        },
        InstrValue {
            op: Op {
                byte: 0x2A,
                operand: Operand::None,
            },
            arg: ArgValue::None,
        },
    ]
}

#[test]
fn assembles_a_branch_over_a_call(rt: HostRuntime) -> Result<(), Fail> {
    let alloc = rt.alloc();
    let none = HeapLengths {
        strings: 0,
        users: 0,
        blobs: 0,
        guids: 0,
    };
    let mut heaps = HeapBuilder::begin(alloc, none)?;
    let bytes = assemble(alloc, &code(), &mut heaps)?;
    assert_eq!(rt;
        bytes.as_slice(),
        [0x0E, 5, 0x2B, 5, 0x28, 1, 0, 0, 0x0A, 0x2A].as_slice()
    );
    Ok(())
}
