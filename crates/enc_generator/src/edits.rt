//! The edits of a case: rows of the base, and methods that are added or replaced.
ghost use Rattle.std.specs.Prelude.{◌≡◌, [], ◌∷◌, ◌++◌, IfOk, decimal, codes};
ghost use Rattle.enc_base.specs.Token.{nil};
ghost use Rattle.enc_base.specs.Tables.{type_ref, method_def};
ghost use Rattle.enc_edit_list.specs.declared.edit.Edit.TheVariants.{Body as Replace};
ghost use Rattle.enc_generator.specs.Generated.{load_of, return as returning, body_loading, named_row, adds_plain_row, adds_method, adds_mscorlib, adds_object, adds_type, base_method, name_added};

use enc_base::tables::{ASSEMBLY_REF, METHOD_DEF, TYPE_DEF, TYPE_REF};
use enc_base::{Bytes, Token};
use enc_edit_list::{
    ArgValue, BodyValue, Cell, Cells, ClauseList, Edit, InstrList, InstrValue, PointList,
};
use enc_opcodes::{Op, Operand};
use std::alloc::{AllocError, Global};

/// The row of a table.
pub fn named_row(table: u8, row: u32) -> Token
    ensures { result ≡ named_row table row }
{
    Token { table, row }
}

/// No token.
fn nil() -> Token
    ensures { result ≡ nil }
{
    Token { table: 0, row: 0 }
}

/// `ldc.i4` of a number.
fn load_of(number: u32) -> InstrValue
    ensures { result ≡ load_of number }
{
    InstrValue {
        op: Op {
            byte: 0x20,
            operand: Operand::I32,
        },
        arg: ArgValue::Num(i64::from(number)),
    }
}

/// `ret`.
fn returning() -> InstrValue
    ensures { result ≡ returning }
{
    InstrValue {
        op: Op {
            byte: 0x2A,
            operand: Operand::None,
        },
        arg: ArgValue::None,
    }
}

/// The body that loads a number and returns.
fn body_loading(alloc: Global, number: u32) -> Result<BodyValue, AllocError>
    ensures { IfOk result (λ b. b ≡ body_loading number) }
{
    let mut code = InstrList::begin(alloc);
    code.push(load_of(number))?;
    code.push(returning())?;
    Ok(BodyValue {
        max: 8,
        init: false,
        locals: nil(),
        code,
        clauses: ClauseList::begin(alloc),
    })
}

/// A text.
fn text(alloc: Global, bytes: &[u8]) -> Result<Bytes, AllocError>
    ensures { IfOk result (λ b. b ≡ bytes.now) }
{
    let mut text = Vec::new(alloc);
    text.extend_from_slice(bytes)?;
    Ok(Bytes::from_vec(text))
}

/// The signature of a static method that takes nothing and returns an int32 (ECMA-335 II.23.2.1).
fn signature(alloc: Global) -> Result<Bytes, AllocError>
    ensures { IfOk result (λ b. b ≡ 0 ∷ 0 ∷ 8 ∷ []) }
{
    text(alloc, &[0, 0, 8])
}

/// A row without an owner.
fn plain_row(alloc: Global, table: u8, cells: Cells) -> Edit
    ensures { result ≡ adds_plain_row table cells }
{
    Edit::Add {
        table,
        owner: nil(),
        cells,
        code: None,
        points: PointList::begin(alloc),
    }
}

/// A public static method of the type P with this name: it takes nothing and returns a number.
pub fn method(alloc: Global, name: Bytes, number: u32) -> Result<Edit, AllocError>
    ensures { IfOk result (λ e. e ≡ adds_method name number) }
{
    let mut cells = Cells::begin(alloc);
    cells.push(Cell::Num(0))?;
    cells.push(Cell::Num(0x16))?;
    cells.push(Cell::Text(name))?;
    cells.push(Cell::Blob(signature(alloc)?))?;
    let code = body_loading(alloc, number)?;
    Ok(Edit::Add {
        table: METHOD_DEF,
        owner: named_row(TYPE_DEF, 2),
        cells,
        code: Some(code),
        points: PointList::begin(alloc),
    })
}

/// The method of a row returns another number.
pub fn replacing(alloc: Global, row: u32, number: u32) -> Result<Edit, AllocError>
    ensures { IfOk result (λ e. e ≡ Replace (named_row method_def row) (body_loading number) []) }
{
    let code = body_loading(alloc, number)?;
    Ok(Edit::Body {
        method: named_row(METHOD_DEF, row),
        code,
        points: PointList::begin(alloc),
    })
}

/// The assembly `mscorlib` 4.0.0.0.
pub fn mscorlib(alloc: Global) -> Result<Edit, AllocError>
    ensures { IfOk result (λ e. e ≡ adds_mscorlib) }
{
    let mut cells = Cells::begin(alloc);
    cells.push(Cell::Num(4))?;
    cells.push(Cell::Num(0))?;
    cells.push(Cell::Num(0))?;
    cells.push(Cell::Num(0))?;
    cells.push(Cell::Num(0))?;
    cells.push(Cell::Blob(Bytes::begin(alloc)))?;
    cells.push(Cell::Text(text(alloc, b"mscorlib")?))?;
    cells.push(Cell::Text(Bytes::begin(alloc)))?;
    cells.push(Cell::Blob(Bytes::begin(alloc)))?;
    Ok(plain_row(alloc, ASSEMBLY_REF, cells))
}

/// Its type System.Object.
pub fn object(alloc: Global) -> Result<Edit, AllocError>
    ensures { IfOk result (λ e. e ≡ adds_object) }
{
    let mut cells = Cells::begin(alloc);
    cells.push(Cell::Refer(named_row(ASSEMBLY_REF, 1)))?;
    cells.push(Cell::Text(text(alloc, b"Object")?))?;
    cells.push(Cell::Text(text(alloc, b"System")?))?;
    Ok(plain_row(alloc, TYPE_REF, cells))
}

/// A type with these flags that extends another.
fn type_of(alloc: Global, flags: u32, name: &[u8], parent: Token) -> Result<Edit, AllocError>
    ensures { IfOk result (λ e. e ≡ adds_type flags name.now parent) }
{
    let mut cells = Cells::begin(alloc);
    cells.push(Cell::Num(flags))?;
    cells.push(Cell::Text(text(alloc, name)?))?;
    cells.push(Cell::Text(Bytes::begin(alloc)))?;
    cells.push(Cell::Refer(parent))?;
    Ok(plain_row(alloc, TYPE_DEF, cells))
}

/// The type `<Module>`.
pub fn module_type(alloc: Global) -> Result<Edit, AllocError>
    ensures { IfOk result (λ e. e ≡ adds_type 0 (codes "<Module>") nil) }
{
    type_of(alloc, 0, b"<Module>", nil())
}

/// The type P, which has all methods.
pub fn p_type(alloc: Global) -> Result<Edit, AllocError>
    ensures { IfOk result (λ e. e ≡ adds_type 0x100001 (codes "P") (named_row type_ref 1)) }
{
    type_of(alloc, 0x10_0001, b"P", named_row(TYPE_REF, 1))
}

/// The name M with a number.
fn base_name(alloc: Global, k: u32) -> Result<Bytes, AllocError>
    ensures { IfOk result (λ b. b ≡ codes "M" ++ decimal k) }
{
    let name = format!(in alloc; "M{k}")?;
    Ok(Bytes::from_vec(name.into_bytes()))
}

/// The method M with a number, which it returns.
pub fn base_method(alloc: Global, k: u32) -> Result<Edit, AllocError>
    ensures { IfOk result (λ e. e ≡ base_method k) }
{
    method(alloc, base_name(alloc, k)?, k)
}

/// The name A, the number of the list, _ and that of the turn.
pub fn name_added(alloc: Global, list: u32, turn: u32) -> Result<Bytes, AllocError>
    ensures { IfOk result (λ b. b ≡ name_added list turn) }
{
    let name = format!(in alloc; "A{list}_{turn}")?;
    Ok(Bytes::from_vec(name.into_bytes()))
}
