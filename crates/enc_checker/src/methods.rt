//! The methods of a delta, and the bodies that they have in it.
ghost use Rattle.std.specs.Prelude.{◌≡◌, ◌<◌, ◌^◌, IfOk, IfSome, length, option_map};
ghost use Rattle.enc_opcodes.specs.Body.{code_seen};
ghost use Rattle.enc_checker.specs.Check.{new_code, code_size, code_sizes, new_bodies};

use enc_base::Token;
use enc_base::tables::METHOD_DEF;
use enc_delta::Delta;
use enc_opcodes::CodeRef;
use enc_ppdb::{CodeSizes, MethodList};
use enc_schema::columns::METHOD_DEF_RVA;
use std::alloc::{AllocError, Global};

/// The body of a method in a delta; None where it has none there.
pub fn new_code(delta: &Delta, method: Token) -> Option<CodeRef<'_>>
    ensures code { option_map code_seen result ≡ new_code delta.now method }
    ensures few { IfSome result (λ c. length c.code.now < 2 ^ 32) }
{
    let own = Token {
        table: method.table,
        row: delta.place(method).unwrap_or(0),
    };
    delta.code(delta.cell(own, METHOD_DEF_RVA))
}

/// The size of a method's code in a delta; 0 where it has no body there.
fn code_size(delta: &Delta, method: Token) -> u32
    ensures { result ≡ code_size (new_code delta.now method) }
{
    match new_code(delta, method) {
        Some(code) => code.code.len() as u32,
        None => 0,
    }
}

/// The methods of a delta's EncMap, each with the size of its code, 0 where it has no body there.
#[tactic(auto, unfolding(crate::specs::Check::code_sizes))]
pub(crate) fn code_sizes(alloc: Global, delta: &Delta) -> Result<CodeSizes, AllocError>
    ensures { IfOk result (λ sizes. sizes ≡ code_sizes delta.now) }
{
    let tokens = delta.tokens(alloc)?;
    let mut sizes = CodeSizes::begin(alloc);
    for token in &tokens {
        if token.table != METHOD_DEF {
            continue;
        }
        sizes.push(*token, code_size(delta, *token))?;
    }
    Ok(sizes)
}

/// The methods of a delta's EncMap that have a new body in it.
#[tactic(auto, unfolding(crate::specs::Check::new_bodies))]
pub fn new_bodies(alloc: Global, delta: &Delta) -> Result<MethodList, AllocError>
    ensures { IfOk result (λ methods. methods ≡ new_bodies delta.now) }
{
    let tokens = delta.tokens(alloc)?;
    let mut methods = MethodList::begin(alloc);
    for token in &tokens {
        if token.table != METHOD_DEF || new_code(delta, *token).is_none() {
            continue;
        }
        methods.push(*token)?;
    }
    Ok(methods)
}
