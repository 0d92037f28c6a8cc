//! The tokens of MethodDebugInformation in EncMap, which name the methods of a delta's rows.
ghost use Rattle.std.specs.Prelude.{◌≡◌, ◌<◌, ◌^◌, IfOk};
ghost use Rattle.enc_ppdb.specs.Fault.{map_token_at, named_tokens};

use crate::fault::nth_row;
use crate::file::File;
use crate::methods::MethodList;
use enc_base::Token;
use enc_base::tables::{ENC_MAP, METHOD_DEBUG_INFORMATION};
use enc_schema::columns::ENC_MAP_TOKEN;
use std::alloc::{AllocError, Global};

/// A token of EncMap, from 0.
#[tactic(auto, unfolding(crate::specs::Fault::map_token_at))]
fn token(file: &File, n: u32) -> Token
    requires { n < 2 ^ 24 }
    ensures { result ≡ map_token_at file.now n }
{
    Token::of(file.cell(nth_row(ENC_MAP, n), ENC_MAP_TOKEN))
}

/// The tokens of MethodDebugInformation in EncMap, in order.
#[tactic(auto, using(crate::proofs::TokensNamed::tokens_steps), unfolding(crate::specs::Fault::named_tokens))]
pub(crate) fn named_of(alloc: Global, file: &File) -> Result<MethodList, AllocError>
    ensures { IfOk result (λ named. named ≡ named_tokens file.now) }
{
    let mut named = MethodList::begin(alloc);
    for n in 0..file.count(ENC_MAP) {
        let token = token(file, n);
        if token.table == METHOD_DEBUG_INFORMATION {
            named.push(token)?;
        }
    }
    Ok(named)
}
