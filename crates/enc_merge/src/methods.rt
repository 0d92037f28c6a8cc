//! The methods of the delta that stands for two.
ghost use Rattle.std.specs.Prelude.{◌≡◌, filter, IfOk};
ghost use Rattle.enc_merge.specs.Merges.{methods_listed};
ghost use Rattle.enc_merge.specs.Writing.{AreOfEither, changes_debug};

use crate::last::Last;
use enc_base::Token;
use enc_base::tables::METHOD_DEF;
use enc_checker::new_code;
use enc_ppdb::PdbChain;
use std::alloc::{AllocError, Global};

/// The methods that one of the two lists, by the numbers of all tokens that one of them lists.
pub(crate) fn methods_of(
    alloc: Global,
    last: &Last<'_>,
    numbers: &[u32],
) -> Result<Vec<Token>, AllocError>
    requires { AreOfEither last.now.first last.now.second numbers.now }
    ensures { IfOk result (λ m. m.items ≡ methods_listed last.now.chain last.now.first last.now.second) }
{
    last.aggregate();
    let mut methods = Vec::new(alloc);
    for k in 0..numbers.len() {
        let token = Token::of(numbers[k]);
        if token.table == METHOD_DEF {
            methods.push(token)?;
        }
    }
    Ok(methods)
}

/// Whether one of the two changes what is known of a method: it has a new body there, or a row in the PDB.
#[tactic(auto, unfolding(crate::specs::Writing::changes_debug))]
fn is_changed(last: &Last<'_>, points: &PdbChain, method: Token) -> bool
    ensures { result ≡ changes_debug last.now points.now method }
{
    new_code(last.second, method).is_some()
        || new_code(last.first, method).is_some()
        || points.names(0, method)
        || points.names(1, method)
}

/// The methods of which one of the two changes what is known.
pub(crate) fn changed_methods(
    alloc: Global,
    last: &Last<'_>,
    points: &PdbChain,
    methods: &[Token],
) -> Result<Vec<Token>, AllocError>
    ensures { IfOk result (λ m. m.items ≡ filter (changes_debug last.now points.now) methods.now) }
{
    let mut changed = Vec::new(alloc);
    for k in 0..methods.len() {
        let method = methods[k];
        if is_changed(last, points, method) {
            changed.push(method)?;
        }
    }
    Ok(changed)
}
