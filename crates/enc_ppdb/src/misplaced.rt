//! Rows of a delta's PDB that don't go with the delta's metadata.
ghost use Rattle.std.specs.Prelude.{◌≡◌, option_map};
ghost use Rattle.enc_ppdb.specs.Misplaced.{lesser_of, debug_token};
ghost use Rattle.enc_ppdb.specs.Seen.{is_past_end};

use enc_base::Token;
use enc_base::tables::METHOD_DEBUG_INFORMATION;

/// Whether there is no size, or it is less than the end of some points.
pub(crate) fn is_past_end(size: Option<u32>, end: u64) -> bool
    ensures { result ≡ is_past_end size end }
{
    match size {
        None => true,
        Some(size) => u64::from(size) < end,
    }
}

/// The lesser of two numbers where there are both, and else the one that is there.
pub(crate) fn lesser(first: Option<u32>, second: Option<u32>) -> Option<u32>
    ensures { result ≡ lesser_of first second }
{
    match (first, second) {
        (Some(n), Some(m)) => Some(n.min(m)),
        (Some(n), None) => Some(n),
        (None, second) => second,
    }
}

/// The token of a row of MethodDebugInformation.
pub(crate) fn debug_token(row: Option<u32>) -> Option<Token>
    ensures { result ≡ option_map debug_token row }
{
    let row = row?;
    Some(Token {
        table: METHOD_DEBUG_INFORMATION,
        row,
    })
}
