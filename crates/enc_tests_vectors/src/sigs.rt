//! Signatures (ECMA-335 II.23.2). A signature is asked for as KIND BLOB ROWS: what it is of, its bytes, and
//! how many rows the tables have that its tokens name.

use crate::lines::{Args, Fault, token_in, told};
use enc_base::{Counts, Token};
use enc_sigs::{
    Elem, Mix, Sig, SigFault, SigKind, field_sig, finished, locals_sig, method_sig, method_spec,
    mix_of, mixed_ends, property_sig, read_sig, sigs_agree, type_spec, write_sig,
};
use std::alloc::Global;

/// What a signature is of, by its name.
fn kind(args: &mut Args<'_>) -> Result<SigKind, Fault> {
    match args.word()? {
        "Method" => Ok(SigKind::Method),
        "Field" => Ok(SigKind::Field),
        "Locals" => Ok(SigKind::Locals),
        "Property" => Ok(SigKind::Property),
        "TypeSpec" => Ok(SigKind::TypeSpec),
        "MethodSpec" => Ok(SigKind::MethodSpec),
        _ => Err(Fault::Form),
    }
}

/// A signature, None where the blob is outside the grammar.
fn there(read: Result<Sig, SigFault>) -> Result<Option<Sig>, Fault> {
    match read {
        Ok(sig) => Ok(Some(sig)),
        Err(SigFault::Grammar) => Ok(None),
        Err(SigFault::Memory) => Err(Fault::Memory),
    }
}

/// The signature by the function of its kind.
fn sig_of(alloc: Global, kind: SigKind, blob: &[u8], rows: &Counts) -> Result<Sig, SigFault> {
    match kind {
        SigKind::Method => method_sig(alloc, blob, rows),
        SigKind::Field => field_sig(alloc, blob, rows),
        SigKind::Locals => locals_sig(alloc, blob, rows),
        SigKind::Property => property_sig(alloc, blob, rows),
        SigKind::TypeSpec => type_spec(alloc, blob, rows),
        SigKind::MethodSpec => method_spec(alloc, blob, rows),
    }
}

/// The signature of KIND BLOB ROWS, None where the blob is outside the grammar.
fn asked(alloc: Global, args: &mut Args<'_>) -> Result<Option<Sig>, Fault> {
    let kind = kind(args)?;
    let blob = args.bytes(alloc)?;
    let rows = args.rows()?;
    there(sig_of(alloc, kind, &blob, &rows))
}

/// What is written of a signature that was read, for `sig KIND BLOB ROWS`.
fn written(alloc: Global, args: &mut Args<'_>) -> Result<String, Fault> {
    let kind = kind(args)?;
    let blob = args.bytes(alloc)?;
    let rows = args.rows()?;
    let Some(sig) = there(read_sig(alloc, kind, &blob, &rows))? else {
        return told::word(alloc, "none");
    };
    let mut out = Vec::new(alloc);
    write_sig(alloc, &sig, &mut out)?;
    told::bytes(alloc, &out)
}

/// What stands before the parts, and how many these are, for `sig_front KIND BLOB ROWS`.
fn front(alloc: Global, args: &mut Args<'_>) -> Result<String, Fault> {
    let Some(sig) = asked(alloc, args)? else {
        return told::word(alloc, "none");
    };
    let (form, first) = (sig.form(), sig.kind());
    let (generics, count) = (sig.generics(), sig.count());
    Ok(format!(in alloc; "{form:?} first {first:02x} generics {generics} parts {count}")?)
}

/// The part within the part, as the indices lead: the first among the signature's.
fn part_at<'a>(sig: &'a Sig, path: &[u32]) -> Option<&'a Elem> {
    let [first, rest @ ..] = path else {
        return None;
    };
    let mut elem = sig.part(*first)?;
    for index in rest {
        elem = elem.kid(*index)?;
    }
    Some(elem)
}

/// The element, its number and its token, for `sig_part KIND BLOB ROWS INDEX,..`.
fn part(alloc: Global, args: &mut Args<'_>) -> Result<String, Fault> {
    let Some(sig) = asked(alloc, args)? else {
        return Err(Fault::Form);
    };
    let path = args.numbers(alloc)?;
    let Some(elem) = part_at(&sig, &path) else {
        return told::word(alloc, "none");
    };
    let token = told::token(alloc, elem.token)?;
    Ok(format!(in alloc; "{:02x} number {} token {token}", elem.element, elem.number)?)
}

/// Whether two blobs are equal but for tokens, for `sigs_agree KIND BLOB BLOB TOKENS`. TOKENS are two that
/// count as equal with `=` between them, or `all` or `none`.
fn agree(alloc: Global, args: &mut Args<'_>) -> Result<String, Fault> {
    let kind = kind(args)?;
    let (a, b) = (args.bytes(alloc)?, args.bytes(alloc)?);
    let tokens = args.word()?;
    let is_so = match tokens {
        "all" => sigs_agree(kind, &a, &b, |_t, _u| true),
        "none" => sigs_agree(kind, &a, &b, |_t, _u| false),
        _ => {
            let (first, second) = pair(tokens)?;
            sigs_agree(kind, &a, &b, |t, u| t == first && u == second)
        }
    };
    told::yes_or_no(alloc, is_so)
}

/// Two tokens with `=` between them.
fn pair(word: &str) -> Result<(Token, Token), Fault> {
    match word.split_once('=') {
        Some((first, second)) => Ok((token_in(first)?, token_in(second)?)),
        None => Err(Fault::Form),
    }
}

/// The words and the 64 bits of what was mixed.
fn told_mix(alloc: Global, mix: Mix) -> Result<String, Fault> {
    let last = finished(mix);
    Ok(format!(in alloc; "{:016x} {:016x} finished {last:016x}", mix.high, mix.low)?)
}

/// What bytes come to, for `mixed_ends MOST NUMBER BYTES`: so many of them at either end, mixed into
/// what a number begins.
fn ends(alloc: Global, args: &mut Args<'_>) -> Result<String, Fault> {
    let most = args.number()? as usize;
    let number = args.long()?;
    let bytes = args.bytes(alloc)?;
    told_mix(alloc, mixed_ends(most, mix_of(number), &bytes))
}

/// The answer to a call of this file, None where the call is another: `none` where a blob is outside the
/// grammar or there is no such part.
pub fn answer(alloc: Global, call: &str, args: &mut Args<'_>) -> Result<Option<String>, Fault> {
    Ok(Some(match call {
        "sig" => written(alloc, args)?,
        "sig_front" => front(alloc, args)?,
        "sig_part" => part(alloc, args)?,
        "sigs_agree" => agree(alloc, args)?,
        "mixed_ends" => ends(alloc, args)?,
        _ => return Ok(None),
    }))
}
