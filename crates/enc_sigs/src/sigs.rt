//! Reading whole signatures (ECMA-335 II.23.2).
ghost use Rattle.std.specs.Prelude.{◌≡◌, ℕ, ◌<◌, ◌^◌, length, IfOk};
ghost use Rattle.enc_sigs.specs.Grammar.{sig_in, front_in, list_in, accessed_in, parts_in, type_in, in_counts};
ghost use Rattle.enc_sigs.specs.Reads.{Gives, Reads, AreRead};
ghost use Rattle.enc_sigs.specs.declared.kind.SigKind.TheVariants as sigs;

use crate::elem::Elem;
use crate::held::added;
use crate::kind::{DEPTH, SigFault, SigKind};
use crate::number::calling;
use crate::read::{elem, many_elems, parts};
use crate::sig::{Front, Sig};
use enc_base::{Counts, unsigned_front, written_laws};
use std::alloc::Global;

/// A count and so many types.
#[tactic(auto, unfolding(crate::specs::Grammar::list_in, crate::specs::Grammar::type_in))]
fn counted_elems<'a>(
    alloc: Global,
    bytes: &'a [u8],
    counts: &Counts,
) -> Result<(Vec<Elem>, &'a [u8]), SigFault>
    ensures read { AreRead result (list_in (type_in (in_counts counts.now)) bytes.now) }
    ensures few { IfOk result (λ p. length p.0.items < 2 ^ 32) }
{
    let Some((count, rest)) = unsigned_front(bytes) else {
        return Err(SigFault::Grammar);
    };
    many_elems(Vec::new(alloc), count, alloc, DEPTH, rest, counts)
}

/// A count, a type and so many types more.
#[tactic(auto, unfolding(crate::specs::Grammar::accessed_in, crate::specs::Grammar::type_in))]
fn accessed<'a>(
    alloc: Global,
    bytes: &'a [u8],
    counts: &Counts,
) -> Result<(Vec<Elem>, &'a [u8]), SigFault>
    ensures read { AreRead result (accessed_in (type_in (in_counts counts.now)) bytes.now) }
    ensures few { IfOk result (λ p. length p.0.items < 2 ^ 32) }
{
    let Some((count, rest)) = unsigned_front(bytes) else {
        return Err(SigFault::Grammar);
    };
    let (first, rest) = elem(alloc, DEPTH, rest, counts)?;
    let Ok(first) = added(Vec::new(alloc), first) else {
        return Err(SigFault::Memory);
    };
    many_elems(first, count, alloc, DEPTH, rest, counts)
}

/// A count, the return type and the parameters.
#[tactic(auto, unfolding(crate::specs::Grammar::type_in))]
fn method_parts<'a>(
    alloc: Global,
    bytes: &'a [u8],
    counts: &Counts,
) -> Result<(Vec<Elem>, &'a [u8]), SigFault>
    ensures read { AreRead result (parts_in (type_in (in_counts counts.now)) bytes.now) }
    ensures few { IfOk result (λ p. length p.0.items < 2 ^ 32) }
{
    parts(Vec::new(alloc), alloc, DEPTH, bytes, counts)
}

/// What stands in the signature of a method (ECMA-335 II.23.2.1 to II.23.2.3).
#[tactic(auto, unfolding(crate::specs::Grammar::front_in, crate::specs::Grammar::method_in))]
fn method_front<'a>(
    alloc: Global,
    blob: &'a [u8],
    counts: &Counts,
) -> Result<(Front, &'a [u8]), SigFault>
    ensures { Reads result (front_in (in_counts counts.now) sigs.Method blob.now) }
{
    let Some(((kind, generics), rest)) = calling(blob) else {
        return Err(SigFault::Grammar);
    };
    let (parts, rest) = method_parts(alloc, rest, counts)?;
    Ok((
        Front {
            form: SigKind::Method,
            kind,
            generics,
            parts,
        },
        rest,
    ))
}

/// What stands in that of a field (II.23.2.4).
#[tactic(auto, unfolding(crate::specs::Grammar::front_in, // a signature of each kind
crate::specs::Grammar::byte_in, // its first byte
crate::specs::Grammar::type_in // the type in it
))]
fn field_front<'a>(
    alloc: Global,
    blob: &'a [u8],
    counts: &Counts,
) -> Result<(Front, &'a [u8]), SigFault>
    ensures { Reads result (front_in (in_counts counts.now) sigs.Field blob.now) }
{
    let [0x06, rest @ ..] = blob else {
        return Err(SigFault::Grammar);
    };
    let (part, rest) = elem(alloc, DEPTH, rest, counts)?;
    let Ok(parts) = added(Vec::new(alloc), part) else {
        return Err(SigFault::Memory);
    };
    Ok((
        Front {
            form: SigKind::Field,
            kind: 0x06,
            generics: 0,
            parts,
        },
        rest,
    ))
}

/// What stands in that of local variables (II.23.2.6).
#[tactic(auto, unfolding(crate::specs::Grammar::front_in, crate::specs::Grammar::byte_in))]
fn locals_front<'a>(
    alloc: Global,
    blob: &'a [u8],
    counts: &Counts,
) -> Result<(Front, &'a [u8]), SigFault>
    ensures { Reads result (front_in (in_counts counts.now) sigs.Locals blob.now) }
{
    let [0x07, rest @ ..] = blob else {
        return Err(SigFault::Grammar);
    };
    let (parts, rest) = counted_elems(alloc, rest, counts)?;
    Ok((
        Front {
            form: SigKind::Locals,
            kind: 0x07,
            generics: 0,
            parts,
        },
        rest,
    ))
}

/// What stands in that of a property (II.23.2.5).
#[tactic(auto, unfolding(crate::specs::Grammar::front_in, crate::specs::Grammar::byte_in))]
fn property_front<'a>(
    alloc: Global,
    blob: &'a [u8],
    counts: &Counts,
) -> Result<(Front, &'a [u8]), SigFault>
    ensures { Reads result (front_in (in_counts counts.now) sigs.Property blob.now) }
{
    let [kind, rest @ ..] = blob else {
        return Err(SigFault::Grammar);
    };
    if *kind != 0x08 && *kind != 0x28 {
        return Err(SigFault::Grammar);
    }
    let (parts, rest) = accessed(alloc, rest, counts)?;
    Ok((
        Front {
            form: SigKind::Property,
            kind: *kind,
            generics: 0,
            parts,
        },
        rest,
    ))
}

/// What stands in a type by itself (II.23.2.14).
#[tactic(auto, unfolding(crate::specs::Grammar::front_in, crate::specs::Grammar::type_in))]
fn type_front<'a>(
    alloc: Global,
    blob: &'a [u8],
    counts: &Counts,
) -> Result<(Front, &'a [u8]), SigFault>
    ensures { Reads result (front_in (in_counts counts.now) sigs.TypeSpec blob.now) }
{
    let (part, rest) = elem(alloc, DEPTH, blob, counts)?;
    let Ok(parts) = added(Vec::new(alloc), part) else {
        return Err(SigFault::Memory);
    };
    Ok((
        Front {
            form: SigKind::TypeSpec,
            kind: 0,
            generics: 0,
            parts,
        },
        rest,
    ))
}

/// What stands in the arguments of a generic method (II.23.2.15).
#[tactic(auto, unfolding(crate::specs::Grammar::front_in, crate::specs::Grammar::byte_in))]
fn method_spec_front<'a>(
    alloc: Global,
    blob: &'a [u8],
    counts: &Counts,
) -> Result<(Front, &'a [u8]), SigFault>
    ensures { Reads result (front_in (in_counts counts.now) sigs.MethodSpec blob.now) }
{
    let [0x0a, rest @ ..] = blob else {
        return Err(SigFault::Grammar);
    };
    let (parts, rest) = counted_elems(alloc, rest, counts)?;
    Ok((
        Front {
            form: SigKind::MethodSpec,
            kind: 0x0a,
            generics: 0,
            parts,
        },
        rest,
    ))
}

/// What stands in a signature of this kind.
fn read_front<'a>(
    alloc: Global,
    kind: SigKind,
    blob: &'a [u8],
    counts: &Counts,
) -> Result<(Front, &'a [u8]), SigFault>
    ensures { Reads result (front_in (in_counts counts.now) kind blob.now) }
{
    match kind {
        SigKind::Method => method_front(alloc, blob, counts),
        SigKind::Field => field_front(alloc, blob, counts),
        SigKind::Locals => locals_front(alloc, blob, counts),
        SigKind::Property => property_front(alloc, blob, counts),
        SigKind::TypeSpec => type_front(alloc, blob, counts),
        SigKind::MethodSpec => method_spec_front(alloc, blob, counts),
    }
}

/// The signature of this kind with nothing behind it, as the function for its kind reads it.
#[tactic(auto, unfolding(crate::specs::Grammar::sig_in))]
pub fn read_sig(alloc: Global, kind: SigKind, blob: &[u8], counts: &Counts) -> Result<Sig, SigFault>
    ensures { Gives result (sig_in (in_counts counts.now) kind blob.now) }
{
    written_laws();
    let (front, rest) = read_front(alloc, kind, blob, counts)?;
    match rest {
        [] => Ok(Sig { front }),
        _ => Err(SigFault::Grammar),
    }
}

/// The signature of a method, of MethodDef, MemberRef or StandAloneSig (ECMA-335 II.23.2.1 to
/// II.23.2.3), with tokens of rows within these counts. `Grammar` where the blob isn't one,
/// `Memory` where there is none.
pub fn method_sig(alloc: Global, blob: &[u8], counts: &Counts) -> Result<Sig, SigFault>
    ensures { Gives result (sig_in (in_counts counts.now) sigs.Method blob.now) }
{
    read_sig(alloc, SigKind::Method, blob, counts)
}

/// The signature of a field (ECMA-335 II.23.2.4), as `method_sig` reads one.
pub fn field_sig(alloc: Global, blob: &[u8], counts: &Counts) -> Result<Sig, SigFault>
    ensures { Gives result (sig_in (in_counts counts.now) sigs.Field blob.now) }
{
    read_sig(alloc, SigKind::Field, blob, counts)
}

/// The signature of local variables (ECMA-335 II.23.2.6), as `method_sig` reads one.
pub fn locals_sig(alloc: Global, blob: &[u8], counts: &Counts) -> Result<Sig, SigFault>
    ensures { Gives result (sig_in (in_counts counts.now) sigs.Locals blob.now) }
{
    read_sig(alloc, SigKind::Locals, blob, counts)
}

/// The signature of a property (ECMA-335 II.23.2.5), as `method_sig` reads one.
pub fn property_sig(alloc: Global, blob: &[u8], counts: &Counts) -> Result<Sig, SigFault>
    ensures { Gives result (sig_in (in_counts counts.now) sigs.Property blob.now) }
{
    read_sig(alloc, SigKind::Property, blob, counts)
}

/// A type by itself (ECMA-335 II.23.2.14), as `method_sig` reads a signature.
pub fn type_spec(alloc: Global, blob: &[u8], counts: &Counts) -> Result<Sig, SigFault>
    ensures { Gives result (sig_in (in_counts counts.now) sigs.TypeSpec blob.now) }
{
    read_sig(alloc, SigKind::TypeSpec, blob, counts)
}

/// The arguments of a generic method (ECMA-335 II.23.2.15), as `method_sig` reads a signature.
pub fn method_spec(alloc: Global, blob: &[u8], counts: &Counts) -> Result<Sig, SigFault>
    ensures { Gives result (sig_in (in_counts counts.now) sigs.MethodSpec blob.now) }
{
    read_sig(alloc, SigKind::MethodSpec, blob, counts)
}
