//! Reading types and what holds them, at most so deep in one another (ECMA-335 II.23.2).
ghost use Rattle.std.specs.Prelude.{◌≡◌, ℕ, suc};
ghost use Rattle.enc_sigs.specs.Grammar.{elem_in, formed_in, wrapped_in, modified_in, array_in, instance_in, pointer_in, parts_in, params, marked_in, many, in_counts};
ghost use Rattle.enc_sigs.specs.Reads.{Reads, AreRead, behind};

use crate::elem::Elem;
use crate::held::{NIL, added, around, behind_sentinel, indexed, leaf, named, numerals, three};
use crate::kind::SigFault;
use crate::number::{calling, form_by, token};
use crate::type_form::{Numeral, TypeForm};
use enc_base::{Counts, Token, unsigned_front};
use std::alloc::Global;

/// A type at the front, where types stand in one another at most so deep.
#[cycle(reader)]
pub fn elem<'a>(
    alloc: Global,
    depth: u32,
    bytes: &'a [u8],
    counts: &Counts,
) -> Result<(Elem, &'a [u8]), SigFault>
    ensures { Reads result (elem_in (in_counts counts.now) depth bytes.now) }
{
    if depth == 0 {
        return Err(SigFault::Grammar);
    }
    opened(alloc, depth - 1, bytes, counts)
}

/// A type at the front, where those within it stand at most so deep.
#[cycle(reader)]
#[tactic(auto, unfolding(crate::specs::Grammar::elem_in))]
fn opened<'a>(
    alloc: Global,
    depth: u32,
    bytes: &'a [u8],
    counts: &Counts,
) -> Result<(Elem, &'a [u8]), SigFault>
    ensures { Reads result (elem_in (in_counts counts.now) (suc depth) bytes.now) }
{
    let [b, rest @ ..] = bytes else {
        return Err(SigFault::Grammar);
    };
    let Some(form) = form_by(*b) else {
        return Err(SigFault::Grammar);
    };
    formed(form, *b, alloc, depth, rest, counts)
}

/// What stands behind a type's first byte.
#[cycle(reader)]
#[tactic(auto, unfolding(crate::specs::Grammar::formed_in))]
fn formed<'a>(
    form: TypeForm,
    b: u8,
    alloc: Global,
    depth: u32,
    bytes: &'a [u8],
    counts: &Counts,
) -> Result<(Elem, &'a [u8]), SigFault>
    ensures { Reads result (formed_in (in_counts counts.now) (elem_in (in_counts counts.now) depth) form b bytes.now) }
{
    match form {
        TypeForm::Bare => Ok((leaf(alloc, b, NIL, 0), bytes)),
        TypeForm::Wrapped => wrapped(alloc, b, depth, bytes, counts),
        TypeForm::Named => named(alloc, b, bytes, counts),
        TypeForm::Modified => modified(alloc, b, depth, bytes, counts),
        TypeForm::Numbered => indexed(alloc, b, bytes),
        TypeForm::Array => array(alloc, b, depth, bytes, counts),
        TypeForm::Instance => instance(alloc, b, depth, bytes, counts),
        TypeForm::Pointer => pointer(alloc, b, depth, bytes, counts),
    }
}

/// A type within another, with no token.
#[cycle(reader)]
#[tactic(auto, unfolding(crate::specs::Grammar::wrapped_in))]
fn wrapped<'a>(
    alloc: Global,
    b: u8,
    depth: u32,
    bytes: &'a [u8],
    counts: &Counts,
) -> Result<(Elem, &'a [u8]), SigFault>
    ensures { Reads result (wrapped_in (elem_in (in_counts counts.now) depth) b bytes.now) }
{
    let (kid, rest) = elem(alloc, depth, bytes, counts)?;
    let Ok(whole) = around(alloc, b, NIL, kid) else {
        return Err(SigFault::Memory);
    };
    Ok((whole, rest))
}

/// A token and a type.
#[cycle(reader)]
#[tactic(auto, unfolding(crate::specs::Grammar::modified_in))]
fn modified<'a>(
    alloc: Global,
    b: u8,
    depth: u32,
    bytes: &'a [u8],
    counts: &Counts,
) -> Result<(Elem, &'a [u8]), SigFault>
    ensures { Reads result (modified_in (in_counts counts.now) (elem_in (in_counts counts.now) depth) b bytes.now) }
{
    let Some((token, rest)) = token(bytes, counts) else {
        return Err(SigFault::Grammar);
    };
    let (kid, rest) = elem(alloc, depth, rest, counts)?;
    let Ok(whole) = around(alloc, b, token, kid) else {
        return Err(SigFault::Memory);
    };
    Ok((whole, rest))
}

/// An array's type, rank, sizes and lower bounds.
#[cycle(reader)]
#[tactic(auto, unfolding(crate::specs::Grammar::array_in))]
fn array<'a>(
    alloc: Global,
    b: u8,
    depth: u32,
    bytes: &'a [u8],
    counts: &Counts,
) -> Result<(Elem, &'a [u8]), SigFault>
    ensures { Reads result (array_in (elem_in (in_counts counts.now) depth) b bytes.now) }
{
    let (kid, rest) = elem(alloc, depth, bytes, counts)?;
    let Some((rank, rest)) = unsigned_front(rest) else {
        return Err(SigFault::Grammar);
    };
    let (sizes, rest) = numerals(alloc, Numeral::Size, rest)?;
    let (bounds, rest) = numerals(alloc, Numeral::Bound, rest)?;
    let Ok(kids) = three(alloc, kid, sizes, bounds) else {
        return Err(SigFault::Memory);
    };
    Ok((
        Elem {
            element: b,
            token: NIL,
            number: rank,
            kids,
        },
        rest,
    ))
}

/// So many types one behind the other, put behind the kids.
#[cycle(reader)]
pub fn many_elems<'a>(
    kids: Vec<Elem>,
    count: u32,
    alloc: Global,
    depth: u32,
    bytes: &'a [u8],
    counts: &Counts,
) -> Result<(Vec<Elem>, &'a [u8]), SigFault>
    ensures { AreRead result (behind kids.items (many (elem_in (in_counts counts.now) depth) count bytes.now)) }
{
    let mut kids = kids;
    let mut rest = bytes;
    for i in 0..count {
        let (kid, behind) = elem(alloc, depth, rest, counts)?;
        let Ok(more) = added(kids, kid) else {
            return Err(SigFault::Memory);
        };
        kids = more;
        rest = behind;
    }
    Ok((kids, rest))
}

/// A generic instance: a class or a value type, and the arguments.
#[cycle(reader)]
#[tactic(auto, unfolding(crate::specs::Grammar::instance_in, // a generic instance:
crate::specs::Grammar::byte_in, // its first byte
crate::specs::Grammar::list_in // and its arguments
))]
fn instance<'a>(
    alloc: Global,
    b: u8,
    depth: u32,
    bytes: &'a [u8],
    counts: &Counts,
) -> Result<(Elem, &'a [u8]), SigFault>
    ensures { Reads result (instance_in (in_counts counts.now) (elem_in (in_counts counts.now) depth) b bytes.now) }
{
    let [class, rest @ ..] = bytes else {
        return Err(SigFault::Grammar);
    };
    if *class != 0x11 && *class != 0x12 {
        return Err(SigFault::Grammar);
    }
    let Some((token, rest)) = token(rest, counts) else {
        return Err(SigFault::Grammar);
    };
    let Some((count, rest)) = unsigned_front(rest) else {
        return Err(SigFault::Grammar);
    };
    let (kids, rest) = many_elems(Vec::new(alloc), count, alloc, depth, rest, counts)?;
    Ok((
        Elem {
            element: b,
            token,
            number: u32::from(*class),
            kids,
        },
        rest,
    ))
}

/// So many parameters, one of which may stand behind a sentinel, put behind the kids.
#[cycle(reader)]
fn parameters<'a>(
    kids: Vec<Elem>,
    count: u32,
    alloc: Global,
    depth: u32,
    bytes: &'a [u8],
    counts: &Counts,
) -> Result<(Vec<Elem>, &'a [u8]), SigFault>
    ensures { AreRead result (behind kids.items (params (elem_in (in_counts counts.now) depth) count bytes.now)) }
{
    let mut kids = kids;
    let mut rest = bytes;
    let mut left = count;
    while left > 0 {
        match behind_sentinel(rest) {
            Some(marked) => return sentinel(kids, left - 1, alloc, depth, marked, counts),
            None => {}
        }
        let (kid, behind) = elem(alloc, depth, rest, counts)?;
        let Ok(more) = added(kids, kid) else {
            return Err(SigFault::Memory);
        };
        kids = more;
        rest = behind;
        left -= 1;
    }
    Ok((kids, rest))
}

/// The parameter behind a sentinel, and so many more.
#[cycle(reader)]
#[tactic(auto, unfolding(crate::specs::Grammar::marked_in))]
fn sentinel<'a>(
    kids: Vec<Elem>,
    more: u32,
    alloc: Global,
    depth: u32,
    bytes: &'a [u8],
    counts: &Counts,
) -> Result<(Vec<Elem>, &'a [u8]), SigFault>
    ensures { AreRead result (behind kids.items (marked_in (elem_in (in_counts counts.now) depth) more bytes.now)) }
{
    let (kid, rest) = wrapped(alloc, 0x41, depth, bytes, counts)?;
    let Ok(kids) = added(kids, kid) else {
        return Err(SigFault::Memory);
    };
    many_elems(kids, more, alloc, depth, rest, counts)
}

/// The count of parameters, the return type and the parameters, put behind the kids.
#[cycle(reader)]
#[tactic(auto, unfolding(crate::specs::Grammar::parts_in))]
pub fn parts<'a>(
    kids: Vec<Elem>,
    alloc: Global,
    depth: u32,
    bytes: &'a [u8],
    counts: &Counts,
) -> Result<(Vec<Elem>, &'a [u8]), SigFault>
    ensures { AreRead result (behind kids.items (parts_in (elem_in (in_counts counts.now) depth) bytes.now)) }
{
    let Some((count, rest)) = unsigned_front(bytes) else {
        return Err(SigFault::Grammar);
    };
    let (kid, rest) = elem(alloc, depth, rest, counts)?;
    let Ok(kids) = added(kids, kid) else {
        return Err(SigFault::Memory);
    };
    parameters(kids, count, alloc, depth, rest, counts)
}

/// A pointer to a function.
#[cycle(reader)]
#[tactic(auto, unfolding(crate::specs::Grammar::pointer_in, crate::specs::Grammar::method_in))]
fn pointer<'a>(
    alloc: Global,
    b: u8,
    depth: u32,
    bytes: &'a [u8],
    counts: &Counts,
) -> Result<(Elem, &'a [u8]), SigFault>
    ensures { Reads result (pointer_in (elem_in (in_counts counts.now) depth) b bytes.now) }
{
    let Some(((first, generics), rest)) = calling(bytes) else {
        return Err(SigFault::Grammar);
    };
    let Ok(kids) = added(Vec::new(alloc), leaf(alloc, 0, NIL, generics)) else {
        return Err(SigFault::Memory);
    };
    let (kids, rest) = parts(kids, alloc, depth, rest, counts)?;
    Ok((
        Elem {
            element: b,
            token: NIL,
            number: u32::from(first),
            kids,
        },
        rest,
    ))
}
