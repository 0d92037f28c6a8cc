//! Writing signatures in their shortest spelling, each token moved by a function (ECMA-335 II.23.2).
ghost use Rattle.std.specs.Prelude.{◌≡◌, ℕ, ◌++◌, ◌∷◌, [], ◌%◌, ◌-◌, length, slice_get, IfOk, is_ok, true, if◌then◌else◌};
ghost use Rattle.enc_sigs.specs.Tree.{forest_of, trees};
ghost use Rattle.enc_sigs.specs.Spelling.{number_bytes, signed_bytes, token_bytes, numeral_bytes, each_numeral, numerals_bytes, joined, counted_bytes, generics_bytes, parts_bytes, array_bytes, numerals_of, front_of, pointer_bytes, formed_bytes, spellings, tree_bytes, front_bytes, sig_bytes, IsSpelled};
ghost use Rattle.enc_base.specs.Numbers.{has_flag};
ghost use Rattle.enc_sigs.specs.Moved.{form_has_token, has_token, forest_moved, tree_moved, sig_moved, all_tokens, stays_in_table, GivesTokens};

use crate::elem::Elem;
use crate::kind::SigKind;
use crate::number::form_by;
use crate::sig::{Front, Sig};
use crate::type_form::{Numeral, TypeForm};
use enc_base::tables::{TYPE_DEF, TYPE_REF};
use enc_base::{Token, push_signed, push_unsigned, written_laws};
use std::alloc::{AllocError, Global};

/// Appends a number, where it can be spelled.
#[tactic(auto, unfolding(crate::specs::Spelling::number_bytes))]
fn write_number(value: usize, out: &mut Vec<u8>) -> Result<(), AllocError>
    ensures { IfOk result (λ _. out.new.items ≡ out.old.items ++ number_bytes value) }
{
    if value < 0x2000_0000 {
        return push_unsigned(value as u32, out);
    }
    Ok(())
}

/// Appends a signed number by its 32 bits, where it can be spelled.
#[tactic(auto, unfolding(crate::specs::Spelling::signed_bytes))]
fn write_signed(bits: u32, out: &mut Vec<u8>) -> Result<(), AllocError>
    ensures { IfOk result (λ _. out.new.items ≡ out.old.items ++ signed_bytes bits) }
{
    if bits < 0x1000_0000 || 0xf000_0000 <= bits {
        return push_signed(bits.cast_signed(), out);
    }
    Ok(())
}

/// Appends a size or a lower bound.
fn write_numeral(kind: Numeral, value: u32, out: &mut Vec<u8>) -> Result<(), AllocError>
    ensures { IfOk result (λ _. out.new.items ≡ out.old.items ++ numeral_bytes kind value) }
{
    match kind {
        Numeral::Size => write_number(value as usize, out),
        Numeral::Bound => write_signed(value, out),
    }
}

/// Appends a token's number.
#[tactic(auto, unfolding(crate::specs::Spelling::token_bytes))]
fn write_token(token: Token, out: &mut Vec<u8>) -> Result<(), AllocError>
    ensures { IfOk result (λ _. out.new.items ≡ out.old.items ++ token_bytes token) }
{
    let row = token.row as usize * 4;
    match token.table {
        TYPE_DEF => write_number(row, out),
        TYPE_REF => write_number(row + 1, out),
        _ => write_number(row + 2, out),
    }
}

/// Appends a byte.
fn write_byte(byte: u8, out: &mut Vec<u8>) -> Result<(), AllocError>
    ensures { IfOk result (λ _. out.new.items ≡ out.old.items ++ byte ∷ []) }
{
    out.extend_from_slice(&[byte])
}

/// Appends the numbers of these.
fn write_each(kind: Numeral, kids: &[Elem], out: &mut Vec<u8>) -> Result<(), AllocError>
    ensures { IfOk result (λ _. out.new.items ≡ out.old.items ++ each_numeral kind kids.now) }
{
    let mut rest = kids;
    while let [kid, more @ ..] = rest {
        write_numeral(kind, kid.number, out)?;
        rest = more;
    }
    Ok(())
}

/// Appends a count and so many sizes or lower bounds.
#[tactic(auto, unfolding(crate::specs::Spelling::numerals_bytes))]
fn write_numerals(kind: Numeral, elem: &Elem, out: &mut Vec<u8>) -> Result<(), AllocError>
    ensures { IfOk result (λ _. out.new.items ≡ out.old.items ++ numerals_bytes kind elem.now) }
{
    let kids = elem.kids();
    write_number(kids.len(), out)?;
    write_each(kind, kids, out)
}

/// Appends the sizes or the lower bounds at this place, where any are.
fn write_numerals_at(
    kind: Numeral,
    kids: &[Elem],
    i: usize,
    out: &mut Vec<u8>,
) -> Result<(), AllocError>
    ensures { IfOk result (λ _. out.new.items ≡ out.old.items ++ numerals_of kind (slice_get kids.now i)) }
{
    match kids.get(i) {
        Some(elem) => write_numerals(kind, elem, out),
        None => Ok(()),
    }
}

/// Appends the count of generic parameters, where the first byte says that there are any.
#[tactic(auto, unfolding(crate::specs::Spelling::generics_bytes))]
fn write_generics(calling: u32, generics: u32, out: &mut Vec<u8>) -> Result<(), AllocError>
    ensures { IfOk result (λ _. out.new.items ≡ out.old.items ++ generics_bytes calling generics) }
{
    if calling / 0x10 % 2 == 1 {
        return write_number(generics as usize, out);
    }
    Ok(())
}

/// Appends how many types these are.
fn write_count(kids: &[Elem], out: &mut Vec<u8>) -> Result<(), AllocError>
    ensures { IfOk result (λ _. out.new.items
        ≡ out.old.items ++ number_bytes (length (spellings (forest_of kids.now)))) }
{
    write_number(kids.len(), out)
}

/// Appends how many types these are without the first.
fn write_count_behind(kids: &[Elem], out: &mut Vec<u8>) -> Result<(), AllocError>
    ensures { IfOk result (λ _. out.new.items
        ≡ out.old.items ++ number_bytes (length (spellings (forest_of kids.now)) - 1)) }
{
    write_number(kids.len().saturating_sub(1), out)
}

/// Appends a token, moved.
fn write_moved_token<F: Fn(Token) -> Token>(
    token: Token,
    moved: &F,
    out: &mut Vec<u8>,
) -> Result<(), AllocError>
    requires { F.IsAlwaysCallable moved.now }
    ensures { (f : Token → Token) → GivesTokens (F.post moved.now) f
        → IfOk result (λ _. out.new.items ≡ out.old.items ++ token_bytes (f token)) }
{
    write_token(moved(token), out)
}

/// Appends a type, its tokens moved.
#[cycle(writer)]
#[tactic(auto, unfolding(crate::specs::Spelling::tree_bytes, crate::specs::Moved::has_token))]
fn write_elem<F: Fn(Token) -> Token>(
    elem: &Elem,
    moved: &F,
    out: &mut Vec<u8>,
) -> Result<(), AllocError>
    requires { F.IsAlwaysCallable moved.now }
    ensures { (f : Token → Token) → GivesTokens (F.post moved.now) f
        → IfOk result (λ _. out.new.items ≡ out.old.items ++ tree_bytes (tree_moved f elem.now)) }
{
    write_byte(elem.element, out)?;
    write_within(form_by(elem.element), elem, moved, out)
}

/// Appends what stands behind a type's first byte.
#[cycle(writer)]
#[tactic(auto, unfolding(crate::specs::Spelling::formed_bytes))]
fn write_within<F: Fn(Token) -> Token>(
    form: Option<TypeForm>,
    elem: &Elem,
    moved: &F,
    out: &mut Vec<u8>,
) -> Result<(), AllocError>
    requires { F.IsAlwaysCallable moved.now }
    ensures { (f : Token → Token) → GivesTokens (F.post moved.now) f → IfOk result
        (λ _. out.new.items ≡ out.old.items ++ formed_bytes form (if form_has_token form then f elem.now.token
        else elem.now.token) elem.now.number (trees (forest_moved f elem.now.kids))
        (spellings (forest_moved f elem.now.kids))) }
{
    let kids = elem.kids();
    let Some(form) = form else {
        return write_elems(kids, moved, out);
    };
    match form {
        TypeForm::Bare => Ok(()),
        TypeForm::Wrapped => write_elems(kids, moved, out),
        TypeForm::Named => write_moved_token(elem.token, moved, out),
        TypeForm::Modified => {
            write_moved_token(elem.token, moved, out)?;
            write_elems(kids, moved, out)
        }
        TypeForm::Numbered => write_number(elem.number as usize, out),
        TypeForm::Array => write_array(elem.number, kids, moved, out),
        TypeForm::Instance => write_instance(elem.number, elem.token, kids, moved, out),
        TypeForm::Pointer => write_pointer(elem.number, kids, moved, out),
    }
}

/// Appends these types.
#[cycle(writer)]
#[tactic(auto, unfolding(crate::specs::Spelling::spellings, // the types within
crate::specs::Spelling::tree_bytes, // each as its bytes
crate::specs::Moved::forest_moved // with their tokens moved
))]
fn write_elems<F: Fn(Token) -> Token>(
    kids: &[Elem],
    moved: &F,
    out: &mut Vec<u8>,
) -> Result<(), AllocError>
    requires { F.IsAlwaysCallable moved.now }
    ensures { (f : Token → Token) → GivesTokens (F.post moved.now) f
        → IfOk result (λ _. out.new.items ≡ out.old.items ++ joined (spellings (forest_moved f (forest_of kids.now)))) }
{
    let mut rest = kids;
    while let [kid, more @ ..] = rest {
        write_elem(kid, moved, out)?;
        rest = more;
    }
    Ok(())
}

/// Appends the first of these types.
#[cycle(writer)]
#[tactic(auto, unfolding(crate::specs::Spelling::spellings, // the types within
crate::specs::Spelling::tree_bytes, // each as its bytes
crate::specs::Moved::forest_moved // with their tokens moved
))]
fn write_first<F: Fn(Token) -> Token>(
    kids: &[Elem],
    moved: &F,
    out: &mut Vec<u8>,
) -> Result<(), AllocError>
    requires { F.IsAlwaysCallable moved.now }
    ensures { (f : Token → Token) → GivesTokens (F.post moved.now) f →
        IfOk result (λ _. out.new.items ≡ out.old.items ++ front_of (spellings (forest_moved f (forest_of kids.now)))) }
{
    match kids {
        [kid, ..] => write_elem(kid, moved, out),
        [] => Ok(()),
    }
}

/// Appends an array's type, rank, sizes and lower bounds.
#[cycle(writer)]
#[tactic(auto, unfolding(crate::specs::Spelling::array_bytes))]
fn write_array<F: Fn(Token) -> Token>(
    rank: u32,
    kids: &[Elem],
    moved: &F,
    out: &mut Vec<u8>,
) -> Result<(), AllocError>
    requires { F.IsAlwaysCallable moved.now }
    ensures { (f : Token → Token) → GivesTokens (F.post moved.now) f → IfOk result
        (λ _. out.new.items ≡ out.old.items ++ array_bytes rank (trees (forest_moved f (forest_of kids.now)))
        (spellings (forest_moved f (forest_of kids.now)))) }
{
    write_first(kids, moved, out)?;
    write_number(rank as usize, out)?;
    write_numerals_at(Numeral::Size, kids, 1, out)?;
    write_numerals_at(Numeral::Bound, kids, 2, out)
}

/// Appends a count and so many types.
#[cycle(writer)]
#[tactic(auto, unfolding(crate::specs::Spelling::counted_bytes))]
fn write_counted<F: Fn(Token) -> Token>(
    kids: &[Elem],
    moved: &F,
    out: &mut Vec<u8>,
) -> Result<(), AllocError>
    requires { F.IsAlwaysCallable moved.now }
    ensures { (f : Token → Token) → GivesTokens (F.post moved.now) f → IfOk result
        (λ _. out.new.items ≡ out.old.items ++ counted_bytes (spellings (forest_moved f (forest_of kids.now)))) }
{
    write_count(kids, out)?;
    write_elems(kids, moved, out)
}

/// Appends what stands behind a generic instance's first byte.
#[cycle(writer)]
fn write_instance<F: Fn(Token) -> Token>(
    class: u32,
    token: Token,
    kids: &[Elem],
    moved: &F,
    out: &mut Vec<u8>,
) -> Result<(), AllocError>
    requires { F.IsAlwaysCallable moved.now }
    ensures { (f : Token → Token) → GivesTokens (F.post moved.now) f → IfOk result
        (λ _. out.new.items ≡ out.old.items ++ (class % 0x100)
        ∷ (token_bytes (f token) ++ counted_bytes (spellings (forest_moved f (forest_of kids.now))))) }
{
    write_byte((class % 0x100) as u8, out)?;
    write_moved_token(token, moved, out)?;
    write_counted(kids, moved, out)
}

/// Appends the count of parameters, the return type or the type, and the parameters.
#[cycle(writer)]
#[tactic(auto, unfolding(crate::specs::Spelling::parts_bytes))]
fn write_parts<F: Fn(Token) -> Token>(
    kids: &[Elem],
    moved: &F,
    out: &mut Vec<u8>,
) -> Result<(), AllocError>
    requires { F.IsAlwaysCallable moved.now }
    ensures { (f : Token → Token) → GivesTokens (F.post moved.now) f → IfOk result
        (λ _. out.new.items ≡ out.old.items ++ parts_bytes (spellings (forest_moved f (forest_of kids.now)))) }
{
    write_count_behind(kids, out)?;
    write_elems(kids, moved, out)
}

/// Appends the signature of a function pointer.
#[cycle(writer)]
#[tactic(auto, unfolding(crate::specs::Spelling::pointer_bytes, // a pointer to a function
crate::specs::Spelling::spellings, // the types within
crate::specs::Moved::forest_moved // with their tokens moved
))]
fn write_pointer<F: Fn(Token) -> Token>(
    calling: u32,
    kids: &[Elem],
    moved: &F,
    out: &mut Vec<u8>,
) -> Result<(), AllocError>
    requires { F.IsAlwaysCallable moved.now }
    ensures { (f : Token → Token) → GivesTokens (F.post moved.now) f → IfOk result
        (λ _. out.new.items ≡ out.old.items ++ pointer_bytes calling (trees (forest_moved f (forest_of kids.now)))
        (spellings (forest_moved f (forest_of kids.now)))) }
{
    let [generics, parts @ ..] = kids else {
        return Ok(());
    };
    write_byte((calling % 0x100) as u8, out)?;
    write_generics(calling, generics.number, out)?;
    write_parts(parts, moved, out)
}

/// Appends the parts of a signature of this kind.
#[tactic(auto, unfolding(crate::specs::Spelling::front_bytes))]
fn write_front<F: Fn(Token) -> Token>(
    front: &Front,
    moved: &F,
    out: &mut Vec<u8>,
) -> Result<(), AllocError>
    requires { F.IsAlwaysCallable moved.now }
    ensures { (f : Token → Token) → GivesTokens (F.post moved.now) f → IfOk result
        (λ _. out.new.items ≡ out.old.items ++ front_bytes front.now.form front.now.kind front.now.generics
        (spellings (forest_moved f (forest_of front.now.parts)))) }
{
    let parts = front.parts.as_slice();
    match front.form {
        SigKind::TypeSpec => write_elems(parts, moved, out),
        SigKind::Method => {
            write_byte(front.kind, out)?;
            write_generics(u32::from(front.kind), front.generics, out)?;
            write_parts(parts, moved, out)
        }
        SigKind::Field => {
            write_byte(front.kind, out)?;
            write_elems(parts, moved, out)
        }
        SigKind::Property => {
            write_byte(front.kind, out)?;
            write_parts(parts, moved, out)
        }
        SigKind::Locals => {
            write_byte(front.kind, out)?;
            write_counted(parts, moved, out)
        }
        SigKind::MethodSpec => {
            write_byte(front.kind, out)?;
            write_counted(parts, moved, out)
        }
    }
}

/// Appends the shortest spelling of the signature with each of its tokens moved, or nothing.
#[tactic(auto, unfolding(crate::specs::Spelling::sig_bytes))]
fn write_whole<F: Fn(Token) -> Token>(
    alloc: Global,
    front: &Front,
    moved: &F,
    out: &mut Vec<u8>,
) -> Result<(), AllocError>
    requires { F.IsAlwaysCallable moved.now }
    ensures { (f : Token → Token) → GivesTokens (F.post moved.now) f
        → out.new.items ≡ (if is_ok result then out.old.items ++ sig_bytes (sig_moved f front.now) else out.old.items) }
{
    let mut bytes = Vec::new(alloc);
    write_front(front, moved, &mut bytes)?;
    out.extend_from_slice(bytes.as_slice())
}

/// Appends the shortest spelling of the signature with each of its tokens moved (ECMA-335 II.23.2).
/// Without memory nothing is appended. Where each token stays in its table, in a row from 1 to
/// 2^24 - 1, what is appended is read as the signature with its tokens moved, the range of these
/// aside; `moved_laws` says with which counts.
pub fn write_moved<F: Fn(Token) -> Token>(
    alloc: Global,
    sig: &Sig,
    moved: F,
    out: &mut Vec<u8>,
) -> Result<(), AllocError>
    requires callable { F.IsAlwaysCallable moved }
    ensures written { (f : Token → Token) → GivesTokens (F.post moved) f
        → out.new.items ≡ (if is_ok result then out.old.items ++ sig_bytes (sig_moved f sig.now) else out.old.items) }
    ensures back { (f : Token → Token) → GivesTokens (F.post moved) f
        → all_tokens (stays_in_table f) (forest_of sig.now.parts) ≡ true → IsSpelled (sig_moved f sig.now) }
{
    written_laws();
    write_whole(alloc, &sig.front, &moved, out)
}

/// Appends the signature's shortest spelling (ECMA-335 II.23.2). Without memory nothing is
/// appended. What is appended is read as the same signature, the range of its tokens aside, and with
/// any counts with which it was read (`signature_laws`).
pub fn write_sig(alloc: Global, sig: &Sig, out: &mut Vec<u8>) -> Result<(), AllocError>
    ensures written { out.new.items ≡ (if is_ok result then out.old.items ++ sig_bytes sig.now else out.old.items) }
    ensures back { IsSpelled sig.now }
{
    write_whole(alloc, &sig.front, &|token| token, out)
}
