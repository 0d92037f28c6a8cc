//! Whether a blob is a signature, without memory for what stands in it (ECMA-335 II.23.2).
ghost use Rattle.std.specs.Prelude.{◌≡◌, suc, option_map, is_some};
ghost use Rattle.enc_sigs.specs.Grammar.{elem_in, formed_in, modified_in, array_in, instance_in, pointer_in, parts_in, params, many, numbered_in, numeral_in, numerals_in, list_in, accessed_in, type_in, front_in, sig_in, is_coded, in_counts, test_of};
ghost use Rattle.enc_sigs.specs.Reads.{left_after, element_front};
ghost use Rattle.enc_sigs.specs.declared.kind.SigKind.TheVariants as sigs;

use crate::held::behind_sentinel;
use crate::kind::{DEPTH, SigKind};
use crate::number::{calling, form_by, numeral, tested_token};
use crate::row_test::RowTest;
use crate::type_form::{Numeral, TypeForm};
use enc_base::{Counts, unsigned_front};

/// What is behind so many sizes or lower bounds.
fn past_many_numerals(kind: Numeral, count: u32, bytes: &[u8]) -> Option<&[u8]>
    ensures { option_map (λ x. x.now) result ≡ left_after (many (numbered_in 0 (numeral_in kind)) count bytes.now) }
{
    let mut rest = bytes;
    for i in 0..count {
        let Some((_, behind)) = numeral(kind, rest) else {
            return None;
        };
        rest = behind;
    }
    Some(rest)
}

/// What is behind a count and so many sizes or lower bounds.
#[tactic(auto, unfolding(crate::specs::Grammar::numerals_in, crate::specs::Grammar::list_in))]
fn past_numerals(kind: Numeral, bytes: &[u8]) -> Option<&[u8]>
    ensures { option_map (λ x. x.now) result ≡ left_after (numerals_in kind bytes.now) }
{
    let (count, rest) = unsigned_front(bytes)?;
    past_many_numerals(kind, count, rest)
}

/// What is behind a type, where types stand in one another at most so deep.
#[cycle(judge)]
fn past_elem<'a>(depth: u32, bytes: &'a [u8], rows: &RowTest<'_>) -> Option<&'a [u8]>
    ensures { option_map (λ x. x.now) result ≡ left_after (elem_in (test_of rows.now) depth bytes.now) }
{
    if depth == 0 {
        return None;
    }
    past_opened(depth - 1, bytes, rows)
}

/// What is behind a type, where those within it stand at most so deep.
#[cycle(judge)]
#[tactic(auto, unfolding(crate::specs::Grammar::elem_in))]
fn past_opened<'a>(depth: u32, bytes: &'a [u8], rows: &RowTest<'_>) -> Option<&'a [u8]>
    ensures { option_map (λ x. x.now) result ≡ left_after (elem_in (test_of rows.now) (suc depth) bytes.now) }
{
    let [b, rest @ ..] = bytes else {
        return None;
    };
    let form = form_by(*b)?;
    past_formed(form, *b, depth, rest, rows)
}

/// What is behind that which stands behind a type's first byte.
#[cycle(judge)]
#[tactic(auto, unfolding(crate::specs::Grammar::formed_in, // by its form
crate::specs::Grammar::wrapped_in, // a type within
crate::specs::Grammar::named_in, // a token
crate::specs::Grammar::numbered_in // or a number
))]
fn past_formed<'a>(
    form: TypeForm,
    b: u8,
    depth: u32,
    bytes: &'a [u8],
    rows: &RowTest<'_>,
) -> Option<&'a [u8]>
    ensures { option_map (λ x. x.now) result
        ≡ left_after (formed_in (test_of rows.now) (elem_in (test_of rows.now) depth) form b bytes.now) }
{
    match form {
        TypeForm::Bare => Some(bytes),
        TypeForm::Wrapped => past_elem(depth, bytes, rows),
        TypeForm::Named => Some(tested_token(bytes, rows)?.1),
        TypeForm::Modified => past_modified(b, depth, bytes, rows),
        TypeForm::Numbered => Some(unsigned_front(bytes)?.1),
        TypeForm::Array => past_array(b, depth, bytes, rows),
        TypeForm::Instance => past_instance(b, depth, bytes, rows),
        TypeForm::Pointer => past_pointer(b, depth, bytes, rows),
    }
}

/// What is behind a token and a type.
#[cycle(judge)]
#[tactic(auto, unfolding(crate::specs::Grammar::modified_in))]
fn past_modified<'a>(b: u8, depth: u32, bytes: &'a [u8], rows: &RowTest<'_>) -> Option<&'a [u8]>
    ensures { option_map (λ x. x.now) result
        ≡ left_after (modified_in (test_of rows.now) (elem_in (test_of rows.now) depth) b bytes.now) }
{
    let _ = b;
    let (_, rest) = tested_token(bytes, rows)?;
    past_elem(depth, rest, rows)
}

/// What is behind an array's type, rank, sizes and lower bounds.
#[cycle(judge)]
#[tactic(auto, unfolding(crate::specs::Grammar::array_in))]
fn past_array<'a>(b: u8, depth: u32, bytes: &'a [u8], rows: &RowTest<'_>) -> Option<&'a [u8]>
    ensures { option_map (λ x. x.now) result ≡ left_after (array_in (elem_in (test_of rows.now) depth) b bytes.now) }
{
    let _ = b;
    let rest = past_elem(depth, bytes, rows)?;
    let (_, rest) = unsigned_front(rest)?;
    let rest = past_numerals(Numeral::Size, rest)?;
    past_numerals(Numeral::Bound, rest)
}

/// What is behind so many types.
#[cycle(judge)]
fn past_many<'a>(count: u32, depth: u32, bytes: &'a [u8], rows: &RowTest<'_>) -> Option<&'a [u8]>
    ensures { option_map (λ x. x.now) result ≡ left_after (many (elem_in (test_of rows.now) depth) count bytes.now) }
{
    let mut rest = bytes;
    for i in 0..count {
        let Some(behind) = past_elem(depth, rest, rows) else {
            return None;
        };
        rest = behind;
    }
    Some(rest)
}

/// What is behind a generic instance's class and arguments.
#[cycle(judge)]
#[tactic(auto, unfolding(crate::specs::Grammar::instance_in, // a generic instance:
crate::specs::Grammar::byte_in, // its first byte
crate::specs::Grammar::list_in // and its arguments
))]
fn past_instance<'a>(b: u8, depth: u32, bytes: &'a [u8], rows: &RowTest<'_>) -> Option<&'a [u8]>
    ensures { option_map (λ x. x.now) result
        ≡ left_after (instance_in (test_of rows.now) (elem_in (test_of rows.now) depth) b bytes.now) }
{
    let _ = b;
    let [class, rest @ ..] = bytes else {
        return None;
    };
    if *class != 0x11 && *class != 0x12 {
        return None;
    }
    let (_, rest) = tested_token(rest, rows)?;
    let (count, rest) = unsigned_front(rest)?;
    past_many(count, depth, rest, rows)
}

/// What is behind so many parameters, one of which may stand behind a sentinel.
#[cycle(judge)]
fn past_parameters<'a>(
    count: u32,
    depth: u32,
    bytes: &'a [u8],
    rows: &RowTest<'_>,
) -> Option<&'a [u8]>
    ensures { option_map (λ x. x.now) result ≡ left_after (params (elem_in (test_of rows.now) depth) count bytes.now) }
{
    let mut rest = bytes;
    let mut left = count;
    while left > 0 {
        match behind_sentinel(rest) {
            Some(marked) => return past_many(left, depth, marked, rows),
            None => {}
        }
        let Some(behind) = past_elem(depth, rest, rows) else {
            return None;
        };
        rest = behind;
        left -= 1;
    }
    Some(rest)
}

/// What is behind a count of parameters, the return type and the parameters.
#[cycle(judge)]
#[tactic(auto, unfolding(crate::specs::Grammar::parts_in))]
fn past_parts<'a>(depth: u32, bytes: &'a [u8], rows: &RowTest<'_>) -> Option<&'a [u8]>
    ensures { option_map (λ x. x.now) result ≡ left_after (parts_in (elem_in (test_of rows.now) depth) bytes.now) }
{
    let (count, rest) = unsigned_front(bytes)?;
    let rest = past_elem(depth, rest, rows)?;
    past_parameters(count, depth, rest, rows)
}

/// What is behind a pointer to a function.
#[cycle(judge)]
#[tactic(auto, unfolding(crate::specs::Grammar::pointer_in, crate::specs::Grammar::method_in))]
fn past_pointer<'a>(b: u8, depth: u32, bytes: &'a [u8], rows: &RowTest<'_>) -> Option<&'a [u8]>
    ensures { option_map (λ x. x.now) result ≡ left_after (pointer_in (elem_in (test_of rows.now) depth) b bytes.now) }
{
    let _ = b;
    let (_, rest) = calling(bytes)?;
    past_parts(depth, rest, rows)
}

/// What is behind a count and so many types.
#[tactic(auto, unfolding(crate::specs::Grammar::list_in, crate::specs::Grammar::type_in))]
fn past_list<'a>(bytes: &'a [u8], rows: &RowTest<'_>) -> Option<&'a [u8]>
    ensures { option_map (λ x. x.now) result ≡ left_after (list_in (type_in (test_of rows.now)) bytes.now) }
{
    let (count, rest) = unsigned_front(bytes)?;
    past_many(count, DEPTH, rest, rows)
}

/// What is behind a count, a type and so many types more.
#[tactic(auto, unfolding(crate::specs::Grammar::accessed_in, crate::specs::Grammar::type_in))]
fn past_accessed<'a>(bytes: &'a [u8], rows: &RowTest<'_>) -> Option<&'a [u8]>
    ensures { option_map (λ x. x.now) result ≡ left_after (accessed_in (type_in (test_of rows.now)) bytes.now) }
{
    let (count, rest) = unsigned_front(bytes)?;
    let rest = past_elem(DEPTH, rest, rows)?;
    past_many(count, DEPTH, rest, rows)
}

/// What is behind the signature of a method.
#[tactic(auto, unfolding(crate::specs::Grammar::front_in, // a signature of each kind
crate::specs::Grammar::method_in, // that of a method
crate::specs::Grammar::type_in // the type in it
))]
fn past_method<'a>(blob: &'a [u8], rows: &RowTest<'_>) -> Option<&'a [u8]>
    ensures { option_map (λ x. x.now) result ≡ left_after (front_in (test_of rows.now) sigs.Method blob.now) }
{
    let (_, rest) = calling(blob)?;
    past_parts(DEPTH, rest, rows)
}

/// What is behind that of a field.
#[tactic(auto, unfolding(crate::specs::Grammar::front_in, // a signature of each kind
crate::specs::Grammar::byte_in, // its first byte
crate::specs::Grammar::type_in // the type in it
))]
fn past_field<'a>(blob: &'a [u8], rows: &RowTest<'_>) -> Option<&'a [u8]>
    ensures { option_map (λ x. x.now) result ≡ left_after (front_in (test_of rows.now) sigs.Field blob.now) }
{
    let [0x06, rest @ ..] = blob else {
        return None;
    };
    past_elem(DEPTH, rest, rows)
}

/// What is behind that of local variables.
#[tactic(auto, unfolding(crate::specs::Grammar::front_in, crate::specs::Grammar::byte_in))]
fn past_locals<'a>(blob: &'a [u8], rows: &RowTest<'_>) -> Option<&'a [u8]>
    ensures { option_map (λ x. x.now) result ≡ left_after (front_in (test_of rows.now) sigs.Locals blob.now) }
{
    let [0x07, rest @ ..] = blob else {
        return None;
    };
    past_list(rest, rows)
}

/// What is behind that of a property.
#[tactic(auto, unfolding(crate::specs::Grammar::front_in, crate::specs::Grammar::byte_in))]
fn past_property<'a>(blob: &'a [u8], rows: &RowTest<'_>) -> Option<&'a [u8]>
    ensures { option_map (λ x. x.now) result ≡ left_after (front_in (test_of rows.now) sigs.Property blob.now) }
{
    let [kind, rest @ ..] = blob else {
        return None;
    };
    if *kind != 0x08 && *kind != 0x28 {
        return None;
    }
    past_accessed(rest, rows)
}

/// What is behind a type by itself.
#[tactic(auto, unfolding(crate::specs::Grammar::front_in, crate::specs::Grammar::type_in))]
fn past_type<'a>(blob: &'a [u8], rows: &RowTest<'_>) -> Option<&'a [u8]>
    ensures { option_map (λ x. x.now) result ≡ left_after (front_in (test_of rows.now) sigs.TypeSpec blob.now) }
{
    past_elem(DEPTH, blob, rows)
}

/// What is behind the arguments of a generic method.
#[tactic(auto, unfolding(crate::specs::Grammar::front_in, crate::specs::Grammar::byte_in))]
fn past_method_spec<'a>(blob: &'a [u8], rows: &RowTest<'_>) -> Option<&'a [u8]>
    ensures { option_map (λ x. x.now) result ≡ left_after (front_in (test_of rows.now) sigs.MethodSpec blob.now) }
{
    let [0x0a, rest @ ..] = blob else {
        return None;
    };
    past_list(rest, rows)
}

/// What is behind a signature of this kind.
fn past_front<'a>(kind: SigKind, blob: &'a [u8], rows: &RowTest<'_>) -> Option<&'a [u8]>
    ensures { option_map (λ x. x.now) result ≡ left_after (front_in (test_of rows.now) kind blob.now) }
{
    match kind {
        SigKind::Method => past_method(blob, rows),
        SigKind::Field => past_field(blob, rows),
        SigKind::Locals => past_locals(blob, rows),
        SigKind::Property => past_property(blob, rows),
        SigKind::TypeSpec => past_type(blob, rows),
        SigKind::MethodSpec => past_method_spec(blob, rows),
    }
}

/// Whether the blob is a signature of this kind with nothing behind it and with tokens of rows within
/// these counts: exactly where `read_sig` reads one. It takes no memory.
#[tactic(auto, unfolding(crate::specs::Grammar::sig_in))]
pub fn is_sig(kind: SigKind, blob: &[u8], counts: &Counts) -> bool
    ensures { result ≡ is_some (sig_in (in_counts counts.now) kind blob.now) }
{
    match past_front(kind, blob, &RowTest::Within(counts)) {
        Some([]) => true,
        _ => false,
    }
}

/// The first byte of the type at the front, and what is behind the type; the rows of its tokens aside
/// (ECMA-335 II.23.2.12). It takes no memory.
#[tactic(auto, unfolding(crate::specs::Grammar::type_in))]
pub fn type_front(bytes: &[u8]) -> Option<(u8, &[u8])>
    ensures { option_map (λ x. (x.0, x.1.now)) result ≡ element_front (type_in is_coded bytes.now) }
{
    let [b, ..] = bytes else {
        return None;
    };
    let rest = past_elem(DEPTH, bytes, &RowTest::Any)?;
    Some((*b, rest))
}
