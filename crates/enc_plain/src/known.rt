//! Likeness, where what was once found alike is remembered.
ghost use Rattle.std.specs.Prelude.{◌≡◌, ℕ, List, Option, true, bytes_eq};
ghost use Rattle.enc_plain.specs.Alike.{alike_in_table, signatures_alike, tokens_alike};
ghost use Rattle.enc_plain.specs.Known.{AreKnownAlike, AreKnownSpecs};
ghost use Rattle.enc_base.specs.Tables.{type_spec};
ghost use Rattle.enc_plain.specs.Namesakes.{AreNamesakes};
ghost use Rattle.enc_plain.specs.Pairs.{AreAlikePairs};
ghost use Rattle.enc_plain.specs.Rows.{Rows, AreStoredAt, bytes_at};
ghost use Rattle.enc_plain.specs.Signatures.{kind_in_table};
ghost use Rattle.enc_sigs.specs.Agree.{sigs_agree};

use crate::cells::CellView;
use crate::likeness::{are_rows, refs_alike, refs_alike_known, spec_of, tokens_alike};
use crate::namesakes::Namesakes;
use crate::pairs::Pairs;
use crate::places::Places;
use crate::signature::kind_in_table;
use enc_base::Token;
use enc_base::tables::{TYPE_REF, TYPE_SPEC};
use enc_schema::columns::TYPE_SPEC_SIGNATURE;
use enc_sigs::sigs_agree;
use std::alloc::Global;
use std::cell::RefCell;

/// What is known of likeness among the rows of one view. Whoever asks of many references and
/// signatures asks here: the names of a TypeRef are compared once, through however many scopes they
/// are come by, a pair of TypeRefs is judged once, however many signatures of a table name it, and
/// two blobs are compared once, however many rows have them.
#[derive(Drop)]
pub struct KnownAlike {
    alloc: Global,
    names: Namesakes,
    specs: Specs,
    pairs: Pairs,
    signatures: Places,
    equal: Places,
}

/// The places of signatures of TypeSpecs that were once found alike.
#[derive(Drop)]
pub struct Specs {
    alloc: Global,
    places: Places,
}

/// The place of the signature of a TypeSpec.
#[tactic(auto, unfolding(enc_schema::specs::Schema::columns_in))]
pub(crate) fn spec_place<R: CellView>(rows: &R, token: Token) -> Option<u64>
    requires { token.table ≡ type_spec }
    ensures { AreStoredAt (R.stored rows.now) result (bytes_at (R.rows rows.now) token 0) }
{
    rows.blob_place(token, TYPE_SPEC_SIGNATURE)
}

/// Tokens are alike in the signatures of a table.
fn alike_in_table<R: CellView>(rows: &R, table: u8, a: Token, b: Token) -> bool
    ensures { result ≡ alike_in_table (R.rows rows.now) table a b }
{
    if table == TYPE_SPEC {
        return refs_alike(rows, 99, a, b);
    }
    tokens_alike(rows, a, b)
}

/// Judges a pair of tokens in signatures of TypeSpecs that isn't known, and remembers it where both
/// are TypeRefs and alike. False where both are TypeRefs and not alike.
fn judge_inner<R: CellView>(
    rows: &R,
    names: &mut Namesakes,
    known: &mut Pairs,
    a: Token,
    b: Token,
) -> bool
    requires names { AreNamesakes (R.rows rows.now) names.old }
    requires pairs { AreAlikePairs (R.rows rows.now) known.old }
    requires table { known.old.table ≡ type_spec }
    ensures names { AreNamesakes (R.rows rows.now) names.new }
    ensures pairs { AreAlikePairs (R.rows rows.now) known.new }
    ensures table { known.new.table ≡ type_spec }
{
    if a.table != TYPE_REF || b.table != TYPE_REF || known.has(a, b) {
        return true;
    }
    if refs_alike_known(rows, names, 99, a, b) {
        known.add(a, b);
        return true;
    }
    false
}

/// Judges pairs of tokens in signatures of TypeSpecs, up to the first that isn't alike.
fn judge_all_inner<R: CellView>(
    rows: &R,
    names: &mut Namesakes,
    known: &mut Pairs,
    pairs: &[(Token, Token)],
)
    requires names { AreNamesakes (R.rows rows.now) names.old }
    requires pairs { AreAlikePairs (R.rows rows.now) known.old }
    requires table { known.old.table ≡ type_spec }
    ensures names { AreNamesakes (R.rows rows.now) names.new }
    ensures pairs { AreAlikePairs (R.rows rows.now) known.new }
    ensures table { known.new.table ≡ type_spec }
{
    for (a, b) in pairs {
        if !judge_inner(rows, names, known, *a, *b) {
            return;
        }
    }
}

/// Whether the signatures of TypeSpecs are alike.
#[tactic(auto, unfolding(crate::specs::Alike::signatures_alike))]
fn specs_alike_known<R: CellView>(
    alloc: Global,
    rows: &R,
    names: &mut Namesakes,
    a: &[u8],
    b: &[u8],
) -> bool
    requires names { AreNamesakes (R.rows rows.now) names.old }
    ensures alike { result ≡ signatures_alike (R.rows rows.now) type_spec a.now b.now }
    ensures names { AreNamesakes (R.rows rows.now) names.new }
{
    if a == b {
        return true;
    }
    let mut known = Pairs::new(alloc, TYPE_SPEC);
    let pairs = unknown_pairs(alloc, &known, a, b);
    judge_all_inner(rows, names, &mut known, &pairs);
    signatures_with(rows, &known, a, b)
}

/// Whether rows of TypeSpec have alike signatures. Two blobs are compared once, however many rows
/// have them.
fn type_specs_known<R: CellView>(
    rows: &R,
    names: &mut Namesakes,
    specs: &mut Specs,
    a: Token,
    b: Token,
) -> bool
    requires a { a.table ≡ type_spec }
    requires b { b.table ≡ type_spec }
    requires names { AreNamesakes (R.rows rows.now) names.old }
    requires specs { AreKnownSpecs (R.rows rows.now) (R.stored rows.now) specs.old }
    ensures alike { result ≡ signatures_alike (R.rows rows.now) type_spec (bytes_at (R.rows rows.now) a 0)
        (bytes_at (R.rows rows.now) b 0) }
    ensures names { AreNamesakes (R.rows rows.now) names.new }
    ensures specs { AreKnownSpecs (R.rows rows.now) (R.stored rows.now) specs.new }
{
    let left = spec_place(rows, a);
    let right = spec_place(rows, b);
    if specs.places.has(left, right) {
        return true;
    }
    if !specs_alike_known(specs.alloc, rows, names, spec_of(rows, a), spec_of(rows, b)) {
        return false;
    }
    specs.places.add(left, right);
    true
}

/// Whether tokens are alike, where equal names and alike TypeSpecs are remembered.
#[tactic(auto, using(crate::proofs::AlikeSpecs::tokens_cases))]
fn tokens_known<R: CellView>(
    rows: &R,
    names: &mut Namesakes,
    specs: &mut Specs,
    a: Token,
    b: Token,
) -> bool
    requires names { AreNamesakes (R.rows rows.now) names.old }
    requires specs { AreKnownSpecs (R.rows rows.now) (R.stored rows.now) specs.old }
    ensures alike { result ≡ tokens_alike (R.rows rows.now) a b }
    ensures names { AreNamesakes (R.rows rows.now) names.new }
    ensures specs { AreKnownSpecs (R.rows rows.now) (R.stored rows.now) specs.new }
{
    if refs_alike_known(rows, names, 100, a, b) {
        return true;
    }
    if !are_rows(rows, TYPE_SPEC, a, b) {
        return false;
    }
    type_specs_known(rows, names, specs, a, b)
}

/// The same of tokens in signatures of a table.
fn alike_in_table_known<R: CellView>(
    rows: &R,
    names: &mut Namesakes,
    specs: &mut Specs,
    table: u8,
    a: Token,
    b: Token,
) -> bool
    requires names { AreNamesakes (R.rows rows.now) names.old }
    requires specs { AreKnownSpecs (R.rows rows.now) (R.stored rows.now) specs.old }
    ensures alike { result ≡ alike_in_table (R.rows rows.now) table a b }
    ensures names { AreNamesakes (R.rows rows.now) names.new }
    ensures specs { AreKnownSpecs (R.rows rows.now) (R.stored rows.now) specs.new }
{
    if table == TYPE_SPEC {
        return refs_alike_known(rows, names, 99, a, b);
    }
    tokens_known(rows, names, specs, a, b)
}

/// Remembers a pair of tokens that is alike, where both are TypeRefs or both TypeSpecs.
fn keep(known: &mut Pairs, a: Token, b: Token)
    ensures alike { (rows : Rows) → AreAlikePairs rows known.old → alike_in_table rows known.old.table a b ≡ true
        → AreAlikePairs rows known.new }
    ensures table { known.new.table ≡ known.old.table }
{
    if a.table == TYPE_REF && b.table == TYPE_REF {
        known.add(a, b);
        return;
    }
    if a.table == TYPE_SPEC && b.table == TYPE_SPEC {
        known.add_specs(a, b);
    }
}

/// Judges a pair of tokens that isn't known, and remembers it where it is alike.
fn judge<R: CellView>(
    rows: &R,
    names: &mut Namesakes,
    specs: &mut Specs,
    known: &mut Pairs,
    pair: (Token, Token),
) -> bool
    requires names { AreNamesakes (R.rows rows.now) names.old }
    requires specs { AreKnownSpecs (R.rows rows.now) (R.stored rows.now) specs.old }
    requires pairs { AreAlikePairs (R.rows rows.now) known.old }
    ensures names { AreNamesakes (R.rows rows.now) names.new }
    ensures specs { AreKnownSpecs (R.rows rows.now) (R.stored rows.now) specs.new }
    ensures pairs { AreAlikePairs (R.rows rows.now) known.new }
    ensures table { known.new.table ≡ known.old.table }
{
    let (a, b) = pair;
    if known.has(a, b) {
        return true;
    }
    if alike_in_table_known(rows, names, specs, known.table(), a, b) {
        keep(known, a, b);
        return true;
    }
    false
}

/// Judges pairs of tokens, up to the first that isn't alike.
fn judge_all<R: CellView>(
    rows: &R,
    names: &mut Namesakes,
    specs: &mut Specs,
    known: &mut Pairs,
    pairs: &[(Token, Token)],
)
    requires names { AreNamesakes (R.rows rows.now) names.old }
    requires specs { AreKnownSpecs (R.rows rows.now) (R.stored rows.now) specs.old }
    requires pairs { AreAlikePairs (R.rows rows.now) known.old }
    ensures names { AreNamesakes (R.rows rows.now) names.new }
    ensures specs { AreKnownSpecs (R.rows rows.now) (R.stored rows.now) specs.new }
    ensures pairs { AreAlikePairs (R.rows rows.now) known.new }
    ensures table { known.new.table ≡ known.old.table }
{
    for pair in pairs {
        if !judge(rows, names, specs, known, *pair) {
            return;
        }
    }
}

/// Notes a pair that isn't known. Without memory it isn't noted.
fn note(known: &Pairs, seen: &RefCell<Vec<(Token, Token)>>, a: Token, b: Token) {
    if known.has(a, b) {
        return;
    }
    match seen.try_borrow_mut() {
        Ok(mut pairs) => match pairs.push((a, b)) {
            Ok(()) => {}
            Err(_) => {}
        },
        Err(_) => {}
    }
}

/// Pairs of tokens that stand at one place of both blobs and aren't known: which ones decides
/// nothing, since each is judged.
fn unknown_pairs(alloc: Global, known: &Pairs, a: &[u8], b: &[u8]) -> Vec<(Token, Token)> {
    let seen = RefCell::new(Vec::new(alloc));
    sigs_agree(kind_in_table(known.table(), a), a, b, |t, u| {
        note(known, &seen, t, u);
        true
    });
    seen.into_inner()
}

/// A pair is known, or alike.
fn known_or_alike<R: CellView>(rows: &R, known: &Pairs, a: Token, b: Token) -> bool
    requires { AreAlikePairs (R.rows rows.now) known.now }
    ensures { result ≡ alike_in_table (R.rows rows.now) known.now.table a b }
{
    known.has(a, b) || alike_in_table(rows, known.table(), a, b)
}

/// Whether signatures are alike, where pairs are known.
fn signatures_with<R: CellView>(rows: &R, known: &Pairs, a: &[u8], b: &[u8]) -> bool
    requires { AreAlikePairs (R.rows rows.now) known.now }
    ensures { result ≡ sigs_agree (alike_in_table (R.rows rows.now) known.now.table)
        (kind_in_table known.now.table a.now) a.now b.now }
{
    sigs_agree(kind_in_table(known.table(), a), a, b, |t, u| {
        known_or_alike(rows, known, t, u)
    })
}

/// A blob, and the place where it stands in the rows that are asked about. None where there is no
/// such row, or none stands there.
#[derive(Drop)]
pub struct PlacedBlob<'a> {
    /// The place.
    pub place: Option<u64>,
    /// The bytes.
    pub bytes: &'a [u8],
}

impl KnownAlike {
    /// Nothing yet. It takes no memory.
    pub fn new(alloc: Global) -> KnownAlike
        ensures { (rows : Rows) (stored : ℕ → Option (List ℕ)) → AreKnownAlike rows stored result }
    {
        KnownAlike {
            alloc,
            names: Namesakes::new(alloc),
            specs: Specs {
                alloc,
                places: Places::new(alloc),
            },
            pairs: Pairs::new(alloc, 0),
            signatures: Places::new(alloc),
            equal: Places::new(alloc),
        }
    }

    /// Whether tokens are alike, as the function `tokens_alike` has it. Without memory nothing more
    /// is known afterwards.
    pub fn tokens_alike<R: CellView>(&mut self, rows: &R, a: Token, b: Token) -> bool
        requires { AreKnownAlike (R.rows rows.now) (R.stored rows.now) self.old }
        ensures alike { result ≡ tokens_alike (R.rows rows.now) a b }
        ensures known { AreKnownAlike (R.rows rows.now) (R.stored rows.now) self.new }
    {
        tokens_known(rows, &mut self.names, &mut self.specs, a, b)
    }

    /// Whether blobs are the same, given with their places. Without memory nothing more is known
    /// afterwards.
    pub fn same_blobs<R: CellView>(
        &mut self,
        rows: &R,
        a: &PlacedBlob<'_>,
        b: &PlacedBlob<'_>,
    ) -> bool
        requires known { AreKnownAlike (R.rows rows.now) (R.stored rows.now) self.old }
        requires a { AreStoredAt (R.stored rows.now) a.now.place a.now.bytes.now }
        requires b { AreStoredAt (R.stored rows.now) b.now.place b.now.bytes.now }
        ensures same { result ≡ bytes_eq a.now.bytes.now b.now.bytes.now }
        ensures known { AreKnownAlike (R.rows rows.now) (R.stored rows.now) self.new }
    {
        let _ = rows;
        if self.equal.has(a.place, b.place) {
            return true;
        }
        if a.bytes != b.bytes {
            return false;
        }
        self.equal.add(a.place, b.place);
        true
    }

    /// Forgets what is known of the signatures of another table.
    fn turn_to(&mut self, table: u8)
        ensures known { (rows : Rows) (stored : ℕ → Option (List ℕ)) → AreKnownAlike rows stored self.old
            → AreKnownAlike rows stored self.new }
        ensures table { self.new.pairs.table ≡ table }
    {
        if self.pairs.table() != table {
            self.pairs = Pairs::new(self.alloc, table);
            self.signatures = Places::new(self.alloc);
        }
    }

    /// Whether blobs are alike as signatures of the table whose signatures are known.
    #[tactic(auto, unfolding(crate::specs::Alike::signatures_alike))]
    fn judged_alike<R: CellView>(&mut self, rows: &R, a: &[u8], b: &[u8]) -> bool
        requires { AreKnownAlike (R.rows rows.now) (R.stored rows.now) self.old }
        ensures alike { result ≡ signatures_alike (R.rows rows.now) self.old.pairs.table a.now b.now }
        ensures known { AreKnownAlike (R.rows rows.now) (R.stored rows.now) self.new }
        ensures table { self.new.pairs.table ≡ self.old.pairs.table }
    {
        if a == b {
            return true;
        }
        let pairs = unknown_pairs(self.alloc, &self.pairs, a, b);
        judge_all(
            rows,
            &mut self.names,
            &mut self.specs,
            &mut self.pairs,
            &pairs,
        );
        signatures_with(rows, &self.pairs, a, b)
    }

    /// Whether blobs of the signature column of a table's rows are alike, as the function
    /// `signatures_alike` has it. What is known of the signatures of another table is forgotten.
    /// Without memory nothing more is known afterwards.
    pub fn signatures_alike<R: CellView>(&mut self, rows: &R, table: u8, a: &[u8], b: &[u8]) -> bool
        requires { AreKnownAlike (R.rows rows.now) (R.stored rows.now) self.old }
        ensures alike { result ≡ signatures_alike (R.rows rows.now) table a.now b.now }
        ensures known { AreKnownAlike (R.rows rows.now) (R.stored rows.now) self.new }
    {
        self.turn_to(table);
        self.judged_alike(rows, a, b)
    }

    /// The same of blobs that are given with their places: two are compared once.
    pub fn stored_alike<R: CellView>(
        &mut self,
        rows: &R,
        table: u8,
        a: &PlacedBlob<'_>,
        b: &PlacedBlob<'_>,
    ) -> bool
        requires known { AreKnownAlike (R.rows rows.now) (R.stored rows.now) self.old }
        requires a { AreStoredAt (R.stored rows.now) a.now.place a.now.bytes.now }
        requires b { AreStoredAt (R.stored rows.now) b.now.place b.now.bytes.now }
        ensures alike { result ≡ signatures_alike (R.rows rows.now) table a.now.bytes.now b.now.bytes.now }
        ensures known { AreKnownAlike (R.rows rows.now) (R.stored rows.now) self.new }
    {
        self.turn_to(table);
        if self.signatures.has(a.place, b.place) {
            return true;
        }
        if !self.judged_alike(rows, a.bytes, b.bytes) {
            return false;
        }
        self.signatures.add(a.place, b.place);
        true
    }
}
