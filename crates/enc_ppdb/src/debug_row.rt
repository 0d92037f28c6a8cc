//! The row by which a file knows a method, and what it says there.
ghost use Rattle.std.specs.Prelude.{◌≡◌, [], None, IfOk, option_map};
ghost use Rattle.enc_plain.specs.DebugSeen.{document_seen};
ghost use Rattle.enc_ppdb.specs.Fault.{documents_fault};
ghost use Rattle.enc_ppdb.specs.PdbChain.{document_at, points_at, documents_at};

use crate::fault::{good_document, points_of};
use crate::file::File;
use enc_base::Token;
use enc_base::tables::DOCUMENT;
use enc_plain::DocumentRef;
use enc_seqpoints::Points;
use std::alloc::{AllocError, Global};
use std::marker::Model;

/// A file whose documents are good, and a row of its MethodDebugInformation.
#[derive(Drop)]
pub(crate) struct DebugRow<'a> {
    file: &'a File,
    row: Token,
}

impl<'a> Model for DebugRow<'a> {
    ghost use Rattle.std.specs.Prelude.{◌≡◌, None};
    ghost use Rattle.enc_base.specs.declared.token.Token.{Token as TheToken};
    ghost use Rattle.enc_rows.specs.Source.{Source};
    ghost use Rattle.enc_ppdb.specs.Fault.{documents_fault};

    ghost Value = { Source × TheToken };

    ghost view = { λ k. (k.file.now, k.row) };

    ghost invariant = { λ k. documents_fault k.file.now ≡ None };
}

/// The document with a number in a file whose documents are good, None where the file has no such
/// row.
#[tactic(auto, unfolding(crate::specs::PdbChain::document_at))]
fn document_in(file: &File, number: u32) -> Option<DocumentRef<'_>>
    requires { documents_fault file.now ≡ None }
    ensures { option_map document_seen result ≡ document_at file.now number }
{
    if number < 1 || file.count(DOCUMENT) < number {
        return None;
    }
    good_document(
        file,
        Token {
            table: DOCUMENT,
            row: number,
        },
    )
}

impl<'a> DebugRow<'a> {
    /// A row of a file whose documents are good.
    pub(crate) fn at(file: &'a File, row: Token) -> DebugRow<'a>
        requires { documents_fault file.now ≡ None }
        ensures { result ≡ (file.now, row) }
    {
        DebugRow { file, row }
    }

    /// The document with a number, None where the file has no such row.
    fn document(self, number: u32) -> Option<DocumentRef<'a>>
        ensures { option_map document_seen result ≡ document_at self.entry.0 number }
    {
        document_in(self.file, number)
    }
}

/// The local signature row and the points that a file says, 0 and none where no file knows the
/// method.
#[tactic(auto, unfolding(crate::specs::PdbChain::points_at))]
pub(crate) fn points_at(alloc: Global, known: Option<DebugRow<'_>>) -> Result<Points, AllocError>
    ensures { IfOk result (λ points. points ≡ points_at known.entry) }
{
    let Some(known) = known else {
        return Ok(Points::none(alloc));
    };
    match points_of(alloc, known.file, known.row)? {
        Some(points) => Ok(points),
        None => Ok(Points::none(alloc)),
    }
}

/// The document that a number means there, None where no file knows the method.
#[tactic(auto, unfolding(crate::specs::PdbChain::documents_at))]
pub(crate) fn document_at(known: Option<DebugRow<'_>>, number: u32) -> Option<DocumentRef<'_>>
    ensures { option_map document_seen result ≡ documents_at known.entry number }
{
    known?.document(number)
}
