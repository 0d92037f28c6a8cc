//! The documents that an edit list states, lent by their values.
ghost use Rattle.std.specs.Prelude.{◌≡◌, ◌<◌, length, map, option_map, slice_get, IfOk};
ghost use Rattle.enc_plain.specs.DebugSeen.{document_seen};
ghost use Rattle.enc_pdb_writer.specs.Listed.{hash_of};
ghost use Rattle.enc_pdb_writer.specs.Names.{HaveRoom};
ghost use Rattle.enc_pdb_writer.specs.Stated.{document_stated};

use crate::names::Names;
use enc_edit_list::DocumentValue;
use enc_plain::DocumentRef;
use enc_ppdb::{SHA_256, source_hash};
use std::alloc::{AllocError, Global};
use std::marker::Model;

/// Documents as an edit list states them, with the SHA-256 hashes of their sources.
#[derive(Drop)]
pub(crate) struct StatedDocuments<'a> {
    documents: &'a [DocumentValue],
    hashes: Vec<[u8; 32]>,
    names: Names,
}

impl<'a> Model for StatedDocuments<'a> {
    ghost use Rattle.std.specs.Prelude.{◌≡◌, List, map};
    ghost use Rattle.enc_plain.specs.Debug.{Document};
    ghost use Rattle.enc_pdb_writer.specs.Listed.{hash_of};
    ghost use Rattle.enc_pdb_writer.specs.Names.{name_stated};
    ghost use Rattle.enc_pdb_writer.specs.Stated.{document_stated};

    ghost Value = { List Document };

    ghost view = { λ d. map document_stated d.documents.now };

    ghost invariant = { λ d. (d.hashes.items ≡ map hash_of d.documents.now)
        × (d.names ≡ map name_stated d.documents.now) };
}

/// The hashes of the documents' sources.
fn hashes(alloc: Global, documents: &[DocumentValue]) -> Result<Vec<[u8; 32]>, AllocError>
    ensures { IfOk result (λ hashes. hashes.items ≡ map hash_of documents.now) }
{
    let mut hashes = Vec::new(alloc);
    for document in documents {
        hashes.push(source_hash(document.source.as_slice()))?;
    }
    Ok(hashes)
}

impl<'a> StatedDocuments<'a> {
    /// Documents, in their order.
    pub(crate) fn of(
        alloc: Global,
        documents: &'a [DocumentValue],
    ) -> Result<StatedDocuments<'a>, AllocError>
        requires { HaveRoom documents.now }
        ensures { IfOk result (λ d. d ≡ map document_stated documents.now) }
    {
        Ok(StatedDocuments {
            documents,
            hashes: hashes(alloc, documents)?,
            names: Names::of(alloc, documents)?,
        })
    }

    /// The i-th document, from 0; None past the last.
    pub(crate) fn get(&self, i: usize) -> Option<DocumentRef<'_>>
        ensures { option_map document_seen result ≡ slice_get self.now i }
    {
        let stated = self.documents.get(i)?;
        Some(DocumentRef {
            name: self.names.get(i)?,
            algorithm: SHA_256,
            hash: self.hashes.get(i)?,
            language: stated.language,
        })
    }
}
