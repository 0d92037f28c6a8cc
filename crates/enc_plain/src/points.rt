//! A source of sequence points: whatever means one plain PDB.
ghost use Rattle.std.specs.Prelude.{◌≡◌, ℕ, Option, option_map, IfOk};
ghost use Rattle.enc_seqpoints.specs.Grammar.{MethodPoints};
ghost use Rattle.enc_plain.specs.Debug.{Document, PlainPdb, debug_of};
ghost use Rattle.enc_base.specs.declared.token.Token.{Token as TheToken};
ghost use Rattle.enc_plain.specs.DebugSeen.{document_seen};

use crate::document::DocumentRef;
use enc_base::Token;
use enc_seqpoints::Points;
use std::alloc::{AllocError, Global};

/// Whatever means one plain PDB: for each method its local signature row and its sequence points,
/// each with its document (Portable PDB v1.0).
pub trait PointSource {
    // The plain PDB that is meant.
    ghost debug: { Self → PlainPdb };
    // The points of a method, in which documents stand by their numbers.
    ghost said: { Self → TheToken → MethodPoints };
    // The document that a number means at a method.
    ghost documents: { Self → TheToken → ℕ → Option Document };
    // The documents that stand at places.
    ghost placed: { Self → ℕ → Option Document };

    /// The local signature row and the points of a method; 0 and none where nothing is known of it.
    fn points(&self, alloc: Global, method: Token) -> Result<Points, AllocError>
        ensures { IfOk result (λ points. points ≡ said self.now method) };

    /// The document that a number means in a method's points, None where the file that gave them has
    /// no such document. It takes no memory.
    fn document(&self, method: Token, number: u32) -> Option<DocumentRef<'_>>
        ensures { option_map document_seen result ≡ documents self.now method number };

    /// The place of the document that a number means in a method's points: at one place stands one
    /// document. What else the number tells is the source's own matter.
    fn document_place(&self, method: Token, number: u32) -> u64
        ensures { placed self.now result ≡ documents self.now method number };

    // What is known of a method are those points with those documents.
    ghost knows: { (s : Self) (method : TheToken)
        → debug_of (documents s method) (said s method) ≡ Self.debug s method };
}
