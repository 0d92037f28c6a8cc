//! The PDB of a module, and that of a delta.
ghost use Rattle.std.specs.Prelude.{◌≡◌, ◌<◌, Some, IfOk, is_some, length, map, slice_get, take};
ghost use Rattle.enc_ppdb.specs.Fault.{pdb_of, pdb_delta_of, named_tokens};
ghost use Rattle.enc_ppdb.specs.Misplaced.{misplaced_row, first_misplaced};
ghost use Rattle.enc_plain.specs.SoundDebug.{IsSoundPdb};
ghost use Rattle.enc_ppdb.specs.PdbChain.{row_in_file, row_of_method, pdb_begun};
ghost use Rattle.enc_ppdb.specs.Points.{row_for, delta_points};
ghost use Rattle.enc_ppdb.specs.Seen.{ReadsPdb, end_by};
ghost use Rattle.enc_ppdb.specs.Sound.{KeepsSound};
ghost use Rattle.enc_ppdb.specs.Told.{method_named_by};
ghost use Rattle.enc_base.specs.declared.token.Token.{Token as TheToken};

use crate::debug_row::DebugRow;
use crate::ends::ends_of;
use crate::fault::{documents_fault, fits_methods, nth_row, points_of, refused, row_fault};
use crate::file::File;
use crate::methods::MethodList;
use crate::misplaced::{debug_token, is_past_end, lesser};
use crate::named::named_of;
use crate::sizes::CodeSizes;
use enc_base::tables::{METHOD_DEBUG_INFORMATION, METHOD_DEF};
use enc_base::{Place, ReadFault, Token};
use enc_seqpoints::Points;
use std::alloc::{AllocError, Global};
use std::marker::Model;

/// The Portable PDB of a module.
#[derive(Drop)]
pub struct Pdb {
    file: File,
}

impl Model for Pdb {
    ghost use Rattle.enc_rows.specs.Source.{Source};
    ghost use Rattle.enc_ppdb.specs.Sound.{IsGoodPdb};

    ghost Value = { Source };

    ghost view = { λ p. p.file };

    ghost invariant = { λ p. IsGoodPdb p.file };
}

/// The Portable PDB of a delta. Beside the file it has the tokens of MethodDebugInformation in EncMap,
/// and for each row one past the greatest offset of its points.
#[derive(Drop)]
pub struct PdbDelta {
    file: File,
    named: MethodList,
    ends: Vec<u64>,
}

impl Model for PdbDelta {
    ghost use Rattle.enc_rows.specs.Source.{Source};
    ghost use Rattle.enc_ppdb.specs.Seen.{IsDelta};

    ghost Value = { Source };

    ghost view = { λ p. p.file };

    ghost invariant = { λ p. IsDelta p.file p.named p.ends.items };
}

impl Pdb {
    /// Reads the PDB of a module with so many methods. Refused with F12 `pdb` where its root, its
    /// `#Pdb` or its table stream isn't good (ECMA-335 II.24.2; Portable PDB v1.0, #Pdb Stream), or
    /// where MethodDebugInformation has rows of another number than the module has methods; else at
    /// the first row of Document, and then of MethodDebugInformation, one of whose offsets isn't good,
    /// whose name or points aren't in their grammar, or a point of which has no document. `Memory`
    /// where there is none.
    #[tactic(auto, unfolding(crate::specs::Fault::pdb_of))]
    pub fn read(alloc: Global, bytes: Vec<u8>, methods: u32) -> Result<Pdb, ReadFault>
        ensures { ReadsPdb result (pdb_of bytes.items methods) }
    {
        let Some(file) = File::open(bytes) else {
            return Err(refused(Place::Pdb));
        };
        if !fits_methods(&file, methods) {
            return Err(refused(Place::Pdb));
        }
        match row_fault(alloc, &file)? {
            Some(place) => Err(refused(place)),
            None => Ok(Pdb { file }),
        }
    }

    /// What it says of the methods is sound: a law, of which a caller makes use.
    pub(crate) fn sound(&self)
        ensures { IsSoundPdb (pdb_begun (Some self.now)) }
    {
        let _ = &self.file;
    }

    /// The row of a method: its own, None where MethodDebugInformation has none.
    #[tactic(auto, unfolding(crate::specs::PdbChain::row_of_method))]
    pub(crate) fn known(&self, method: Token) -> Option<DebugRow<'_>>
        ensures { result ≡ row_in_file self.now (row_of_method self.now method) }
    {
        if method.table != METHOD_DEF
            || method.row < 1
            || self.file.count(METHOD_DEBUG_INFORMATION) < method.row
        {
            return None;
        }
        let row = Token {
            table: METHOD_DEBUG_INFORMATION,
            row: method.row,
        };
        Some(DebugRow::at(&self.file, row))
    }
}

impl PdbDelta {
    /// Reads the PDB of a delta, as `Pdb::read` reads that of a module; its EncMap has as many tokens
    /// of MethodDebugInformation as this table has rows, else F12 `pdb`. The place of a row is its
    /// position, not its token in EncMap.
    #[tactic(auto, unfolding(crate::specs::Fault::pdb_delta_of, crate::specs::Fault::fits_map))]
    pub fn read(alloc: Global, bytes: Vec<u8>) -> Result<PdbDelta, ReadFault>
        ensures { ReadsPdb result (pdb_delta_of bytes.items) }
    {
        let Some(file) = File::open(bytes) else {
            return Err(refused(Place::Pdb));
        };
        let named = named_of(alloc, &file)?;
        if named.len() != file.count(METHOD_DEBUG_INFORMATION) as usize {
            return Err(refused(Place::Pdb));
        }
        if let Some(place) = documents_fault(&file) {
            return Err(refused(place));
        }
        match ends_of(alloc, &file) {
            Ok(ends) => Ok(PdbDelta { file, named, ends }),
            Err(fault) => Err(fault),
        }
    }

    /// With what it says of the methods a sound plain PDB stays sound: a law, of which a caller makes
    /// use.
    pub(crate) fn keeps_sound(&self)
        ensures { KeepsSound (Some self.now) }
    {
        let _ = &self.file;
    }

    /// How many methods EncMap names.
    pub(crate) fn methods(&self) -> usize
        ensures { result ≡ length (named_tokens self.now) }
    {
        self.named.len()
    }

    /// The k-th of them, from 0.
    pub(crate) fn method(&self, k: usize) -> Token
        requires { k < length (named_tokens self.now) }
        ensures { slice_get (map method_named_by (named_tokens self.now)) k ≡ Some result }
    {
        Token {
            table: METHOD_DEF,
            row: self.named.token(k).row,
        }
    }

    /// The row of a method, None where EncMap has no token of MethodDebugInformation with its row.
    #[tactic(auto, unfolding(crate::specs::Points::row_for))]
    fn row_for(&self, method: Token) -> Option<Token>
        ensures { result ≡ row_for self.now method }
    {
        if method.table != METHOD_DEF {
            return None;
        }
        let token = Token {
            table: METHOD_DEBUG_INFORMATION,
            row: method.row,
        };
        let k = self.named.place(token)?;
        Some(nth_row(METHOD_DEBUG_INFORMATION, k as u32))
    }

    /// The same, with the file.
    pub(crate) fn known(&self, method: Token) -> Option<DebugRow<'_>>
        ensures { result ≡ row_in_file self.now (row_for self.now method) }
    {
        let row = self.row_for(method)?;
        Some(DebugRow::at(&self.file, row))
    }

    /// The local signature row and the points of a method by its token, None exactly where EncMap has
    /// no token of MethodDebugInformation with its row. The rows go with these tokens in order, of two
    /// equal ones the first counts. `AllocError` where there is no memory.
    #[tactic(auto, using(crate::proofs::Rows::points_where_row), unfolding(crate::specs::Points::delta_points))]
    pub fn points(&self, alloc: Global, method: Token) -> Result<Option<Points>, AllocError>
        ensures points { IfOk result (λ points. points ≡ delta_points self.now method) }
        ensures there { IfOk result (λ points. is_some points ≡ is_some (row_for self.now method)) }
    {
        let Some(row) = self.row_for(method) else {
            return Ok(None);
        };
        points_of(alloc, &self.file, row)
    }

    /// The k-th token of MethodDebugInformation in EncMap, from 0, where it or its row doesn't go with
    /// the delta's methods: it isn't past the rows before it, whose bound this is, its method isn't one
    /// of the delta's, or a point is past its code.
    fn misplaced_row(&self, sizes: &CodeSizes, k: usize, bound: u64) -> Option<u32>
        requires there { k < length (named_tokens self.now) }
        requires bound { bound ≡ end_by (λ (t : TheToken). t.row) (take k (named_tokens self.now)) }
        ensures { result ≡ misplaced_row self.now sizes.now k }
    {
        let token = self.named.token(k);
        if u64::from(token.row) < bound {
            return Some(token.row);
        }
        if is_past_end(sizes.size_for(token), self.ends[k]) {
            return Some(token.row);
        }
        None
    }

    /// The least token of MethodDebugInformation in EncMap that doesn't go with the delta's methods,
    /// each of which stands with the size of its code in bytes: it isn't past one before it, its method
    /// isn't one of the delta's, or one of its points is at the end of the code or past it. None where
    /// all go with them. It takes no memory.
    #[tactic(auto, unfolding(crate::specs::Misplaced::first_misplaced))]
    pub fn first_broken(&self, sizes: &CodeSizes) -> Option<Token>
        ensures { result ≡ first_misplaced self.now sizes.now }
    {
        let mut bound: u64 = 0;
        let mut least = None;
        for k in 0..self.named.len() {
            least = lesser(least, self.misplaced_row(sizes, k, bound));
            bound = bound.max(u64::from(self.named.token(k).row) + 1);
        }
        debug_token(least)
    }
}
