//! What an open handle says of the module after all deltas.
ghost use Rattle.std.specs.Prelude.{◌≡◌, Ok};
ghost use Rattle.enc_meta.specs.Joined.{joined_user};
ghost use Rattle.enc_c.specs.State.{chain_after, module_after};
ghost use Rattle.enc_c.specs.Cells.{asked_number, asked_text, asked_blob, asked_guid, asked_token, lent};
ghost use Rattle.enc_c.specs.Family.{asked_owner, asked_kids, OrMemory, items_listed};
ghost use Rattle.enc_agg.specs.Stored.{code_stored};
ghost use Rattle.enc_c.specs.Code.{asked_body, LendsCode};
ghost use Rattle.enc_c.specs.Asked.{told_by_number, asked_generations, asked_id, asked_count, row_place, asked_place, told_heap_place, told_heap_place_by, asked_heap_place, asked_row, unlike_method, asked_points, asked_document};

use crate::cells::{blob, guid, number, text, token};
use crate::code::method_row;
use crate::family::{kids, owner};
use crate::held::Held;
use crate::points::{PointNumbers, document_name, points};
use crate::refusal::stream_by;
use crate::status::Status;
use enc_base::Token;
use enc_base::tables::METHOD_DEF;
use enc_opcodes::CodeRef;
use enc_plain::{ChainView, ModuleView, is_row};
use enc_text::row_text;
use std::alloc::{AllocError, Global};

/// A place: its generation, 0 for the base, and the position there, from 1 for rows and GUIDs, and from 0 for other
/// entries of heaps.
#[repr(C)]
#[derive(Clone, Copy)]
pub struct PlaceNumbers {
    pub generation: u32,
    pub position: u32,
}

impl Held {
    /// How many generations there are, the base among them.
    pub fn generations(&self) -> u32
        ensures { Ok result ≡ asked_generations self.now }
    {
        self.chain.rows().generations()
    }

    /// How many rows a table has.
    pub fn count(&self, table: u8) -> u32
        ensures { Ok result ≡ asked_count self.now table }
    {
        self.chain.rows().count(table)
    }

    /// Where a row stands.
    #[tactic(auto, unfolding(crate::specs::Asked::asked_place))]
    pub fn place(&self, row: Token) -> Result<PlaceNumbers, Status>
        ensures { result ≡ asked_place self.now row }
    {
        if !is_row(self.chain.rows(), row) {
            return Err(Status::Absent);
        }
        let found = self.chain.rows().place(row);
        Ok(PlaceNumbers {
            generation: found.generation,
            position: found.row,
        })
    }

    /// The number in a column.
    pub fn number(&self, row: Token, column: u8) -> Result<u32, Status>
        ensures { result ≡ asked_number (module_after self.now) row column }
    {
        number(self.chain.rows(), row, column)
    }

    /// The EncId of a generation.
    pub fn id(&self, generation: u32) -> Result<[u8; 16], Status>
        ensures { result ≡ asked_id (chain_after self.now) generation }
    {
        if generation >= self.chain.rows().generations() {
            return Err(Status::Later);
        }
        Ok(self.chain.rows().enc_id(generation))
    }

    /// Where an offset of a joined heap stands.
    #[tactic(auto, unfolding(crate::specs::Asked::asked_heap_place))]
    pub fn heap_place(&self, heap: u32, offset: u32) -> Result<PlaceNumbers, Status>
        ensures { result ≡ asked_heap_place self.now heap offset }
    {
        let Some(heap) = stream_by(heap) else {
            return Err(Status::Unlike);
        };
        match self.chain.rows().locate_heap(heap, offset) {
            Some(place) => Ok(PlaceNumbers {
                generation: place.generation,
                position: place.offset,
            }),
            None => Err(Status::Absent),
        }
    }

    /// The bytes of a text.
    pub fn text(&self, row: Token, column: u8) -> Result<&[u8], Status>
        ensures { lent result ≡ asked_text (module_after self.now) row column }
    {
        text(self.chain.rows(), row, column)
    }

    /// The bytes of a blob.
    pub fn blob(&self, row: Token, column: u8) -> Result<&[u8], Status>
        ensures { lent result ≡ asked_blob (module_after self.now) row column }
    {
        blob(self.chain.rows(), row, column)
    }

    /// The bytes of a GUID.
    pub fn guid(&self, row: Token, column: u8) -> Result<[u8; 16], Status>
        ensures { result ≡ asked_guid (module_after self.now) row column }
    {
        guid(self.chain.rows(), row, column)
    }

    /// The number of the token in a column of an index.
    #[tactic(auto, using(crate::proofs::TokensFit::token_fits))]
    pub fn token(&self, row: Token, column: u8) -> Result<u32, Status>
        ensures { result ≡ told_by_number (asked_token (module_after self.now) row column) }
    {
        self.chain.rows().sound();
        match token(self.chain.rows(), row, column) {
            Ok(token) => Ok(token.number()),
            Err(status) => Err(status),
        }
    }

    /// The number of the token of a child row's owner.
    #[tactic(auto, using(crate::proofs::TokensFit::owner_fits))]
    pub fn owner(&self, row: Token) -> Result<u32, Status>
        ensures { result ≡ told_by_number (asked_owner (module_after self.now) row) }
    {
        self.chain.rows().sound();
        match owner(self.chain.rows(), row) {
            Ok(token) => Ok(token.number()),
            Err(status) => Err(status),
        }
    }

    /// The rows of a row's children in a child table.
    pub fn kids(&self, alloc: Global, row: Token, table: u8) -> Result<Vec<u32>, Status>
        ensures { OrMemory (items_listed result) (asked_kids (module_after self.now) row table) }
    {
        kids(alloc, self.chain.rows(), row, table)
    }

    /// The printed row.
    #[tactic(auto, unfolding(crate::specs::Asked::asked_row))]
    pub fn row(&self, alloc: Global, row: Token) -> Result<Vec<u8>, Status>
        ensures { OrMemory (items_listed result) (asked_row self.now row) }
    {
        if !is_row(self.chain.rows(), row) {
            return Err(Status::Absent);
        }
        let mut text = Vec::new(alloc);
        let place = self.chain.rows().place(row);
        match row_text(
            alloc,
            self.chain.rows(),
            self.chain.points(),
            place,
            row,
            &mut text,
        ) {
            Ok(()) => Ok(text),
            Err(AllocError) => Err(Status::Memory),
        }
    }

    /// The body of a method, as it stands in the newest file that has it.
    #[tactic(auto, unfolding(crate::specs::Code::asked_body))]
    pub fn code(&self, method: Token) -> Result<CodeRef<'_>, Status>
        ensures { LendsCode (joined_user (chain_after self.now).heaps)
            (code_stored self.now.followed.base self.now.followed.deltas method) result
            (asked_body (module_after self.now) method) }
    {
        match method_row(self.chain.rows(), method) {
            Err(status) => Err(status),
            Ok(()) => match self.chain.rows().code_of(method) {
                Some(code) => Ok(code),
                None => Err(Status::Absent),
            },
        }
    }

    /// Why nothing is said of a token; None where it is a method of the module.
    fn unlike_method(&self, token: Token) -> Option<Status>
        ensures { result ≡ unlike_method self.now token }
    {
        if !is_row(self.chain.rows(), token) {
            return Some(Status::Absent);
        }
        if token.table != METHOD_DEF {
            return Some(Status::Unlike);
        }
        None
    }

    /// The points of a method.
    #[tactic(auto, unfolding(crate::specs::Asked::asked_points))]
    pub fn points(&self, alloc: Global, method: Token) -> Result<Vec<PointNumbers>, Status>
        ensures { OrMemory (items_listed result) (asked_points self.now method) }
    {
        if let Some(status) = self.unlike_method(method) {
            return Err(status);
        }
        match points(alloc, self.chain.points(), method) {
            Ok(points) => Ok(points),
            Err(AllocError) => Err(Status::Memory),
        }
    }

    /// The name of a document.
    #[tactic(auto, unfolding(crate::specs::Asked::asked_document))]
    pub fn document(&self, alloc: Global, method: Token, number: u32) -> Result<Vec<u8>, Status>
        ensures { OrMemory (items_listed result) (asked_document self.now method number) }
    {
        if let Some(status) = self.unlike_method(method) {
            return Err(status);
        }
        document_name(alloc, self.chain.points(), method, number)
    }
}
