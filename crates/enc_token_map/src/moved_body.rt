//! A body whose tokens are moved.
ghost use Rattle.std.specs.Prelude.{◌≡◌, ◌<◌, ◌^◌, true, length, Some, IfOk};
ghost use Rattle.enc_opcodes.specs.Body.{code_seen};
ghost use Rattle.enc_token_map.specs.Body.{MeansMoved};
ghost use Rattle.enc_token_map.specs.Held.{held_code};

use crate::code::moved_code;
use crate::moves::Moves;
use crate::sections::moved_sections;
use enc_base::{Bytes, Token};
use enc_opcodes::CodeRef;
use std::alloc::{AllocError, Global};
use std::marker::Model;

/// The code and the sections of a body whose tokens were moved.
#[derive(Drop)]
pub struct MovedBody {
    code: Bytes,
    sections: Bytes,
}

impl Model for MovedBody {
    ghost use Rattle.std.specs.Prelude.{◌<◌, ◌^◌, length};
    ghost use Rattle.enc_token_map.specs.Held.{Held};

    ghost Value = { Held };

    ghost view = { λ b. record { code = b.code; sections = b.sections } };

    ghost invariant = { λ b. (length b.code < 2 ^ 32) × (length b.sections < 2 ^ 32) };
}

/// Whether the bytes are the same.
fn are_same(a: &[u8], b: &[u8]) -> bool
    ensures { result ≡ true → a.now ≡ b.now }
{
    a == b
}

impl MovedBody {
    /// The body's code and sections with each token moved, None where none of them moves: then the
    /// body's own bytes mean the same.
    pub fn of<M: Moves>(
        alloc: Global,
        body: &CodeRef<'_>,
        moves: &M,
    ) -> Result<Option<MovedBody>, AllocError>
        requires few { length body.now.code.now < 2 ^ 32 }
        requires short { length body.now.sections.now < 2 ^ 32 }
        ensures { IfOk result (λ r. MeansMoved (M.to moves.now) (code_seen body.now)
            (held_code r (code_seen body.now) (M.to moves.now body.now.locals))) }
    {
        let code = moved_code(alloc, body, moves)?;
        let sections = moved_sections(alloc, body.sections, moves)?;
        if are_same(&code, body.code) && are_same(&sections, body.sections) {
            return Ok(None);
        }
        Ok(Some(MovedBody {
            code: Bytes::from_vec(code),
            sections: Bytes::from_vec(sections),
        }))
    }

    /// The body with this local signature and with what is held in place of its own code and
    /// sections. It takes no memory.
    pub fn code<'a>(&'a self, body: &CodeRef<'_>, locals: Token) -> CodeRef<'a>
        ensures code { code_seen result ≡ held_code (Some self.now) (code_seen body.now) locals }
        ensures few { length result.code.now < 2 ^ 32 }
        ensures short { length result.sections.now < 2 ^ 32 }
    {
        CodeRef {
            max: body.max,
            init: body.init,
            locals,
            code: self.code.as_slice(),
            sections: self.sections.as_slice(),
        }
    }
}
