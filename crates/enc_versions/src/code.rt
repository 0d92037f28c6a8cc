//! The body of one method in one generation.
ghost use Rattle.std.specs.Prelude.{◌≡◌, ◌<◌, ◌^◌, length, IsTrue, IfOk};
ghost use Rattle.enc_opcodes.specs.Body.{code_seen};
ghost use Rattle.enc_versions.specs.Commit.{is_entry, version_in};
ghost use Rattle.enc_versions.specs.Stops.{is_at_point, is_stop_in};

use crate::list::CodeEntry;
use crate::stops::stops_of;
use enc_base::{Bytes, Token};
use enc_opcodes::CodeRef;
use enc_seqpoints::Points;
use std::alloc::{AllocError, Global};
use std::collections::BTreeSet;
use std::marker::Model;
use std::rc::Rc;

/// The bytes of a body and what its header says; methods that share a body share one of these.
#[derive(Drop)]
pub(crate) struct Stored {
    max: u16,
    init: bool,
    locals: Token,
    code: Bytes,
    sections: Bytes,
}

impl Model for Stored {
    ghost use Rattle.std.specs.Prelude.{◌<◌, ◌^◌, length};
    ghost use Rattle.enc_opcodes.specs.Body.{Code};

    ghost Value = { Code };

    ghost view = { λ b. record {
      max = b.max;
      init = b.init;
      locals = b.locals;
      code = b.code;
      sections = b.sections;
    } };

    ghost invariant = { λ b. (length b.code < 2 ^ 32) × (length b.sections < 2 ^ 32) };
}

impl Stored {
    /// A copy of a body.
    pub(crate) fn of(alloc: Global, code: &CodeRef<'_>) -> Result<Stored, AllocError>
        requires { length code.now.code.now < 2 ^ 32 }
        ensures { IfOk result (λ b. b ≡ code_seen code.now) }
    {
        Ok(Stored {
            max: code.max,
            init: code.init,
            locals: code.locals,
            code: copied(alloc, code.code)?,
            sections: short(copied(alloc, code.sections)?)?,
        })
    }

    /// The body where it stands.
    fn code(&self) -> CodeRef<'_>
        ensures body { code_seen result ≡ self.now }
        ensures few { length self.now.code < 2 ^ 32 }
        ensures short { length self.now.sections < 2 ^ 32 }
    {
        CodeRef {
            max: self.max,
            init: self.init,
            locals: self.locals,
            code: self.code.as_slice(),
            sections: self.sections.as_slice(),
        }
    }
}

/// A copy of bytes.
fn copied(alloc: Global, bytes: &[u8]) -> Result<Bytes, AllocError>
    ensures { IfOk result (λ b. b ≡ bytes.now) }
{
    let mut copy = Vec::new(alloc);
    copy.extend_from_slice(bytes)?;
    Ok(Bytes::from_vec(copy))
}

/// Bytes that are fewer than 2^32. There is no memory for more, so that clauses have numbers of 32 bits.
fn short(bytes: Bytes) -> Result<Bytes, AllocError>
    ensures same { IfOk result (λ b. b ≡ bytes) }
    ensures short { IfOk result (λ b. length b < 2 ^ 32) }
{
    if bytes.len() >= 1 << 32 {
        return Err(AllocError);
    }
    Ok(bytes)
}

/// The body of one method in one generation and its sequence points. It is made by `Versions` alone
/// and never changes, so that whoever holds it goes on in it while newer ones come.
#[derive(Drop)]
pub struct Code {
    stored: Rc<Stored>,
    points: Points,
    stops: BTreeSet<u32>,
}

impl Model for Code {
    ghost use Rattle.enc_versions.specs.Stops.{AreStops};
    ghost use Rattle.enc_versions.specs.Version.{Version};

    ghost Value = { Version };

    ghost view = { λ c. record { code = c.stored.value; points = c.points } };

    ghost invariant = { λ c. AreStops c.stored.value c.points.points c.stops };
}

impl Code {
    /// A body with its points. It goes over the code once, where there are points.
    pub(crate) fn of(alloc: Global, stored: Rc<Stored>, points: Points) -> Result<Code, AllocError>
        ensures { IfOk result (λ c. c ≡ record { code = stored.value; points = points }) }
    {
        let stops = stops_of(alloc, &stored.as_ref().code(), &points)?;
        Ok(Code {
            stored,
            points,
            stops,
        })
    }

    /// The body that an entry brings, with its points.
    pub(crate) fn from_entry(alloc: Global, entry: CodeEntry) -> Result<Code, AllocError>
        requires { IsTrue (is_entry entry) }
        ensures { IfOk result (λ c. c ≡ (version_in entry).version) }
    {
        let stored = Stored {
            max: entry.max,
            init: entry.init,
            locals: entry.locals,
            code: entry.code,
            sections: short(entry.sections)?,
        };
        Code::of(alloc, Rc::new(alloc, stored)?, entry.points)
    }

    /// The body (ECMA-335 II.25.4). It takes no memory.
    pub fn body(&self) -> CodeRef<'_>
        ensures body { code_seen result ≡ self.now.code }
        ensures few { length self.now.code.code < 2 ^ 32 }
        ensures short { length self.now.code.sections < 2 ^ 32 }
    {
        self.stored.as_ref().code()
    }

    /// The sequence points and the local signature row of the method in that generation (Portable PDB
    /// v1.0). They take no memory.
    pub fn points(&self) -> &Points
        ensures { result.now ≡ self.now.points }
    {
        &self.points
    }

    /// Whether a sequence point that isn't hidden stands at the offset (Portable PDB v1.0). Its time is
    /// logarithmic in the number of points.
    pub fn is_at_point(&self, offset: u32) -> bool
        ensures { result ≡ is_at_point self.now.points.points offset }
    {
        self.points.rising();
        match self.points.at(offset) {
            Some(point) => point.lines.is_some(),
            None => false,
        }
    }

    /// Whether a frame may stop at the offset: a sequence point that isn't hidden stands there, and an
    /// instruction begins there (Portable PDB v1.0, ECMA-335 III.1.2). Its time is logarithmic in the number of
    /// points.
    pub fn is_stop(&self, offset: u32) -> bool
        ensures { result ≡ is_stop_in self.now.code self.now.points.points offset }
    {
        self.stops.contains(&offset)
    }
}
