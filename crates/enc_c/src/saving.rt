//! The calls that write the one module that has all edits.
ghost use Rattle.std.specs.Prelude.{◌≡◌, IfOk};
ghost use Rattle.enc_rewriter.specs.Limits.{TellsLimit, rewrite_limit};
ghost use Rattle.enc_rewriter.specs.Rewritten.{RewritesTo};
ghost use Rattle.enc_c.specs.State.{module_after, pdb_after};
ghost use Rattle.enc_c.specs.Saved.{TellsUnwritten, buffer_of, Saves};

use crate::fill::copy_two;
use crate::handle::{Handle, put, take};
use crate::held::Held;
use crate::reason::{Reason, numbers_of_reason};
use crate::refusal::RefusalNumbers;
use crate::status::Status;
use enc_rewriter::{RewriteFault, Rewritten, rewrite};
use std::alloc::Global;

impl Held {
    /// The module and its PDB after all deltas, written from scratch. `TooLarge` and `Image` name the first limit that
    /// they pass.
    pub fn save(&self, alloc: Global) -> Result<Rewritten, RewriteFault>
        ensures written { IfOk result (λ r. RewritesTo (module_after self.now) (pdb_after self.now) r.image r.pdb) }
        ensures tells { TellsLimit result (rewrite_limit (module_after self.now) (pdb_after self.now)) }
    {
        self.chain.holds();
        self.chain.rows().sound();
        self.chain.points().sound();
        rewrite(alloc, self.chain.rows(), self.chain.points())
    }
}

/// Tells why a module isn't written: a limit by its numbers.
pub fn tell_unwritten(fault: RewriteFault, refusal: &mut RefusalNumbers) -> u32
    ensures { TellsUnwritten result refusal.old refusal.new fault }
{
    match fault {
        RewriteFault::Memory => Status::Memory.number(),
        RewriteFault::TooLarge(heap) => {
            *refusal = numbers_of_reason(Reason::Heap(heap));
            Status::Refused.number()
        }
        RewriteFault::Image => {
            *refusal = numbers_of_reason(Reason::Image);
            Status::Refused.number()
        }
    }
}

/// Writes the module that has all edits, and its PDB. Neither buffer is written where one is too short.
#[unsafe(no_mangle)]
pub extern "C" fn enc_save(
    alloc: Global,
    handle: &mut Handle,
    image: &mut [u8],
    image_size: &mut usize,
    pdb: &mut [u8],
    pdb_size: &mut usize,
    refusal: &mut RefusalNumbers,
) -> u32
    ensures kept { handle.new.held ≡ handle.old.held }
    ensures answer { Saves result handle.old.held (buffer_of image.old image.new image_size.old image_size.new)
        (buffer_of pdb.old pdb.new pdb_size.old pdb_size.new) refusal.old refusal.new }
{
    let Some(held) = take(handle, alloc) else {
        return Status::Closed.number();
    };
    let saved = held.save(alloc);
    put(handle, alloc, held);
    match saved {
        Ok(files) => {
            *image_size = files.image.len();
            *pdb_size = files.pdb.len();
            copy_two(files.image.as_slice(), files.pdb.as_slice(), image, pdb)
        }
        Err(fault) => tell_unwritten(fault, refusal),
    }
}
