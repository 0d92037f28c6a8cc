//! The call that writes the one module that has all edits in the order of an ordinary one.
ghost use Rattle.std.specs.Prelude.{◌≡◌, IsTrue, IfOk, map};
ghost use Rattle.std.specs.List.{list_all};
ghost use Rattle.enc_compact.specs.Moved.{module_moved, pdb_moved};
ghost use Rattle.enc_row_order.specs.Orders.{new_order};
ghost use Rattle.enc_rewriter.specs.Limits.{TellsLimit, rewrite_limit};
ghost use Rattle.enc_rewriter.specs.Rewritten.{IsPlainImage, RewritesTo};
ghost use Rattle.enc_schema.specs.Schema.{list_at};
ghost use Rattle.enc_c.specs.State.{module_after, pdb_after};
ghost use Rattle.enc_c.specs.Moves.{is_told_move, move_told, moves_told};
ghost use Rattle.enc_c.specs.Saved.{buffer_of};
ghost use Rattle.enc_c.specs.Compacted.{Compacts};

use crate::fill::{Three, copy_three};
use crate::handle::{Handle, put, take};
use crate::held::Held;
use crate::refusal::RefusalNumbers;
use crate::saving::tell_unwritten;
use crate::status::Status;
use enc_base::Token;
use enc_compact::{Order, compact, compact_laws, moved_rows};
use enc_rewriter::{RewriteFault, Rewritten, rewrite};
use std::alloc::{AllocError, Global};

/// A row that moves: the numbers of its token and of the one that it becomes.
#[repr(C)]
#[derive(Clone, Copy)]
pub struct MoveNumbers {
    pub from: u32,
    pub to: u32,
}

/// An ordinary module with its PDB, and the rows that moved.
#[derive(Drop)]
pub struct Ordinary {
    pub files: Rewritten,
    pub moves: Vec<MoveNumbers>,
}

/// The numbers of rows that move.
fn numbers_of(alloc: Global, moves: &[(Token, Token)]) -> Result<Vec<MoveNumbers>, AllocError>
    requires { IsTrue (list_all is_told_move moves.now) }
    ensures { IfOk result (λ v. v.items ≡ map move_told moves.now) }
{
    let mut all = Vec::new(alloc);
    for i in 0..moves.len() {
        let (from, to) = moves[i];
        all.push(MoveNumbers {
            from: from.number(),
            to: to.number(),
        })?;
    }
    Ok(all)
}

impl Held {
    /// The rows that move in an order.
    #[tactic(auto, unfolding(crate::specs::Moves::moves_told), using(crate::proofs::MovesFew::moves_few))]
    fn moves(&self, alloc: Global, order: &Order) -> Result<Vec<MoveNumbers>, AllocError>
        requires { list_at order.now ≡ new_order (module_after self.now) }
        ensures { IfOk result (λ v. v.items ≡ moves_told (module_after self.now)) }
    {
        self.chain.rows().sound();
        let moves = moved_rows(alloc, self.chain.rows(), order)?;
        numbers_of(alloc, &moves)
    }

    /// The module and its PDB after all deltas, written from scratch in the order of an ordinary module
    /// (ECMA-335 II.22), with the rows that move. `TooLarge` and `Image` name the first limit that they
    /// pass.
    pub fn compact(&self, alloc: Global) -> Result<Ordinary, RewriteFault>
        ensures written { IfOk result (λ o. RewritesTo (module_moved (module_after self.now))
            (pdb_moved (module_after self.now) (pdb_after self.now)) o.files.image o.files.pdb) }
        ensures plain { IfOk result (λ o. IsPlainImage o.files.image) }
        ensures moves { IfOk result (λ o. o.moves.items ≡ moves_told (module_after self.now)) }
        ensures tells { TellsLimit result (rewrite_limit (module_moved (module_after self.now))
            (pdb_moved (module_after self.now) (pdb_after self.now))) }
    {
        self.chain.holds();
        self.chain.rows().sound();
        self.chain.points().sound();
        compact_laws();
        let ordinary = compact(alloc, self.chain.rows(), self.chain.points())?;
        let files = match rewrite(alloc, &ordinary.module, &ordinary.points) {
            Ok(files) => files,
            Err(fault) => return Err(fault),
        };
        Ok(Ordinary {
            files,
            moves: self.moves(alloc, &ordinary.order)?,
        })
    }
}

/// Writes the module that has all edits in the order of an ordinary one, and its PDB, and tells the rows
/// that move, by rising tokens. No buffer is written where one is too short.
#[unsafe(no_mangle)]
pub extern "C" fn enc_compact(
    alloc: Global,
    handle: &mut Handle,
    image: &mut [u8],
    image_size: &mut usize,
    pdb: &mut [u8],
    pdb_size: &mut usize,
    moves: &mut [MoveNumbers],
    moves_size: &mut usize,
    refusal: &mut RefusalNumbers,
) -> u32
    ensures kept { handle.new.held ≡ handle.old.held }
    ensures answer { Compacts result handle.old.held (buffer_of image.old image.new image_size.old image_size.new)
        (buffer_of pdb.old pdb.new pdb_size.old pdb_size.new)
        (buffer_of moves.old moves.new moves_size.old moves_size.new) refusal.old refusal.new }
{
    let Some(held) = take(handle, alloc) else {
        return Status::Closed.number();
    };
    let compacted = held.compact(alloc);
    put(handle, alloc, held);
    match compacted {
        Ok(ordinary) => {
            *image_size = ordinary.files.image.len();
            *pdb_size = ordinary.files.pdb.len();
            *moves_size = ordinary.moves.len();
            let files = Three {
                first: ordinary.files.image.as_slice(),
                second: ordinary.files.pdb.as_slice(),
                third: ordinary.moves.as_slice(),
            };
            copy_three(files, image, pdb, moves)
        }
        Err(fault) => tell_unwritten(fault, refusal),
    }
}
