//! What is asked of an open handle as it was after its first deltas.
ghost use Rattle.std.specs.Prelude.{◌≡◌, ◌==◌, None, Some, if◌then◌else◌};
ghost use Rattle.enc_agg.specs.Seen.{module_of_all};
ghost use Rattle.enc_plain.specs.Module.{has_row};
ghost use Rattle.enc_base.specs.Tables.{method_def};
ghost use Rattle.enc_c.specs.Earlier.{asked_document_at, asked_points_at, asked_move, asked_row_at, rule_told};
ghost use Rattle.enc_c.specs.SessionNumbers.{pairs_of};
ghost use Rattle.enc_c.specs.Family.{OrMemory, items_listed};

use crate::held::Held;
use crate::points::{PointNumbers, document_name, points};
use crate::session_changes::list_pairs;
use crate::session_numbers::PairNumbers;
use crate::status::Status;
use enc_agg::Earlier;
use enc_base::Token;
use enc_base::tables::METHOD_DEF;
use enc_plain::is_row;
use enc_ppdb::EarlierPdb;
use enc_remap::{Edition, Standing, may_remap};
use enc_text::row_text;
use std::alloc::{AllocError, Global};

/// The number of a rule, 0 for none.
fn rule_told(broken: Option<Option<u8>>) -> Result<u32, Status>
    ensures { result ≡ rule_told broken }
{
    match broken {
        None => Err(Status::Absent),
        Some(None) => Ok(0),
        Some(Some(rule)) => Ok(u32::from(rule)),
    }
}

/// A status, where a token names no method of a module.
fn unlike_in(view: &Earlier<'_>, token: Token) -> Option<Status>
    ensures { result ≡ (if has_row (module_of_all view.now) token
        then (if token.table == method_def then None else Some Status.Unlike) else Some Status.Absent) }
{
    if !is_row(view, token) {
        return Some(Status::Absent);
    }
    if token.table != METHOD_DEF {
        return Some(Status::Unlike);
    }
    None
}

impl Held {
    /// The printed row, as it was after the first so many deltas.
    #[tactic(auto, unfolding(crate::specs::Asked::asked_row))]
    pub fn row_at(&self, alloc: Global, generation: u32, row: Token) -> Result<Vec<u8>, Status>
        ensures { OrMemory (items_listed result) (asked_row_at self.now generation row) }
    {
        if !self.has_generation(generation) {
            return Err(Status::Later);
        }
        let view = self.chain.rows().at(generation);
        if !is_row(&view, row) {
            return Err(Status::Absent);
        }
        let points = self.chain.points().at(generation);
        let mut text = Vec::new(alloc);
        match row_text(alloc, &view, &points, view.place(row), row, &mut text) {
            Ok(()) => Ok(text),
            Err(AllocError) => Err(Status::Memory),
        }
    }

    /// The points of a method, as they were after the first so many deltas.
    #[tactic(auto, unfolding(crate::specs::Asked::asked_points))]
    pub fn points_at(
        &self,
        alloc: Global,
        generation: u32,
        method: Token,
    ) -> Result<Vec<PointNumbers>, Status>
        ensures { OrMemory (items_listed result) (asked_points_at self.now generation method) }
    {
        if !self.has_generation(generation) {
            return Err(Status::Later);
        }
        if let Some(status) = unlike_in(&self.chain.rows().at(generation), method) {
            return Err(status);
        }
        match points(alloc, &self.chain.points().at(generation), method) {
            Ok(points) => Ok(points),
            Err(AllocError) => Err(Status::Memory),
        }
    }

    /// The name of a document, as it was after the first so many deltas.
    #[tactic(auto, unfolding(crate::specs::Asked::asked_document))]
    pub fn document_at(
        &self,
        alloc: Global,
        generation: u32,
        method: Token,
        number: u32,
    ) -> Result<Vec<u8>, Status>
        ensures { OrMemory (items_listed result) (asked_document_at self.now generation method number) }
    {
        if !self.has_generation(generation) {
            return Err(Status::Later);
        }
        if let Some(status) = unlike_in(&self.chain.rows().at(generation), method) {
            return Err(status);
        }
        document_name(alloc, &self.chain.points().at(generation), method, number)
    }

    /// Whether a frame of a method, which has the method's body of the first so many deltas and stands at an offset,
    /// may go on in the newest body where a map leads: the number of the first of Q3 to Q7 that is broken, 0
    /// where none is.
    #[tactic(auto, unfolding(crate::specs::Earlier::asked_move))]
    fn rule_of(
        &self,
        alloc: Global,
        generation: u32,
        at: Standing,
        pairs: &[(u32, u32)],
    ) -> Result<u32, Status>
        ensures { OrMemory result (asked_move self.now generation at.method at.offset pairs.now) }
    {
        if !self.has_generation(generation) {
            return Err(Status::Later);
        }
        let view = self.chain.rows().at(generation);
        if let Some(status) = unlike_in(&view, at.method) {
            return Err(status);
        }
        let old = Edition {
            view: &view,
            points: &self.chain.points().at(generation),
        };
        let newest = Edition {
            view: self.chain.rows(),
            points: self.chain.points(),
        };
        let asked = may_remap(alloc, &old, &newest, at, pairs);
        let Edition { view: _, points: _ } = old;
        let Edition { view: _, points: _ } = newest;
        match asked {
            Ok(broken) => rule_told(broken),
            Err(AllocError) => Err(Status::Memory),
        }
    }

    /// The same of a map by its pairs.
    pub fn may_remap(
        &self,
        alloc: Global,
        generation: u32,
        at: Standing,
        map: &[PairNumbers],
    ) -> Result<u32, Status>
        ensures { OrMemory result (asked_move self.now generation at.method at.offset (pairs_of map.now)) }
    {
        match list_pairs(alloc, map) {
            Ok(pairs) => self.rule_of(alloc, generation, at, pairs.as_slice()),
            Err(AllocError) => Err(Status::Memory),
        }
    }
}
