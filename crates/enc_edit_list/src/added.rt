//! The rows that edits add, by their tables.
ghost use Rattle.std.specs.Prelude.{◌≡◌, ◌<◌, ◌++◌, ◌∷◌, [], List, length, get_or, set, option_and_then, option_map, replicate, slice_get, take, Some, IfOk};
ghost use Rattle.enc_edit_list.specs.Added.{adding, rows_added, rank_of, ArePlaces, KnowsAdded};
ghost use Rattle.enc_edit_list.specs.declared.edit.Edit.{Edit as TheEdit};

use crate::edit::{Edit, Edits};
use crate::list::ListOf;
use std::alloc::{AllocError, Global};
use std::marker::Model;

/// Edits, with the places of those that add rows to each table, so that an added row is found without
/// a search.
#[derive(Drop)]
pub struct Added<'a> {
    edits: &'a [Edit],
    places: Vec<ListOf<usize>>,
    // how many edits before each add rows to its table
    ranks: Vec<usize>,
}

impl<'a> Model for Added<'a> {
    ghost use Rattle.std.specs.Prelude.{List};
    ghost use Rattle.enc_edit_list.specs.Added.{KnowsAdded};
    ghost use Rattle.enc_edit_list.specs.declared.edit.Edit.{Edit};

    ghost Value = { List Edit };

    ghost view = { λ a. a.edits.now };

    ghost invariant = { λ a. KnowsAdded a.places.items a.ranks.items a.edits.now };
}

/// An empty list for each table.
fn no_places(alloc: Global) -> Result<Vec<ListOf<usize>>, AllocError>
    ensures { IfOk result (λ p. p.items ≡ replicate 256 []) }
{
    let mut places = Vec::new(alloc);
    for table in 0..256usize {
        let _ = table;
        places.push(ListOf::begin(alloc))?;
    }
    Ok(places)
}

/// Puts a place behind those of a table.
fn push_place(places: &mut Vec<ListOf<usize>>, table: u8, at: usize) -> Result<(), AllocError>
    requires { length places.old.items ≡ 256 }
    ensures put { IfOk result (λ _. places.new.items
        ≡ set places.old.items table (get_or places.old.items table [] ++ at ∷ [])) }
    ensures few { table < 256 }
{
    places[table as usize].push(at)
}

/// Puts the place of an edit behind those that add rows to its table.
fn put_place(places: &mut Vec<ListOf<usize>>, edit: &Edit, at: usize) -> Result<(), AllocError>
    requires { length places.old.items ≡ 256 }
    ensures { IfOk result (λ _. (before : List TheEdit) → length before ≡ at → ArePlaces places.old.items before
        → ArePlaces places.new.items (before ++ edit.now ∷ [])) }
{
    match edit {
        Edit::Add { table, .. } => {
            push_place(places, *table, at)?;
            Ok(())
        }
        Edit::Body { .. } => Ok(()),
    }
}

/// How many rows the edits whose places these are add to an edit's table.
#[tactic(auto, using(crate::proofs::Placing::as_many))]
fn rank_in(places: &Vec<ListOf<usize>>, edit: &Edit) -> usize
    requires { length places.now.items ≡ 256 }
    ensures { (before : List TheEdit) → ArePlaces places.now.items before → result ≡ rank_of before edit.now }
{
    match edit {
        Edit::Add { table, .. } => places[*table as usize].len(),
        Edit::Body { .. } => 0,
    }
}

/// What is known of the edits up to a place.
struct PlacedEdits {
    places: Vec<ListOf<usize>>,
    ranks: Vec<usize>,
}

/// The places and ranks of edits.
#[tactic(auto, using(crate::proofs::Placing::known_none, crate::proofs::Placing::known_more))]
fn placed(alloc: Global, edits: &[Edit]) -> Result<PlacedEdits, AllocError>
    ensures { IfOk result (λ p. KnowsAdded p.places.items p.ranks.items edits.now) }
{
    let mut places = no_places(alloc)?;
    let mut ranks = Vec::new(alloc);
    for at in 0..edits.len() {
        let edit = &edits[at];
        ranks.push(rank_in(&places, edit))?;
        put_place(&mut places, edit, at)?;
    }
    Ok(PlacedEdits { places, ranks })
}

/// The number at a place.
fn number_at(numbers: &[usize], at: usize) -> Option<usize>
    ensures { result ≡ slice_get numbers.now at }
{
    numbers.get(at).copied()
}

/// The edit at a place.
fn item_at(edits: &[Edit], at: usize) -> Option<&Edit>
    ensures { option_map (λ e. e.now) result ≡ slice_get edits.now at }
{
    edits.get(at)
}

impl<'a> Added<'a> {
    /// These edits. It takes memory for each of them.
    pub fn of(alloc: Global, edits: &'a Edits) -> Result<Added<'a>, AllocError>
        ensures { IfOk result (λ a. a ≡ edits.now) }
    {
        let edits = edits.as_slice();
        let PlacedEdits { places, ranks } = placed(alloc, edits)?;
        Ok(Added {
            edits,
            places,
            ranks,
        })
    }

    /// The edits.
    pub fn edits(&self) -> &'a [Edit]
        ensures { result.now ≡ self.now }
    {
        self.edits
    }

    /// How many rows they add to a table.
    #[tactic(auto, using(crate::proofs::Placing::as_many))]
    pub fn count(&self, table: u8) -> usize
        ensures { result ≡ rows_added self.now table }
    {
        self.places[table as usize].len()
    }

    /// The place of the edit that adds the r-th row of a table.
    #[tactic(auto, using(crate::proofs::Placing::is_edit, crate::proofs::Placing::no_edit))]
    fn place(&self, table: u8, r: usize) -> Option<usize>
        ensures { slice_get (adding self.now table) r ≡ option_and_then (slice_get self.now) result }
    {
        let places = &self.places[table as usize];
        places.get(r).copied()
    }

    /// The edit that adds the r-th row of a table, r from 0; None behind the last.
    pub fn edit(&self, table: u8, r: usize) -> Option<&'a Edit>
        ensures { option_map (λ e. e.now) result ≡ slice_get (adding self.now table) r }
    {
        match self.place(table, r) {
            Some(at) => item_at(self.edits, at),
            None => None,
        }
    }

    /// How many edits before the one at a place add rows to its table; 0 for a body that is replaced.
    #[tactic(auto, using(crate::proofs::Placing::rank_told))]
    pub fn rank(&self, at: usize) -> Option<usize>
        ensures { result ≡ option_map (rank_of (take at self.now)) (slice_get self.now at) }
    {
        number_at(&self.ranks, at)
    }

    /// The same of an edit that is there.
    pub fn rank_at(&self, at: usize) -> usize
        requires { at < length self.now }
        ensures { (e : TheEdit) → slice_get self.now at ≡ Some e → result ≡ rank_of (take at self.now) e }
    {
        match self.rank(at) {
            Some(rank) => rank,
            None => unreachable!(),
        }
    }
}
