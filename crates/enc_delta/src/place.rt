//! Where a token stands in a delta's map.
ghost use Rattle.std.specs.Prelude.{◌≡◌, ◌+◌, ◌*◌, ◌<◌, ◌≤◌, ◌^◌, Some, IfSome};
ghost use Rattle.std.specs.List.Sorted.{IsNonDecreasingBy};
ghost use Rattle.enc_base.specs.Token.{number_of, nil};
ghost use Rattle.enc_delta.specs.Cuts.{is_number_of, IsCutBy};
ghost use Rattle.enc_base.specs.Tables.{enc_map};
ghost use Rattle.enc_rows.specs.Layout.{rows_of};
ghost use Rattle.enc_delta.specs.Delta.{listed, place_in};
ghost use Rattle.enc_delta.specs.Seen.{IsRising};
ghost use Rattle.enc_delta.specs.Starts.{lesser_in, IsCutIn, StandsInMap};

use crate::copy::is_module;
use crate::delta::Delta;
use crate::starts::MapRange;
use enc_base::{Steps, Token};
use std::sync::ledger::Ledger;

/// A token's number, for a row of more than three bytes too.
pub(crate) fn number_of(token: Token) -> u64
    ensures { result ≡ number_of token }
{
    u64::from(token.table) * 0x100_0000 + u64::from(token.row)
}

/// How many of some tokens in the order of their numbers have a lesser one.
fn cut(tokens: &[Token], number: u64) -> usize
    requires { IsNonDecreasingBy number_of tokens.now }
    ensures { IsCutBy number_of nil tokens.now number result }
{
    tokens.partition_point(|token| number_of(*token) < number)
}

/// Whether one of some tokens in the order of their numbers has a number.
pub(crate) fn has_number(tokens: &[Token], number: u64) -> bool
    requires { IsNonDecreasingBy number_of tokens.now }
    ensures { result ≡ is_number_of number_of tokens.now number }
{
    let i = cut(tokens, number);
    if i >= tokens.len() {
        return false;
    }
    number_of(tokens[i]) == number
}

impl Delta {
    /// The position of a token among its table's in the map, from 1. None where the map lacks it.
    pub fn place(&self, token: Token) -> Option<u32>
        ensures { result ≡ place_in (listed self.now) token }
    {
        match self.place_counted(token) {
            Some(place) => Some(place),
            None => self.place_sought(token),
        }
    }

    /// The position of a token among its table's in the map, from 1. None where the map lacks it.
    /// One step; the reads of the search aren't counted.
    pub fn place_of<L: Ledger>(&self, token: Token, steps: &mut Steps<L>) -> Option<u32>
        ensures place { result ≡ place_in (listed self.now) token }
        ensures steps { steps.new ≡ steps.old + 1 }
    {
        steps.tick();
        self.place(token)
    }

    /// Where a token stands in the map if from it to the last of a range no row is left out: it is
    /// looked at there, and None where another stands.
    fn counted_back(&self, token: Token, range: MapRange) -> Option<u32>
        requires within { range.end ≤ rows_of self.now.layout enc_map }
        requires few { range.end < 2 ^ 24 }
        ensures { IfSome result (StandsInMap self.now token) }
    {
        if range.start >= range.end {
            return None;
        }
        let last = self.token(range.end - 1).row;
        if token.row > last || last - token.row >= range.end - range.start {
            return None;
        }
        let i = range.end - 1 - (last - token.row);
        let found = self.token(i);
        if found.table != token.table || found.row != token.row {
            return None;
        }
        Some(i)
    }

    /// The position by a search by halves, in a map that rises, of a table that the Module isn't in
    /// and that begins where the range does.
    fn place_by_halves(&self, token: Token, range: MapRange) -> Option<u32>
        requires rising { IsRising self.now }
        requires table { 0 < token.table }
        requires start { range.start ≡ lesser_in self.now (token.table * 0x1000000) }
        requires range { IsCutIn self.now (number_of token) range }
        ensures { result ≡ place_in (listed self.now) token }
    {
        let i = self.below(number_of(token), range);
        if i >= self.map_len() {
            return None;
        }
        let there = self.token(i);
        if there.table != token.table || there.row != token.row {
            return None;
        }
        Some(i - range.start + 1)
    }

    /// The position in a map that rises, where the table's number passes those of a table stream or
    /// the row's has more than three bytes.
    fn place_far(&self, token: Token) -> Option<u32>
        requires rising { IsRising self.now }
        requires table { 0 < token.table }
        ensures { result ≡ place_in (listed self.now) token }
    {
        let end = self.map_len();
        let first = u64::from(token.table) * 0x100_0000;
        let start = self.below(first, MapRange { start: 0, end });
        self.place_by_halves(token, MapRange { start, end })
    }

    /// The position of a token in a map that rises, where from it to its table's last no row is left
    /// out, as most often: two tokens are looked at. None says nothing.
    pub(crate) fn place_counted(&self, token: Token) -> Option<u32>
        ensures { IfSome result (λ place. Some place ≡ place_in (listed self.now) token) }
    {
        if token.table == 0 || token.table >= 64 || !self.rises() {
            return None;
        }
        let range = self.range(token.table);
        match self.counted_back(token, range) {
            Some(i) => Some(i - range.start + 1),
            None => None,
        }
    }

    /// The position by a search: by halves of the table's tokens in a map that rises, and else from
    /// the front.
    pub(crate) fn place_sought(&self, token: Token) -> Option<u32>
        ensures { result ≡ place_in (listed self.now) token }
    {
        if token.table == 0 || !self.rises() {
            return self.place_by_scan(token);
        }
        if token.table >= 64 || token.row > 0xff_ffff {
            return self.place_far(token);
        }
        self.place_by_halves(token, self.range(token.table))
    }

    /// The position by a search from the front, in any map.
    #[tactic(auto, unfolding(crate::specs::Delta::place_in))]
    fn place_by_scan(&self, token: Token) -> Option<u32>
        ensures { result ≡ place_in (listed self.now) token }
    {
        let mut before = 0;
        for i in 0..self.map_len() {
            let listed = self.token(i);
            if is_module(listed) || listed.table != token.table {
                continue;
            }
            if listed.row == token.row {
                return Some(before + 1);
            }
            before += 1;
        }
        None
    }
}
