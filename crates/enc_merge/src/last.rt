//! The last two deltas of a chain.
ghost use Rattle.std.specs.Prelude.{◌≡◌, ◌≤◌, ◌<◌, ◌+◌, ◌^◌, length};
ghost use Rattle.enc_base.specs.Numbers.{padded as fours_of};
ghost use Rattle.enc_meta.specs.HeapKinds.{stream_counted};
ghost use Rattle.enc_merged_delta.specs.Held.{shift_of};
ghost use Rattle.enc_merge.specs.Merges.{ShortLast};
ghost use Rattle.enc_merge.specs.Writing.{AreLast};

use enc_agg::Aggregate;
use enc_base::StreamName;
use enc_delta::Delta;
use enc_plain::ChainView;
use std::marker::Model;

/// The last two deltas of an aggregate: the first of the two, and the second.
#[derive(Drop)]
pub(crate) struct Last<'a> {
    pub(crate) agg: &'a Aggregate,
    pub(crate) first: &'a Delta,
    pub(crate) second: &'a Delta,
}

impl<'a> Model for Last<'a> {
    ghost use Rattle.std.specs.Prelude.{drop};
    ghost use Rattle.enc_agg.specs.Extend.{chain_with};
    ghost use Rattle.enc_merge.specs.Writing.{AreLast, Both};

    ghost Value = { Both };

    ghost view = { λ l. record {
      chain = chain_with l.agg.now.base (drop 2 l.agg.now.deltas);
      first = l.first.now;
      second = l.second.now;
    } };

    ghost invariant = { λ l. AreLast l.agg.now (record {
      chain = chain_with l.agg.now.base (drop 2 l.agg.now.deltas);
      first = l.first.now;
      second = l.second.now;
    }) };
}

/// A length with as many bytes more as lead to a multiple of four.
#[tactic(auto, unfolding(enc_base::specs::Numbers::padded))]
pub(crate) fn in_fours(len: usize) -> usize
    requires { len < 2 ^ 32 }
    ensures { result ≡ fours_of len }
{
    (len + 3) / 4 * 4
}

impl<'a> Last<'a> {
    /// Those of an aggregate.
    pub(crate) fn of(agg: &'a Aggregate) -> Last<'a>
        requires two { 2 ≤ length agg.now.deltas }
        requires short { ShortLast agg.now.deltas }
        ensures { AreLast agg.now result }
    {
        agg.follows();
        let newest = agg.generations() - 1;
        let Some(first) = agg.delta(newest - 1) else {
            unreachable!()
        };
        let Some(second) = agg.delta(newest) else {
            unreachable!()
        };
        Last { agg, first, second }
    }

    /// The aggregate whose last two they are.
    pub(crate) fn aggregate(&self) -> &'a Aggregate
        ensures { AreLast result.now self.now }
    {
        self.agg
    }

    /// How far the bodies of the second move: behind the code of the first.
    pub(crate) fn shift(&self) -> u32
        ensures { result ≡ shift_of self.now.first }
    {
        in_fours(self.first.il().len()) as u32
    }

    /// The bytes of a heap of the first that count.
    pub(crate) fn first_heap(&self, stream: StreamName) -> &'a [u8]
        ensures { result.now ≡ stream_counted stream self.now.first.heaps }
    {
        self.first.heaps().bytes(stream)
    }

    /// The bytes of a heap of the second that count.
    pub(crate) fn second_heap(&self, stream: StreamName) -> &'a [u8]
        ensures { result.now ≡ stream_counted stream self.now.second.heaps }
    {
        self.second.heaps().bytes(stream)
    }
}
