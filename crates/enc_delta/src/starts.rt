//! Where the tokens of each table begin in EncMap, for a map that rises.
ghost use Rattle.std.specs.Prelude.{◌≡◌, IsTrue};
ghost use Rattle.enc_delta.specs.Delta.{delta_source};
ghost use Rattle.enc_delta.specs.Seen.{IsDeltaOpened, IsRising};
ghost use Rattle.enc_delta.specs.Starts.{lesser_in, IsCutIn, AreTableStarts};

use crate::open::{Opened, number_at};
use enc_base::tables::ENC_MAP;

/// Some tokens of EncMap: those from `start` on, from 0, up to `end`.
#[derive(Clone, Copy)]
pub struct MapRange {
    pub start: u32,
    pub end: u32,
}

/// How many tokens of the map have a number less than this one, found by halves of a range that the
/// answer lies in.
pub(crate) fn lesser_in(
    bytes: &[u8],
    il: &[u8],
    opened: &Opened,
    number: u64,
    range: MapRange,
) -> u32
    requires opened { IsDeltaOpened bytes.now opened.now }
    requires rising { IsRising (delta_source bytes.now il.now opened.now.root opened.now.tables) }
    requires range { IsCutIn (delta_source bytes.now il.now opened.now.root opened.now.tables) number range }
    ensures { result ≡ lesser_in (delta_source bytes.now il.now opened.now.root opened.now.tables) number }
{
    let mut low = range.start;
    let mut high = range.end;
    while low < high {
        let middle = low + (high - low) / 2;
        if number_at(bytes, il, opened, middle) < number {
            low = middle + 1;
        } else {
            high = middle;
        }
    }
    low
}

/// Where each table begins in a map that rises.
fn starts_in(bytes: &[u8], il: &[u8], opened: &Opened) -> [u32; 65]
    requires opened { IsDeltaOpened bytes.now opened.now }
    requires rising { IsRising (delta_source bytes.now il.now opened.now.root opened.now.tables) }
    ensures { AreTableStarts (delta_source bytes.now il.now opened.now.root opened.now.tables) result }
{
    let end = opened.tables.count(ENC_MAP);
    let mut starts = [0; 65];
    let mut start = 0;
    for table in 0..65u32 {
        let first = u64::from(table) * 0x100_0000;
        start = lesser_in(bytes, il, opened, first, MapRange { start, end });
        starts[table as usize] = start;
    }
    starts
}

/// Where each table begins in the map, if it rises, and else zeros.
pub(crate) fn starts_of(bytes: &[u8], il: &[u8], opened: &Opened, rises: bool) -> [u32; 65]
    requires opened { IsDeltaOpened bytes.now opened.now }
    requires rising { IsTrue rises
        → IsRising (delta_source bytes.now il.now opened.now.root opened.now.tables) }
    ensures { IsTrue rises
        → AreTableStarts (delta_source bytes.now il.now opened.now.root opened.now.tables) result }
{
    if !rises {
        return [0; 65];
    }
    starts_in(bytes, il, opened)
}
