//! A refusal of a file by numbers, as C sees it.
ghost use Rattle.std.specs.Prelude.{◌≡◌};
ghost use Rattle.enc_c.specs.Refusals.{letter_of, rule_of, number_of_stream, numbers_at, numbers_of, placed_numbers, code_by, stream_by, place_by, refusal_by};

use enc_base::{Code, Place, Refusal, StreamName, Token};

/// A refusal. Where the place has no stream, table, column, row, entry of the log or edit, that is 0.
#[repr(C)]
#[derive(Clone, Copy)]
pub struct RefusalNumbers {
    /// `F` or `E`; `J`, `L` or `G` where it isn't of a file.
    pub letter: u8,
    pub rule: u8,
    /// The kind of the place.
    pub place: u8,
    pub stream: u8,
    pub table: u8,
    pub column: u8,
    pub row: u32,
    /// From 1.
    pub entry: u32,
}

fn letter_of(code: Code) -> u8
    ensures { result ≡ letter_of code }
{
    match code {
        Code::F(_) => b'F',
        Code::E(_) => b'E',
    }
}

fn rule_of(code: Code) -> u8
    ensures { result ≡ rule_of code }
{
    match code {
        Code::F(rule) | Code::E(rule) => rule,
    }
}

/// The number of a stream.
pub fn number_of_stream(name: StreamName) -> u8
    ensures { result ≡ number_of_stream name }
{
    match name {
        StreamName::Strings => 0,
        StreamName::Users => 1,
        StreamName::Blobs => 2,
        StreamName::Guids => 3,
        StreamName::Compressed => 4,
        StreamName::Uncompressed => 5,
        StreamName::Pdb => 6,
        StreamName::Jtd => 7,
    }
}

/// The stream with a number; None where none has it.
pub fn stream_by(number: u32) -> Option<StreamName>
    ensures { result ≡ stream_by number }
{
    match number {
        0 => Some(StreamName::Strings),
        1 => Some(StreamName::Users),
        2 => Some(StreamName::Blobs),
        3 => Some(StreamName::Guids),
        4 => Some(StreamName::Compressed),
        5 => Some(StreamName::Uncompressed),
        6 => Some(StreamName::Pdb),
        7 => Some(StreamName::Jtd),
        _ => None,
    }
}

/// A place of these numbers.
fn placed(code: Code, place: u8, stream: u8, token: Token, column: u8, entry: u32) -> RefusalNumbers
    ensures { result ≡ placed_numbers code place stream token.table column token.row entry }
{
    RefusalNumbers {
        letter: letter_of(code),
        rule: rule_of(code),
        place,
        stream,
        table: token.table,
        column,
        row: token.row,
        entry,
    }
}

/// A place without numbers.
fn bare(code: Code, place: u8) -> RefusalNumbers
    ensures { result ≡ placed_numbers code place 0 0 0 0 0 }
{
    placed(code, place, 0, Token { table: 0, row: 0 }, 0, 0)
}

/// The numbers of a refusal.
#[tactic(auto, unfolding(crate::specs::Refusals::numbers_of))]
pub fn numbers_of(refusal: Refusal) -> RefusalNumbers
    ensures { result ≡ numbers_of refusal }
{
    let code = refusal.code;
    let none = Token { table: 0, row: 0 };
    match refusal.place {
        Place::Root => bare(code, 0),
        Place::Stream(name) => placed(code, 1, number_of_stream(name), none, 0, 0),
        Place::Headers => bare(code, 2),
        Place::Cli => bare(code, 3),
        Place::Metadata => bare(code, 4),
        Place::Resources => bare(code, 5),
        Place::Debug => bare(code, 6),
        Place::Tables => bare(code, 7),
        Place::Pdb => bare(code, 8),
        Place::Row(token) => placed(code, 9, 0, token, 0, 0),
        Place::Cell(token, column) => placed(code, 10, 0, token, column, 0),
        Place::Owner(token) => placed(code, 11, 0, token, 0, 0),
        Place::Log(entry) => placed(code, 12, 0, none, 0, entry),
    }
}

fn code_by(letter: u8, rule: u8) -> Option<Code>
    ensures { result ≡ code_by letter rule }
{
    match letter {
        b'F' => Some(Code::F(rule)),
        b'E' => Some(Code::E(rule)),
        _ => None,
    }
}

fn place_by(numbers: RefusalNumbers) -> Option<Place>
    ensures { result ≡ place_by numbers }
{
    let token = Token {
        table: numbers.table,
        row: numbers.row,
    };
    match numbers.place {
        0 => Some(Place::Root),
        1 => Some(Place::Stream(stream_by(u32::from(numbers.stream))?)),
        2 => Some(Place::Headers),
        3 => Some(Place::Cli),
        4 => Some(Place::Metadata),
        5 => Some(Place::Resources),
        6 => Some(Place::Debug),
        7 => Some(Place::Tables),
        8 => Some(Place::Pdb),
        9 => Some(Place::Row(token)),
        10 => Some(Place::Cell(token, numbers.column)),
        11 => Some(Place::Owner(token)),
        12 => Some(Place::Log(numbers.entry)),
        _ => None,
    }
}

/// The refusal that numbers say; None where they say none.
#[tactic(auto, unfolding(crate::specs::Refusals::refusal_by))]
pub fn refusal_by(numbers: RefusalNumbers) -> Option<Refusal>
    ensures { result ≡ refusal_by numbers }
{
    Some(Refusal {
        code: code_by(numbers.letter, numbers.rule)?,
        place: place_by(numbers)?,
    })
}
