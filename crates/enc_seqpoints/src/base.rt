//! What the numbers of a record count from.
ghost use Rattle.std.specs.Prelude.{◌≡◌};
ghost use Rattle.enc_seqpoints.specs.Grammar.{after, opened};

use crate::point::Point;

/// What the numbers of a record count from.
#[derive(Clone, Copy, Debug, PartialEq, Eq)]
pub(crate) struct Base {
    /// The offset of the point before, where there is one.
    pub(crate) offset: Option<u32>,
    /// The document that holds.
    pub(crate) document: u32,
    /// Start line and start column of the last point that isn't hidden.
    pub(crate) start: Option<(u32, u32)>,
}

/// A record of a sequence points blob.
#[derive(Clone, Copy, Debug, PartialEq, Eq)]
pub(crate) enum Record {
    /// The document of the points behind it.
    Document(u32),
    /// A point.
    Sequence(Point),
}

impl Base {
    /// What the first record counts from.
    pub(crate) fn opened(document: u32) -> Base
        ensures { result ≡ opened document }
    {
        Base {
            offset: None,
            document,
            start: None,
        }
    }

    /// What the records behind this one count from.
    #[tactic(auto, unfolding(crate::specs::Grammar::after))]
    pub(crate) fn after(self, record: Record) -> Base
        ensures { result ≡ after self «record» }
    {
        match record {
            Record::Document(document) => Base { document, ..self },
            Record::Sequence(point) => Base {
                offset: Some(point.offset),
                document: point.document,
                start: match point.lines {
                    Some((line, column, _, _)) => Some((line, column)),
                    None => self.start,
                },
            },
        }
    }
}
