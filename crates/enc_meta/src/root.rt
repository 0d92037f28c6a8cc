//! The metadata root and its stream headers (ECMA-335 II.24.2.1, II.24.2.2).
ghost use Rattle.std.specs.Prelude.{◌≡◌, ◌+◌, ◌≤◌, length, IfOk};
ghost use Rattle.enc_base.specs.Order.{or_else};
ghost use Rattle.enc_meta.specs.Root.{root_with, root_of, AreWithin};

use crate::span::Span;
use crate::streams::Streams;
use enc_base::{Code, Place, Refusal};

/// The streams of a metadata root, each by where it stands in the root. A heap that isn't there has
/// length 0.
#[derive(Clone, Copy, Debug, PartialEq, Eq)]
pub struct Root {
    /// The table stream, `#~` or `#-`.
    pub tables: Span,
    /// It is `#-`.
    pub uncompressed: bool,
    /// A stream `#JTD` is there, so all row indices have four bytes.
    pub jtd: bool,
    pub strings: Span,
    pub users: Span,
    pub blobs: Span,
    pub guids: Span,
    pub pdb: Option<Span>,
}

/// The first span, and else the second.
fn either(first: Option<Span>, second: Option<Span>) -> Option<Span>
    ensures { result ≡ or_else first second }
{
    match first {
        Some(span) => Some(span),
        None => second,
    }
}

/// The root with these streams.
#[tactic(auto, unfolding(crate::specs::Root::root_with))]
fn root_with(streams: &Streams<'_>) -> Root
    ensures { result ≡ root_with streams.now }
{
    let nowhere = Span { start: 0, len: 0 };
    let compressed = streams.span_of("#~".as_bytes());
    Root {
        tables: either(compressed, streams.span_of("#-".as_bytes())).unwrap_or(nowhere),
        uncompressed: streams.stands("#-".as_bytes()),
        jtd: streams.stands("#JTD".as_bytes()),
        strings: streams.span_of("#Strings".as_bytes()).unwrap_or(nowhere),
        users: streams.span_of("#US".as_bytes()).unwrap_or(nowhere),
        blobs: streams.span_of("#Blob".as_bytes()).unwrap_or(nowhere),
        guids: streams.span_of("#GUID".as_bytes()).unwrap_or(nowhere),
        pdb: streams.span_of("#Pdb".as_bytes()),
    }
}

/// The metadata root in the bytes, which begin with its magic and end with its last stream. F1 where
/// the root's header isn't good or the streams' headers don't stand whole in the bytes (II.24.2.1,
/// II.24.2.2). F2 at the first stream of a known name that stands twice or reaches behind the
/// bytes, and at `#~` where not exactly one of `#~` and `#-` is there.
#[tactic(auto, unfolding(crate::specs::Root::root_of, crate::specs::Root::root_in, crate::specs::Root::root_or_fault))]
pub fn read_root(bytes: &[u8]) -> Result<Root, Refusal>
    ensures root { result ≡ root_of bytes.now }
    ensures within { IfOk result (λ root. AreWithin bytes.now root) }
{
    let Some(streams) = Streams::of(bytes) else {
        return Err(Refusal {
            code: Code::F(1),
            place: Place::Root,
        });
    };
    match streams.fault(bytes.len()) {
        Some(which) => Err(Refusal {
            code: Code::F(2),
            place: Place::Stream(which),
        }),
        None => Ok(root_with(&streams)),
    }
}
