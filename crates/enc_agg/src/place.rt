//! Where an entry of a heap stands among generations.

/// Where an entry of a joined heap stands: its generation, 0 for the base, and its offset in that
/// generation's heap; of a GUID its number there, from 1.
#[derive(Clone, Copy, Debug, PartialEq, Eq)]
pub struct HeapPlace {
    pub generation: u32,
    pub offset: u32,
}
