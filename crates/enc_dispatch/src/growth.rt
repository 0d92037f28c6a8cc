//! What comes to an index with rows that are added to its module.
use crate::class_part::ClassPart;
use crate::impl_part::ImplPart;
use crate::locals_part::LocalsPart;
use crate::method_part::MethodPart;
use crate::own_method::OwnMethod;
use enc_base::Token;
use enc_key_map::KeyEntry;

/// What comes to an index with rows that are added to its module: parts that stand behind those that
/// are there, and entries, of which the first of each key counts where the index has none; of the heads
/// of slots the last counts.
#[derive(Drop)]
pub struct Growth {
    pub(crate) classes: Vec<ClassPart>,
    pub(crate) methods: Vec<MethodPart>,
    pub(crate) own: Vec<KeyEntry<OwnMethod>>,
    pub(crate) met: Vec<KeyEntry<OwnMethod>>,
    pub(crate) impls: Vec<KeyEntry<ImplPart>>,
    pub(crate) interfaces: Vec<KeyEntry<Token>>,
    pub(crate) heads: Vec<KeyEntry<u32>>,
    pub(crate) links: Vec<Option<u32>>,
    pub(crate) locals: Vec<LocalsPart>,
}
