//! An image as the chain that it begins.
ghost use Rattle.std.specs.Prelude.{◌≡◌};
ghost use Rattle.enc_image.specs.Base.{chain_of_base};
ghost use Rattle.enc_image.specs.Begun.{begun_means, begun_tells, begun_joins};

use crate::image::Image;
use enc_meta::{Heap, HeapLengths};
use enc_plain::ChainView;

impl ChainView for Image {
    ghost chain = { chain_of_base };

    #[tactic(auto, unfolding(crate::specs::Base::chain_of_base))]
    fn generations(&self) -> u32 {
        1
    }

    #[tactic(auto, unfolding(crate::specs::Base::chain_of_base, enc_meta::specs::Heaps::nil_guid))]
    fn enc_id(&self, generation: u32) -> [u8; 16] {
        let _ = generation;
        [0; 16]
    }

    #[tactic(auto, using(enc_meta::proofs::JoinedLengths::lengths_alone), unfolding(crate::specs::Base::chain_of_base))]
    fn lengths(&self) -> HeapLengths {
        Image::lengths(self)
    }

    #[tactic(auto, using(enc_meta::proofs::Alone::heap_alone), unfolding(crate::specs::Base::chain_of_base))]
    fn entry_at(&self, heap: Heap, offset: u32) -> Option<&[u8]> {
        self.heaps().at(heap, offset)
    }

    #[tactic(auto, using(enc_meta::proofs::Alone::text_alone), unfolding(crate::specs::Base::chain_of_base))]
    fn has_text(&self, offset: u32) -> bool {
        self.heaps().has_text(offset)
    }

    #[tactic(auto, using(enc_meta::proofs::Alone::guid_alone), unfolding(crate::specs::Base::chain_of_base))]
    fn guid_at(&self, k: u32) -> Option<[u8; 16]> {
        self.heaps().guid(k)
    }

    ghost means = { begun_means };

    ghost tells = { begun_tells };

    ghost joins = { begun_joins };
}
