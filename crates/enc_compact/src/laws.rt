//! What holds of moved modules, as the contract of a function that does nothing.
ghost use Rattle.enc_compact.specs.Laws.{MovedIsSound, MovedPdbIsSound, MovedKnowsWithin, MovedStandsInOrder};

use enc_sigs::moved_laws;
use enc_token_map::moved_body_law;

/// A sound module stays sound, and so does its plain PDB; its children stand in the order of their rows.
pub fn compact_laws()
    ensures sound { MovedIsSound }
    ensures pdb { MovedPdbIsSound }
    ensures within { MovedKnowsWithin }
    ensures order { MovedStandsInOrder }
{
    moved_body_law();
    moved_laws();
}
