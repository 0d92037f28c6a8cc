//! The searches for the clause that is next.
ghost use Rattle.std.specs.Prelude.{◌≡◌, ◌<◌, ◌^◌, length};
ghost use Rattle.enc_unwind.specs.Search.{catch_among, is_handled as lies_in_handler, next_among, handlers_of};

use crate::catches::Catches;
use crate::handles::Handles;
use crate::runs::Runs;
use crate::thrown::Thrown;
use crate::walk::first_clause;
use crate::way_out::WayOut;
use enc_opcodes::CodeRef;
use enc_plain::ModuleView;

/// The number, from 0, of the first catch clause that protects the instruction at an offset and takes
/// a thrown object: None where there is none, or where the body holds no value on its stack
/// (ECMA-335 I.12.4.2.5). It takes no memory.
#[tactic(auto, unfolding(crate::specs::Search::catch_among))]
pub fn catch_in<V: ModuleView>(
    view: &V,
    code: &CodeRef<'_>,
    offset: u32,
    thrown: Thrown,
) -> Option<u32>
    requires { length code.now.sections.now < 2 ^ 32 }
    ensures { result ≡ catch_among (V.meaning view.now) code.now.max (handlers_of code.now.sections.now) offset thrown }
{
    if code.max == 0 {
        return None;
    }
    first_clause(
        code.sections,
        &Catches {
            view,
            offset,
            thrown,
        },
    )
}

/// The number, from 0, of the first clause behind the last one tried that runs on the way out from an
/// offset, None where there is none (ECMA-335 I.12.4.2.5, III.3.46). It takes no memory.
#[tactic(auto, unfolding(crate::specs::Search::next_among))]
pub fn next_handler(code: &CodeRef<'_>, past: Option<u32>, offset: u32, stop: WayOut) -> Option<u32>
    requires { length code.now.sections.now < 2 ^ 32 }
    ensures { result ≡ next_among (handlers_of code.now.sections.now) past offset stop }
{
    first_clause(code.sections, &Runs { past, offset, stop })
}

/// Whether an offset lies in the handler of a clause (ECMA-335 II.25.4.6). It takes no memory.
pub fn is_handled(code: &CodeRef<'_>, offset: u32) -> bool
    requires { length code.now.sections.now < 2 ^ 32 }
    ensures { result ≡ lies_in_handler offset (handlers_of code.now.sections.now) }
{
    first_clause(code.sections, &Handles { offset }).is_some()
}
