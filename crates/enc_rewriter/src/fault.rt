//! Why a module isn't written.
use enc_base::StreamName;
use enc_meta::BuildFault;
use std::alloc::AllocError;

/// Why a module isn't written: there is no memory, the heap of this name passes its limit, or what is
/// written might pass 2^31 bytes.
#[derive(Clone, Copy, Debug, PartialEq, Eq)]
pub enum RewriteFault {
    Memory,
    TooLarge(StreamName),
    Image,
}

impl From<AllocError> for RewriteFault {
    ghost use Rattle.std.specs.Prelude.{◌≡◌};
    ghost use Rattle.enc_rewriter.specs.declared.fault.RewriteFault.TheVariants.{Memory};

    ghost from_gives = { λ _ e. e ≡ Memory };

    fn from(_error: AllocError) -> RewriteFault {
        RewriteFault::Memory
    }
}

impl From<BuildFault> for RewriteFault {
    ghost use Rattle.std.specs.Prelude.{◌≡◌};
    ghost use Rattle.enc_rewriter.specs.Limits.{rewrite_fault_of};

    ghost from_gives = { λ f e. e ≡ rewrite_fault_of f };

    fn from(fault: BuildFault) -> RewriteFault {
        match fault {
            BuildFault::Memory => RewriteFault::Memory,
            BuildFault::TooLarge(heap) => RewriteFault::TooLarge(heap),
        }
    }
}
