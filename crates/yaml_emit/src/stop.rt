//! Why printing stops.

use std::alloc::AllocError;

// Why an event was not printed.
#[derive(Clone, Copy, PartialEq, Eq, Drop)]
pub(crate) enum Stop {
    // It may not stand there.
    OutOfPlace,
    // Memory ran out.
    Memory,
}

impl From<AllocError> for Stop {
    ghost use Rattle.std.specs.Prelude.{◌≡◌};
    ghost use Rattle.yaml_emit.specs.declared.stop.Stop.TheVariants.{Memory};

    ghost from_gives = { λ _ stop. stop ≡ Memory };

    fn from(_: AllocError) -> Stop {
        Stop::Memory
    }
}
