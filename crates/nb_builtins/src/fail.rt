use nb_value::CellError;
use std::alloc::AllocError;

/// Why a call has no value.
#[derive(Debug, Drop)]
pub enum ApplyFail {
    /// The call failed, with this error of the cell.
    Error(CellError),
    /// There was no memory. It says nothing of the call.
    Memory,
}

impl From<AllocError> for ApplyFail {
    ghost use Rattle.std.specs.Prelude.{◌≡◌};
    ghost use Rattle.nb_builtins.specs.declared.fail.ApplyFail.TheVariants.{Memory};

    ghost from_gives = { λ _ e. e ≡ Memory };

    fn from(_refused: AllocError) -> ApplyFail {
        ApplyFail::Memory
    }
}
