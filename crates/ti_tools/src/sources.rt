//! Why a source is refused, as an error of the tools.
ghost use Rattle.std.specs.Prelude.{◌≡◌, ◌⊎◌};
ghost use Rattle.tools_sources.specs.Sources.{AreTaken, source_texts};
ghost use Rattle.tools_devices.specs.declared.tool_error.ToolError.TheVariants.{Memory};
ghost use Rattle.ti_tools.specs.Sources.{IsToldRefusal};

use tools_devices::ToolError;
use tools_sources::{SourceError, check};

/// Why a source of which nothing could be made is refused; `Memory` if it is not.
pub(crate) fn refusal(source: &[u8]) -> ToolError
    ensures { IsToldRefusal source.now result ⊎ ((result ≡ Memory) × AreTaken (source_texts source.now)) }
{
    match check(source) {
        Ok(()) => ToolError::Memory,
        Err(SourceError::BlockTooLong { line }) => ToolError::BlockTooLong(line),
        Err(SourceError::TooManyBlocks { .. }) => ToolError::TooManyBlocks,
    }
}
