//! Numbers of more than 64 bits in a text.

ghost use Rattle.std.specs.Prelude.{◌≡◌, ◌∷◌, ◌++◌, OnOk, decimal};
ghost use Rattle.trace_text.specs.declared.limits.TheConstants.{SPACE};

use std::alloc::{AllocError, Global};
use trace_text::text::Text;

/// Writes one more field of the line.
pub fn write_wide(alloc: Global, text: &mut Text, number: u128) -> Result<(), AllocError>
    ensures { OnOk result (text.new ≡ text.old ++ SPACE ∷ decimal number) }
{
    let digits = format!(in alloc; "{number}")?;
    text.word(digits.as_str())
}
