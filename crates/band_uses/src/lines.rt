//! The lines of a script.
ghost use Rattle.std.specs.Prelude.{◌↔◌, IsTrue};
ghost use Rattle.band_script.specs.declared.call.Call.{Call as TheCall};
ghost use Rattle.band_script.specs.Grammar.{IsLine};

use band_script::parse_line;

/// Tells whether a line is malformed.
pub fn is_malformed(line: &[u8]) -> bool
    ensures { IsTrue result ↔ ((call : TheCall) → IsLine line.now call → ⊥) }
{
    parse_line(line).is_none()
}
