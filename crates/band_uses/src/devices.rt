//! Bytes that are written.
ghost use Rattle.std.specs.Prelude.{◌≡◌, IfOk, codes};

use band_base::{BytesOut, SinkError, write_all};
use std::alloc::Global;

/// A sink in memory to which a greeting was written.
pub fn greeting(alloc: Global) -> Result<BytesOut, SinkError>
    ensures { IfOk result (λ sink. sink ≡ codes "hello") }
{
    let mut sink = BytesOut::new(alloc);
    write_all(&mut sink, b"hello")?;
    Ok(sink)
}
