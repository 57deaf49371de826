//! Devices that watch their pieces.
ghost use Rattle.std.specs.Prelude.{◌≡◌, ◌<◌, ◌≤◌, length, None, true, IfOk, OnErr, Err};
ghost use Rattle.band_base.specs.Device.{Rose};

use band_base::{BytesIn, BytesOut, Sink, SinkError, Source, SourceFailed};

/// A source that keeps the length of the longest buffer that it was given.
#[derive(Drop)]
pub(crate) struct Measured<'a> {
    pub(crate) bytes: BytesIn<'a>,
    pub(crate) longest: usize,
}

impl Source for Measured<'_> {
    ghost left = { λ _. None };

    ghost faults = { λ _. 0 };

    fn read(&mut self, buf: &mut [u8]) -> Result<usize, SourceFailed> {
        self.longest = self.longest.max(buf.len());
        self.bytes.read(buf)
    }
}

/// A sink that takes each piece whole, and keeps the last byte of each.
#[derive(Drop)]
pub(crate) struct Lasts(pub(crate) BytesOut);

impl Sink for Lasts {
    ghost written = { λ _. None };

    ghost faults = { λ _. 0 };

    ghost grows = { true };

    fn write(&mut self, piece: &[u8]) -> Result<usize, SinkError> {
        self.0.write(&piece[piece.len().saturating_sub(1)..])?;
        Ok(piece.len())
    }
}

/// A sink that has no memory.
#[derive(Drop)]
pub(crate) struct Full;

impl Sink for Full {
    ghost written = { λ _. None };

    ghost faults = { λ _. 0 };

    ghost grows = { true };

    fn write(&mut self, _piece: &[u8]) -> Result<usize, SinkError> {
        Err(SinkError::NoMemory)
    }
}

/// A sink that has no memory for the first piece, and takes all later ones.
#[derive(Drop)]
pub(crate) struct FullOnce {
    pub(crate) later: BytesOut,
    pub(crate) was_full: bool,
}

impl Sink for FullOnce {
    ghost written = { λ _. None };

    ghost faults = { λ _. 0 };

    ghost grows = { true };

    fn write(&mut self, piece: &[u8]) -> Result<usize, SinkError> {
        if !self.was_full {
            self.was_full = true;
            return Err(SinkError::NoMemory);
        }
        self.later.write(piece)
    }
}
