// A sink over a writer.
ghost use Rattle.std.specs.Prelude.{◌≡◌};

use crate::whole::write_whole;
use crate::{Failed, Sink, raise};
use std::io;
use std::marker::Model;

/// Writes to the writer that it holds, and tells what that one tells: nothing of a standard stream
/// or a file. A contract sees what the writer is known to hold, and the count of faults.
#[derive(Drop)]
pub struct StdSink<W: io::Write + Drop> {
    to: W,
    faults: u64,
}

impl<W: io::Write + Drop> Model for StdSink<W> {
    ghost use Rattle.wg_outside.specs.StdSink.{WriterView};

    ghost Value = { WriterView };

    ghost view = { λ s. record { written = W.contents s.to; faults = s.faults } };
}

impl<W: io::Write + Drop> StdSink<W> {
    /// A sink over that writer, whose count of faults stands at 0.
    pub fn new(to: W) -> StdSink<W>
        ensures { result ≡ record { written = W.contents to; faults = 0 } }
    {
        StdSink { to, faults: 0 }
    }
}

impl<W: io::Write + Drop> Sink for StdSink<W> {
    ghost written = { λ s. s.written };

    ghost faults = { λ s. s.faults };

    fn put(&mut self, bytes: &[u8]) -> Result<(), Failed> {
        if write_whole(&mut self.to, bytes) {
            return Ok(());
        }
        raise(&mut self.faults);
        Err(Failed)
    }
}
