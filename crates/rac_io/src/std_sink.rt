ghost use Rattle.std.specs.Prelude.{◌≡◌};

use crate::sink::{Put, Sink};
use std::io::Write;

/// A writer of `std` as a sink. Each error of the writer is a fault, an interruption too. It doesn't
/// flush: what the writer took counts as written.
#[derive(Drop)]
pub struct StdSink<W> {
    inner: W,
    faults: u64,
    stalls: u64,
}

impl<W: Write> StdSink<W> {
    /// No fault yet.
    pub fn new(inner: W) -> StdSink<W>
        ensures holds { ⟦<StdSink<W> as Sink>⟧.holds result ≡ W.contents inner }
        ensures faults { ⟦<StdSink<W> as Sink>⟧.faults result ≡ 0 }
        ensures stalls { ⟦<StdSink<W> as Sink>⟧.stalls result ≡ 0 }
    {
        StdSink {
            inner,
            faults: 0,
            stalls: 0,
        }
    }
}

impl<W: Write> Sink for StdSink<W> {
    ghost holds = { λ it. W.contents it.inner };

    ghost faults = { λ it. it.faults };

    ghost stalls = { λ it. it.stalls };

    fn write(&mut self, bytes: &[u8]) -> Put {
        match self.inner.write(bytes) {
            Ok(count) => {
                if count == 0 && !bytes.is_empty() {
                    self.stalls = self.stalls.saturating_add(1);
                }
                Put::Bytes(count)
            }
            Err(_) => {
                self.faults = self.faults.saturating_add(1);
                Put::Failed
            }
        }
    }

    fn faults(&self) -> u64 {
        self.faults
    }
}
