ghost use Rattle.std.specs.Prelude.{◌≡◌};

use crate::source::{Got, Source};
use std::io::Read;

/// A reader of `std` as a source. Each error of the reader is a fault, an interruption
/// too.
#[derive(Drop)]
pub struct StdSource<R> {
    inner: R,
    faults: u64,
}

impl<R: Read> StdSource<R> {
    /// No fault yet.
    pub fn new(inner: R) -> StdSource<R>
        ensures left { ⟦<StdSource<R> as Source>⟧.left result ≡ R.remaining inner }
        ensures faults { ⟦<StdSource<R> as Source>⟧.faults result ≡ 0 }
    {
        StdSource { inner, faults: 0 }
    }
}

impl<R: Read> Source for StdSource<R> {
    ghost left = { λ it. R.remaining it.inner };

    ghost faults = { λ it. it.faults };

    fn read(&mut self, out: &mut [u8]) -> Got {
        match self.inner.read(out) {
            Ok(count) => Got::Bytes(count),
            Err(_) => {
                self.faults = self.faults.saturating_add(1);
                Got::Failed
            }
        }
    }

    fn faults(&self) -> u64 {
        self.faults
    }
}
