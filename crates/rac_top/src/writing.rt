ghost use Rattle.std.specs.Prelude.{◌≡◌, ◌⊎◌, true};
ghost use Rattle.rac_io.specs.Counts.{Rose};
ghost use Rattle.rac_top.specs.RunEnds.{ReportEnds, is_whole};
ghost use Rattle.rac_top.specs.Runs.{IsWritten};

use crate::exit::End;
use rac_io::{Sink, WriteFault, write_whole};

/// Writes what is told at an end, and gives how the call ends: so, unless the writing failed.
#[tactic(auto, using(crate::proofs::WholeLemmas::reports_itself, crate::proofs::WholeLemmas::whole_written, crate::proofs::WholeLemmas::whole_faultless))]
pub fn write_told<K: Sink>(went: End, text: &[u8], sink: &mut K) -> End
    requires { is_whole went ≡ true }
    ensures end { ReportEnds went result }
    ensures written { IsWritten result text.now (K.holds sink.old) (K.holds sink.new) }
    ensures fault { result ≡ End.WriteFault → Rose (K.faults sink.old) (K.faults sink.new) ⊎ Rose (K.stalls sink.old) (K.stalls sink.new) }
{
    match write_whole(sink, text) {
        Ok(()) => went,
        Err(WriteFault::Failed) => End::WriteFault,
        Err(WriteFault::Stalled) => End::WriteFault,
    }
}
