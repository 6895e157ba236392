ghost use Rattle.std.specs.Prelude.{◌≡◌, ◌==◌, ◌<◌, find, length, option_copied};
ghost use Rattle.recovery.specs.Base.{newest_past};
ghost use Rattle.recovery.specs.Reports.{frame_of, has_past, is_current, is_held, no_reports, past_in, past_of, pasts_of, report_of, with_report};

use crate::base::newest_past;
use base_types::{BlockNo, InstNo};
use std::marker::Model;
use wire_net::{Frame, Mode, Report};

/// What the instances have reported since the last change of the membership, at most one report each. No instance has a
/// number above 7.
#[derive(Debug, Drop)]
pub struct Reports {
    by_inst: [Option<Report>; 8],
}

impl Model for Reports {
    ghost use Rattle.std.specs.Prelude.{◌≡◌, List, Option, length};
    ghost use Rattle.wire_net.specs.declared.report.Report.{Report};

    ghost Value = { List (Option Report) };

    ghost view = { λ it. it.by_inst };

    ghost invariant = { λ it. length it.by_inst ≡ 8 };
}

impl Reports {
    /// Nobody has reported.
    pub fn new() -> Reports
        ensures { result ≡ no_reports }
    {
        Reports {
            by_inst: [None, None, None, None, None, None, None, None],
        }
    }

    /// Takes what an instance reports, in the place of what it reported before.
    pub fn add(&mut self, inst: InstNo, report: Report)
        ensures { self.new ≡ with_report self.old inst report }
    {
        let place = usize::from(inst.get());
        if place < 8 {
            self.by_inst[place] = Some(report);
        }
    }

    /// What an instance reported; `None` where it hasn't yet.
    pub fn get(&self, inst: InstNo) -> Option<&Report>
        ensures { option_copied result ≡ report_of self.now inst }
    {
        let place = usize::from(inst.get());
        if place < 8 {
            self.by_inst[place].as_ref()
        } else {
            None
        }
    }

    /// Forgets all reports.
    pub fn clear(&mut self)
        ensures { self.new ≡ no_reports }
    {
        *self = Reports::new();
    }

    /// Whether some instance reported a current image of a block.
    pub fn is_held(&self, block: BlockNo) -> bool
        ensures { result ≡ is_held self.now block }
    {
        self.by_inst
            .iter()
            .any(|report| is_current(frame_of(report, block)))
    }

    /// Whether some instance reported a past image of a block.
    pub fn has_past(&self, block: BlockNo) -> bool
        ensures { result ≡ has_past self.now block }
    {
        self.pasts_of(block).iter().any(|past| past.is_some())
    }

    /// The version of each instance's past image of a block.
    pub fn pasts_of(&self, block: BlockNo) -> [Option<u64>; 8]
        ensures { result ≡ pasts_of self.now block }
    {
        self.are_of_eight();
        [
            self.past_at(0, block),
            self.past_at(1, block),
            self.past_at(2, block),
            self.past_at(3, block),
            self.past_at(4, block),
            self.past_at(5, block),
            self.past_at(6, block),
            self.past_at(7, block),
        ]
    }

    // There always are the places of eight instances.
    fn are_of_eight(&self)
        ensures { length self.now ≡ 8 }
    {
        let _all = &self.by_inst;
    }

    fn past_at(&self, place: usize, block: BlockNo) -> Option<u64>
        requires { place < 8 }
        ensures { result ≡ past_of (report_of self.now place) block }
    {
        past_in(frame_of(&self.by_inst[place], block))
    }

    /// The instance that reported the newest past image of a block; of several the lowest.
    pub fn newest_past_of(&self, block: BlockNo) -> Option<InstNo>
        ensures { result ≡ newest_past (pasts_of self.now block) }
    {
        newest_past(&self.pasts_of(block))
    }
}

// What a report says of a block.
fn frame_of(report: &Option<Report>, block: BlockNo) -> Option<&Frame>
    ensures { option_copied result ≡ frame_of report.now block }
{
    match report {
        None => None,
        Some(report) => frame_in(report.frames.as_slice(), block),
    }
}

fn frame_in(frames: &[Frame], block: BlockNo) -> Option<&Frame>
    ensures { option_copied result ≡ find (λ frame. frame.block == block) frames.now }
{
    frames.iter().find(|frame| frame.block.get() == block.get())
}

// Whether this says that there is a current image.
fn is_current(frame: Option<&Frame>) -> bool
    ensures { result ≡ is_current (option_copied frame.entry) }
{
    match frame {
        None => false,
        Some(frame) => match frame.mode {
            Mode::Null => false,
            Mode::Shared | Mode::Exclusive => true,
        },
    }
}

// The version of the past image that this tells of.
fn past_in(frame: Option<&Frame>) -> Option<u64>
    ensures { result ≡ past_in (option_copied frame.entry) }
{
    match frame {
        None => None,
        Some(frame) => frame.past,
    }
}
