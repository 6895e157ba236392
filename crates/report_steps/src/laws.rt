ghost use Rattle.report_steps.specs.Recovering.{RecoveryIsSeenWhole};
ghost use Rattle.report_steps.specs.Report.{ReportTellsEachImage};
ghost use Rattle.report_steps.specs.TakeOver.{TakeOverKeepsImages, TakeOverMeetsEachBlock};

/// A law: what a report tells of each block is what its instance has of it.
pub fn a_report_tells_each_image()
    ensures { ReportTellsEachImage }
{}

/// A law: an instance that hasn't taken over yet has of each block afterwards what the Thaw has made of it.
pub fn a_take_over_meets_each_block()
    ensures { TakeOverMeetsEachBlock }
{}

/// A law: a take-over keeps each current image.
pub fn a_take_over_keeps_images()
    ensures { TakeOverKeepsImages }
{}

/// A law: what is seen to be read, closed or rebuilt as a whole is so of each dead thread, and of each block of the disk.
pub fn a_recovery_is_seen_whole()
    ensures { RecoveryIsSeenWhole }
{}
