//! What asking for lent pages makes of a device, whatever device it is.

ghost use Rattle.device_pages.specs.Claims.{ReadsAreMade, NothingElseIsDone, ClockCounts, ReadablePagesAreTold, CalmPagesAreTold, FailedWritesAreNotTold, ContentsStay, SparedPagesStay};

/// The calls that succeeded are one read for each page that was given, in order, each with its clock.
pub fn reads_are_made()
    ensures { ReadsAreMade }
{}

/// Nothing was done but reads of pages that were asked for, and reads that failed.
pub fn nothing_else_is_done()
    ensures { NothingElseIsDone }
{}

/// Where each page was given the clock rose by their number.
pub fn clock_counts()
    ensures { ClockCounts }
{}

/// What lent pages hold is told exactly where each of their places can be read.
pub fn readable_pages_are_told()
    ensures { ReadablePagesAreTold }
{}

/// So it is where a crash would leave them as they are.
pub fn calm_pages_are_told()
    ensures { CalmPagesAreTold }
{}

/// Where a write on a lent page has failed, nothing is told of the lent pages.
pub fn failed_writes_are_not_told()
    ensures { FailedWritesAreNotTold }
{}

/// Whatever pages are asked for, the lent pages hold what they held, and are told as they were.
pub fn contents_stay()
    ensures { ContentsStay }
{}

/// Lent pages that later calls spare are told as they were, with the same bytes.
pub fn spared_pages_stay()
    ensures { SparedPagesStay }
{}
