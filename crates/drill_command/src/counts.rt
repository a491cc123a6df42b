//! What is counted of a drill event by event.
ghost use Rattle.std.specs.Prelude.{◌≡◌};
ghost use Rattle.byte_streams.specs.Causes.{next};
ghost use Rattle.drill_command.specs.Counting.{counted, nothing_counted, with_report};

use group_world::Happened;
use values::Report;

/// How many hearings gave which report, and how often a replica halted.
#[derive(Clone, Copy, Debug, PartialEq, Eq)]
pub(crate) struct Counts {
    pub stored: u64,
    pub recovered: u64,
    pub wrongpin: u64,
    pub deleted: u64,
    pub halts: u64,
}

/// One more. A run has so few events that no count comes to the top of its type.
fn one_more(count: u64) -> u64
    ensures { result ≡ next count }
{
    count.saturating_add(1)
}

impl Counts {
    /// Counts that start at 0.
    pub fn new() -> Counts
        ensures { result ≡ nothing_counted }
    {
        Counts {
            stored: 0,
            recovered: 0,
            wrongpin: 0,
            deleted: 0,
            halts: 0,
        }
    }

    /// Counts what came of one more event.
    pub fn count(&mut self, happened: &Happened)
        ensures { self.new ≡ counted self.old happened.now.halted happened.now.report }
    {
        if happened.halted {
            self.halts = one_more(self.halts);
        }
        if let Some(report) = &happened.report {
            self.count_report(report);
        }
    }

    /// Counts a report.
    fn count_report(&mut self, report: &Report)
        ensures { self.new ≡ with_report self.old report.now }
    {
        match report {
            Report::Stored => self.stored = one_more(self.stored),
            Report::Recovered { secret: _, left: _ } => self.recovered = one_more(self.recovered),
            Report::WrongPin { left: _ } => self.wrongpin = one_more(self.wrongpin),
            Report::Deleted => self.deleted = one_more(self.deleted),
            Report::Missing
            | Report::ExposeError
            | Report::Full { rows: _ }
            | Report::Undecided { last: _ } => {}
        }
    }
}
