//! What an event tells its caller of what came of it.
ghost use Rattle.std.specs.Prelude.{◌≡◌};
ghost use Rattle.group_world.specs.Happened.{TellsCame};
ghost use Rattle.group_world.specs.Plays.{came_of};

use crate::came::Came;
use std::alloc::Global;
use values::{Answer, AnswerList, ClientId, Report};

/// What came of an event.
#[derive(Debug, Drop)]
pub struct Happened {
    /// Whether the group refused it.
    pub refused: bool,
    /// Whether a replica halted in it.
    pub halted: bool,
    /// The answers that came in it.
    pub answers: NumberedAnswers,
    /// What the client reports that heard an answer.
    pub report: Option<Report>,
}

/// The answers of one event, numbered over the run.
#[derive(Debug, Drop)]
pub struct NumberedAnswers {
    first: u64,
    answers: AnswerList,
}

impl NumberedAnswers {
    /// The number of the first one, from 1. Where there is none, it is the number of the next answer of the run.
    pub fn first(&self) -> u64
        ensures { result ≡ self.now.first }
    {
        self.first
    }

    /// The answers in the order of their numbers: the client, the number of its request, and the answer.
    pub fn as_slice(&self) -> &[(ClientId, u64, Answer)]
        ensures { result.now ≡ self.now.answers }
    {
        self.answers.as_slice()
    }
}

impl Happened {
    /// What came, where the next answer of the run has this number.
    pub(crate) fn new(alloc: Global, came: Came, first: u64) -> Happened
        ensures { TellsCame (came_of came) first result }
    {
        let mut happened = Happened {
            refused: false,
            halted: false,
            answers: NumberedAnswers {
                first,
                answers: AnswerList::new(alloc),
            },
            report: None,
        };
        match came {
            Came::Refused(_) => happened.refused = true,
            Came::Replied(_, batch) => {
                let batch = Box::into_inner(batch);
                happened.halted = batch.halt.is_some();
                happened.answers.answers = batch.answers;
            }
            Came::Reported(_, report) => happened.report = Some(report),
            Came::Passed => {}
        }
        happened
    }
}
