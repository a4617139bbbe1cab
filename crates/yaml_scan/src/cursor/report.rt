//! Faults that are found at a place.

use crate::cursor::Cursor;
use crate::{Context, Finding, Problem, Stop};
use yaml_base::Mark;

impl Cursor<'_> {
    // Keeps what is wrong at this place, amid what began at `start`.
    pub(crate) fn fault(&mut self, context: Context, start: Mark, problem: Problem) -> Stop {
        self.found = Some(Finding {
            problem,
            mark: self.mark(),
            context: Some(context),
            context_mark: start,
        });
        Stop
    }

    // Keeps what is wrong at this place, with no context.
    pub(crate) fn bare_fault(&mut self, problem: Problem) -> Stop {
        let mark = self.mark();
        self.found = Some(Finding {
            problem,
            mark,
            context: None,
            context_mark: mark,
        });
        Stop
    }

    // What is wrong with the text, if that was found.
    pub(crate) fn found(&self) -> Option<Finding> {
        self.found
    }
}
