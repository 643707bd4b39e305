// A plant's state: a record for each of the tasks that a plant can have.
ghost use Rattle.std.specs.Prelude.{◌≡◌, ◌<◌, slice_set};
ghost use Rattle.plants.specs.Limits.{most_tasks};
ghost use Rattle.plants.specs.Records.{phase_number, phase_in, released, readied, grown_by, finished, at, Low};

use crate::layout::MOST_TASKS;
use std::error::Error;
use std::fmt;

// How far a task has come.
#[derive(Clone, Copy, Debug, PartialEq, Eq)]
pub enum Phase {
    // not released yet
    Before,
    // finished, and not released again
    Done,
    // released, and waiting for what it needs
    Held,
    // released, with all that it needs
    Ready,
}

// A number that is no phase's. An error of this crate, with a text of its own: one shared with the
// policies would be no plainer.
#[derive(Clone, Copy, Debug, PartialEq, Eq)]
pub struct UnknownPhase(pub u32);

impl fmt::Display for UnknownPhase {
    fn fmt<W: fmt::Write>(&self, f: &mut fmt::Formatter<W>) -> fmt::Result {
        write!(f, "no phase has number {}", self.0)
    }
}

impl Error for UnknownPhase {}

// Before is 0, done 1, held 2 and ready 3.
impl From<Phase> for u32 {
    ghost from_gives = { λ phase number. number ≡ phase_number phase };

    fn from(phase: Phase) -> u32 {
        phase as u32
    }
}

impl TryFrom<u32> for Phase {
    type Error = UnknownPhase;

    ghost try_from_gives = { λ number phase. phase ≡ phase_in number };

    fn try_from(number: u32) -> Result<Phase, UnknownPhase> {
        match number {
            0 => Ok(Phase::Before),
            1 => Ok(Phase::Done),
            2 => Ok(Phase::Held),
            3 => Ok(Phase::Ready),
            _ => Err(UnknownPhase(number)),
        }
    }
}

// What a state holds of one task.
#[derive(Clone, Copy, Debug, PartialEq, Eq)]
pub struct Record {
    pub phase: Phase,
    // ticks since the last release or, before the first one, since the start
    pub since: u32,
    // ticks for which the task has run since it was released
    pub run: u32,
    // ticks for which it has been ready
    pub waited: u32,
}

// Four zeros.
pub(crate) const BLANK: Record = Record {
    phase: Phase::Before,
    since: 0,
    run: 0,
    waited: 0,
};

// A plain table of records, by a rule of the project.
#[derive(Clone, Copy, Debug, PartialEq, Eq)]
pub struct PlantState {
    pub records: [Record; MOST_TASKS],
}

// By a rule of the project each call changes the record of task i through &mut self, and no other. That i is the number
// of a task is a clause of each, since the rules count with numbers.
impl PlantState {
    pub(crate) fn release(&mut self, i: usize)
        requires { i < most_tasks }
        ensures { self.new.records ≡ slice_set self.old.records i released }
    {
        self.records[i] = Record {
            phase: Phase::Held,
            ..BLANK
        };
    }

    pub(crate) fn ready(&mut self, i: usize)
        requires { i < most_tasks }
        ensures { self.new.records ≡ slice_set self.old.records i (readied (at self.old.records i)) }
    {
        self.records[i].phase = Phase::Ready;
    }

    // One tick passes for a task that runs or does not.
    pub(crate) fn grow(&mut self, i: usize, runs: bool)
        requires { (i < most_tasks) × (Low (at self.old.records i)) }
        ensures { self.new.records ≡ slice_set self.old.records i (grown_by runs (at self.old.records i)) }
    {
        let record = &mut self.records[i];
        record.since += 1;
        if record.phase == Phase::Ready {
            record.waited += 1;
        }
        if runs {
            record.run += 1;
        }
    }

    pub(crate) fn finish(&mut self, i: usize)
        requires { i < most_tasks }
        ensures { self.new.records ≡ slice_set self.old.records i (finished (at self.old.records i)) }
    {
        self.records[i] = Record {
            phase: Phase::Done,
            run: 0,
            waited: 0,
            ..self.records[i]
        };
    }
}
