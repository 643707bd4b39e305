// Lines in a session.
ghost use Rattle.std.specs.Prelude.{◌≡◌, ◌≤◌, ◌++◌, length, OnOk};
ghost use Rattle.systems.specs.Outcomes.{answer_of};
ghost use Rattle.lines.specs.Spelling.{largest, most};
ghost use Rattle.sessions.specs.Tables.{empty};
ghost use Rattle.sessions.specs.Views.{system_of, table_of};
ghost use Rattle.logs.specs.Answers.{line_spelled, spelled};
ghost use Rattle.logs.specs.Pieces.{lines_ahead};
ghost use Rattle.logs.specs.Serving.{logged, offer_of, after_offer, reply as replied, state_shown, says_in, goes_in, served};

use crate::numbers::number_at;
use crate::progress::Progress;
use lines::line::Line;
use lines::loggable::Loggable;
use lines::tag::Tag;
use sessions::cell::Cell;
use sessions::session::Session;
use std::alloc::AllocError;
use systems::judge::judge;
use systems::outcome::{Answer, Refusal};

// A session, and the system that it is on.
#[derive(Drop)]
struct Serving<'c, Y: Loggable> {
    system: &'c Y,
    session: Session<'c, 'c, Y>,
    ghost same: { system_of Y.meaning session ≡ Y.meaning system.now },
}

// That a call keeps the system is a clause of each, as it relates two moments.
impl<Y: Loggable> Serving<'_, Y> {
    // Offers the state that the numbers are; numbers that are no state do not fit.
    fn offer(&mut self, numbers: &[u32]) -> Answer
        ensures answer { result ≡ answer_of (offer_of (logged Y.meaning Y.numbers Y.restored self.old.system.now) (table_of self.old.session) (Y.restored self.old.system.now numbers.now)) }
        ensures system { self.new.system ≡ self.old.system }
        ensures after { table_of self.new.session ≡ after_offer (logged Y.meaning Y.numbers Y.restored self.old.system.now) (table_of self.old.session) (Y.restored self.old.system.now numbers.now) }
    {
        match self.system.state_of(numbers) {
            Some(state) => self.session.offer(state),
            None => Refusal::Unfit.into(),
        }
    }

    // Makes the call that the line asks for.
    fn reply(&mut self, line: &Line) -> Answer
        ensures answer { result ≡ replied (logged Y.meaning Y.numbers Y.restored self.old.system.now) (table_of self.old.session) line.now.0 line.now.1 }
        ensures system { self.new.system ≡ self.old.system }
        ensures after { table_of self.new.session ≡ goes_in (logged Y.meaning Y.numbers Y.restored self.old.system.now) (table_of self.old.session) line.now.0 line.now.1 }
    {
        let numbers = line.numbers();
        // One match says what each tag asks for; a table of functions is no plainer.
        match line.tag() {
            Tag::Offr => self.offer(numbers),
            Tag::Setl => self.session.settle(number_at(numbers, 0) as usize),
            Tag::Show => self.session.show(number_at(numbers, 0) as usize).0,
            Tag::Verd => self.session.verdict(),
            Tag::Runs => judge(self.system, numbers),
            Tag::Line => Refusal::NotALine.into(),
            _ => Refusal::OutOfTurn.into(),
        }
    }

    // The state that a SHOW of a place of the table asks for.
    fn shown(&self, line: &Line) -> Option<Y::State>
        ensures { result ≡ state_shown (logged Y.meaning Y.numbers Y.restored self.now.system.now) (table_of self.now.session) line.now.0 line.now.1 }
    {
        if line.tag() != Tag::Show {
            return None;
        }
        let ((number, _), state) = self.session.show(number_at(line.numbers(), 0) as usize);
        (number == 0).then_some(state)
    }

    // Answers one line.
    fn serve_line(&mut self, progress: &mut Progress, line: &Line) -> Result<(), AllocError>
        requires choices { (Y.meaning self.old.system.now).count ≤ largest }
        requires few { length line.now.1 ≤ most }
        ensures log { OnOk result (progress.new.log.items ≡ progress.old.log.items ++ line_spelled (says_in (logged Y.meaning Y.numbers Y.restored self.old.system.now) (table_of self.old.session) line.now.0 line.now.1)) }
        ensures reader { progress.new.reader ≡ progress.old.reader }
        ensures system { self.new.system ≡ self.old.system }
        ensures after { table_of self.new.session ≡ goes_in (logged Y.meaning Y.numbers Y.restored self.old.system.now) (table_of self.old.session) line.now.0 line.now.1 }
    {
        if let Some(state) = self.shown(line) {
            return progress.note_state(self.system, &state);
        }
        let answer = self.reply(line);
        progress.note(line.tag(), answer)
    }

    // Answers lines to the end.
    fn serve(&mut self, progress: &mut Progress) -> Result<(), AllocError>
        requires { (Y.meaning self.old.system.now).count ≤ largest }
        ensures { OnOk result (progress.new.log.items ≡ progress.old.log.items ++ spelled (served (logged Y.meaning Y.numbers Y.restored self.old.system.now) (table_of self.old.session) (lines_ahead progress.old.reader))) }
    {
        while let Some(line) = progress.next_line() {
            self.serve_line(progress, &line)?;
        }
        Ok(())
    }
}

// Opens a session on the system over the cells, and answers lines in it to the end.
pub(crate) fn serve_session<'c, Y: Loggable>(
    progress: &mut Progress,
    system: &'c Y,
    cells: &'c mut [Cell<Y::State>],
) -> Result<(), AllocError>
    requires { (Y.meaning system.now).count ≤ largest }
    ensures { OnOk result (progress.new.log.items ≡ progress.old.log.items ++ spelled (served (logged Y.meaning Y.numbers Y.restored system.now) (empty cells.old) (lines_ahead progress.old.reader))) }
{
    let session = Session::open(system, cells);
    let mut serving = Serving { system, session };
    serving.serve(progress)
}
