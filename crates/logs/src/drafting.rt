// Lines in a draft, of whatever it is a draft.
ghost use Rattle.std.specs.Prelude.{◌≡◌, ◌≤◌, List, [], ◌++◌, IfOk, if◌then◌else◌};
ghost use Rattle.sessions.specs.Tables.{empty};
ghost use Rattle.lines.specs.Spelling.{largest};
ghost use Rattle.lines.specs.declared.tag.Tag.TheVariants.{Fixd};
ghost use Rattle.logs.specs.Answers.{Said, Narrow, is, answered, spelled};
ghost use Rattle.logs.specs.Pieces.{lines_ahead};
ghost use Rattle.logs.specs.Turns.{Turn, PlantDraft, ChartDraft, Memory, says, entered, fixed, task_of};
ghost use Rattle.logs.specs.Serving.{logged, served};
ghost use Rattle.logs.specs.Log.{answers, fresh, new_cells};

use crate::numbers::number_at;
use crate::progress::Progress;
use charts::chart::Chart;
use charts::draft::DraftChart;
use lines::line::Line;
use lines::loggable::Loggable;
use lines::tag::Tag;
use plants::draft::DraftPlant;
use plants::layout::TaskEntry;
use plants::plant::Plant;
use policies::site::SitePolicy;
use std::alloc::AllocError;
use systems::outcome::{Answer, Refusal, answer};

// A draft that lines are entered into, and that is then fixed.
pub(crate) trait Drafting: Drop {
    type Fixed: Loggable + Drop;

    ghost turn: { Self → Turn };

    // Enters a line, whose answer fits its columns; FIXD is answered and enters nothing.
    fn enter(&mut self, line: &Line) -> Answer
        ensures answer { answered line.now.0 result ≡ says (turn self.old) line.now }
        ensures after { turn self.new ≡ entered (turn self.old) line.now }
        ensures narrow { Narrow result };

    // Fixes the draft: the turn after it is a session on what it was fixed as.
    fn fixed(self) -> Self::Fixed
        ensures serves { (lines : List Said) → answers fresh (fixed fresh (turn self)) lines ≡ served (logged Self.Fixed.meaning Self.Fixed.numbers Self.Fixed.restored result) (empty (new_cells (Self.Fixed.meaning result))) lines }
        ensures few { (Self.Fixed.meaning result).count ≤ largest };
}

impl Drafting for DraftChart {
    type Fixed = Chart;

    ghost turn = { λ d. ChartDraft d.entries };

    fn enter(&mut self, line: &Line) -> Answer {
        let numbers = line.numbers();
        // One match says what each tag asks for; a table of functions is no plainer.
        match line.tag() {
            Tag::Step => self.add_step(number_at(numbers, 0)),
            Tag::Inpt => self.add_input(),
            Tag::Lead => self.set_lead(
                number_at(numbers, 0),
                number_at(numbers, 1),
                number_at(numbers, 2),
            ),
            Tag::Fixd => answer(Ok(self.step_count())),
            Tag::Line => Refusal::NotALine.into(),
            _ => Refusal::OutOfTurn.into(),
        }
    }

    fn fixed(self) -> Chart {
        self.fix()
    }
}

// The nine fields of a task, in their order.
fn task_in(numbers: &[u32]) -> TaskEntry
    ensures { result ≡ task_of numbers.now }
{
    TaskEntry {
        offset: number_at(numbers, 0),
        least: number_at(numbers, 1),
        greatest: number_at(numbers, 2),
        best: number_at(numbers, 3),
        worst: number_at(numbers, 4),
        deadline: number_at(numbers, 5),
        class: number_at(numbers, 6),
        resource: number_at(numbers, 7),
        needs: number_at(numbers, 8),
    }
}

impl Drafting for DraftPlant {
    type Fixed = Plant<SitePolicy>;

    ghost turn = { λ d. PlantDraft d.layout };

    fn enter(&mut self, line: &Line) -> Answer {
        let numbers = line.numbers();
        // One match says what each tag asks for; a table of functions is no plainer.
        match line.tag() {
            Tag::Rsrc => self.add_resource(number_at(numbers, 0), number_at(numbers, 1)),
            Tag::Task => self.add_task(task_in(numbers)),
            Tag::Fixd => answer(Ok(self.task_count())),
            Tag::Line => Refusal::NotALine.into(),
            _ => Refusal::OutOfTurn.into(),
        }
    }

    fn fixed(self) -> Plant<SitePolicy> {
        self.fix(SitePolicy)
    }
}

// Whether a line fixes a draft.
fn fixes(tag: Tag) -> bool
    ensures { result ≡ is Fixd tag }
{
    tag == Tag::Fixd
}

// Answers lines until the draft is to be fixed, and says whether it is.
pub(crate) fn draft_lines<D: Drafting>(
    progress: &mut Progress,
    draft: &mut D,
) -> Result<bool, AllocError>
    ensures { IfOk result (λ ready. (cells : Memory) → progress.new.log.items ++ spelled (if ready then answers cells (fixed cells (D.turn draft.new)) (lines_ahead progress.new.reader) else []) ≡ progress.old.log.items ++ spelled (answers cells (D.turn draft.old) (lines_ahead progress.old.reader))) }
{
    while let Some(line) = progress.next_line() {
        let tag = line.tag();
        progress.note(tag, draft.enter(&line))?;
        if fixes(tag) {
            return Ok(true);
        }
    }
    Ok(false)
}
