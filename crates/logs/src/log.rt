// One library call: the log of an input.
ghost use Rattle.std.specs.Prelude.{◌≡◌, ◌++◌, take, IfOk, OnOk};
ghost use Rattle.charts.specs.Entries.{begun};
ghost use Rattle.plants.specs.Layouts.{nothing};
ghost use Rattle.logs.specs.Answers.{spelled};
ghost use Rattle.logs.specs.Pieces.{lines_in, lines_ahead};
ghost use Rattle.logs.specs.Turns.{Opening, ChartDraft, PlantDraft};
ghost use Rattle.logs.specs.Log.{answers, answers_left, fresh, most_bytes, log_of, ClosedIsSafe, ClosedIsNeverLate, JudgesRuns, RefusedStays, ReadInPieces, Complete, AnyMemory};

use crate::drafting::{Drafting, draft_lines};
use crate::opening::{Kind, open};
use crate::progress::Progress;
use crate::serving::serve_session;
use charts::draft::DraftChart;
use plants::draft::DraftPlant;
use sessions::cell::Cell;
use std::alloc::{AllocError, Global};
use systems::system::System;

// The places of the session that FIXD opens.
const PLACES: usize = 256;

// The most bytes of an input that are read; the rest is left.
pub const MOST_BYTES: usize = 60000;

// Answers the lines of a draft, and then of a session on what it is fixed as.
fn draft_log<D: Drafting>(
    heap: Global,
    progress: &mut Progress,
    mut draft: D,
) -> Result<(), AllocError>
    ensures { OnOk result (progress.new.log.items ≡ progress.old.log.items ++ spelled (answers fresh (D.turn draft) (lines_ahead progress.old.reader))) }
{
    if !draft_lines(progress, &mut draft)? {
        return Ok(());
    }
    let system = draft.fixed();
    let blank = Cell {
        state: system.first(),
        settled: false,
    };
    let mut cells = vec![in heap; blank; PLACES]?;
    serve_session(progress, &system, &mut cells)?;
    Ok(())
}

// Answers the lines of the draft that has begun, if one has, and of its session.
fn begun_log(heap: Global, kind: Option<Kind>, progress: &mut Progress) -> Result<(), AllocError>
    ensures { OnOk result (progress.new.log.items ≡ progress.old.log.items ++ spelled (answers_left fresh kind (lines_ahead progress.old.reader))) }
{
    match kind {
        Some(Kind::Plant) => draft_log(heap, progress, DraftPlant::new()),
        Some(Kind::Chart) => draft_log(heap, progress, DraftChart::new()),
        None => Ok(()),
    }
}

// Answers every line of the input.
fn whole(heap: Global, input: &[u8]) -> Result<Vec<u8>, AllocError>
    ensures { IfOk result (λ v. v.items ≡ spelled (answers fresh Opening (lines_in input.now))) }
{
    let mut progress = Progress::new(heap, input);
    let kind = open(&mut progress)?;
    begun_log(heap, kind, &mut progress)?;
    Ok(progress.log)
}

// The bytes of an input that are read.
fn read_part(input: &[u8]) -> &[u8]
    ensures { result.now ≡ take most_bytes input.now }
{
    &input[..input.len().min(MOST_BYTES)]
}

// Turns an input into its log: the spelling of one answer for each of its lines. Where an answer accepts a
// verdict, the plant or chart that the lines before it entered has no bad run, and every run of it can go on.
// Where an answer accepts choices, they are a bad run of it. A line that is refused changes nothing.
pub fn log(heap: Global, input: &[u8]) -> Result<Vec<u8>, AllocError>
    ensures bytes { IfOk result (λ v. v.items ≡ log_of input.now) }
    ensures pieces { ReadInPieces input.now }
    ensures closed { ClosedIsSafe input.now }
    ensures ticks { ClosedIsNeverLate input.now }
    ensures runs { JudgesRuns input.now }
    ensures refused { RefusedStays input.now }
    ensures complete { Complete input.now }
    ensures memory { AnyMemory input.now }
{
    whole(heap, read_part(input))
}
