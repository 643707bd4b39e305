// Lines before a draft: the first PLNT or CHRT begins one.
ghost use Rattle.std.specs.Prelude.{◌≡◌, ◌++◌, IfOk};
ghost use Rattle.logs.specs.Answers.{spelled};
ghost use Rattle.logs.specs.Pieces.{lines_ahead};
ghost use Rattle.logs.specs.Turns.{Memory, Opening, kind as kind_of_tag, opening as opened};
ghost use Rattle.logs.specs.Log.{answers, answers_left};

use crate::progress::Progress;
use lines::tag::Tag;
use std::alloc::AllocError;
use systems::outcome::{Outcome, Refusal, answer};

// What can be entered.
#[derive(Clone, Copy)]
pub(crate) enum Kind {
    Plant,
    Chart,
}

// What a tag begins the draft of; an `Option`, since most tags begin none.
fn kind_of(tag: Tag) -> Option<Kind>
    ensures { result ≡ kind_of_tag tag }
{
    match tag {
        Tag::Plnt => Some(Kind::Plant),
        Tag::Chrt => Some(Kind::Chart),
        _ => None,
    }
}

// What a line before a draft comes to.
fn outcome(kind: Option<Kind>, tag: Tag) -> Outcome
    ensures { result ≡ opened kind tag }
{
    match (kind, tag) {
        (Some(_), _) => Ok(0),
        (None, Tag::Line) => Err(Refusal::NotALine),
        (None, _) => Err(Refusal::OutOfTurn),
    }
}

// Answers lines until a draft begins, and says of what.
pub(crate) fn open(progress: &mut Progress) -> Result<Option<Kind>, AllocError>
    ensures { IfOk result (λ k. (cells : Memory) → progress.new.log.items ++ spelled (answers_left cells k (lines_ahead progress.new.reader)) ≡ progress.old.log.items ++ spelled (answers cells Opening (lines_ahead progress.old.reader))) }
{
    while let Some(line) = progress.next_line() {
        let tag = line.tag();
        let kind = kind_of(tag);
        progress.note(tag, answer(outcome(kind, tag)))?;
        if kind.is_some() {
            return Ok(kind);
        }
    }
    Ok(None)
}
