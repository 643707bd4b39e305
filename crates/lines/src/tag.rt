// The tags of lines.
ghost use Rattle.std.specs.Prelude.{◌≡◌};
ghost use Rattle.lines.specs.Spelling.{letters, counts};
ghost use Rattle.lines.specs.Reading.{tags, tag_of};

use crate::line::MOST;

// How many letters a tag has.
pub(crate) const LETTERS: usize = 4;

#[derive(Clone, Copy, Debug, PartialEq, Eq)]
pub enum Tag {
    Plnt,
    Chrt,
    Inpt,
    Fixd,
    Verd,
    Step,
    Setl,
    Show,
    Rsrc,
    Lead,
    Task,
    Offr,
    Runs,
    // written in place of what is not a line, and never read
    Line,
}

const TAGS: [Tag; 14] = [
    Tag::Plnt,
    Tag::Chrt,
    Tag::Inpt,
    Tag::Fixd,
    Tag::Verd,
    Tag::Step,
    Tag::Setl,
    Tag::Show,
    Tag::Rsrc,
    Tag::Lead,
    Tag::Task,
    Tag::Offr,
    Tag::Runs,
    Tag::Line,
];

impl Tag {
    // The letters that spell this tag. No `From`: at a call `into()` is no plainer than the name.
    pub(crate) fn name(self) -> [u8; LETTERS]
        ensures { result ≡ letters self }
    {
        match self {
            Tag::Plnt => *b"PLNT",
            Tag::Chrt => *b"CHRT",
            Tag::Inpt => *b"INPT",
            Tag::Fixd => *b"FIXD",
            Tag::Verd => *b"VERD",
            Tag::Step => *b"STEP",
            Tag::Setl => *b"SETL",
            Tag::Show => *b"SHOW",
            Tag::Rsrc => *b"RSRC",
            Tag::Lead => *b"LEAD",
            Tag::Task => *b"TASK",
            Tag::Offr => *b"OFFR",
            Tag::Runs => *b"RUNS",
            Tag::Line => *b"LINE",
        }
    }

    // Whether a line of this tag may have so many numbers.
    pub(crate) fn allows(self, count: usize) -> bool
        ensures { result ≡ counts self count }
    {
        match self {
            Tag::Plnt | Tag::Chrt | Tag::Inpt | Tag::Fixd | Tag::Verd => count == 0,
            Tag::Step | Tag::Setl | Tag::Show => count == 1,
            Tag::Rsrc => count == 2,
            Tag::Lead => count == 3,
            Tag::Task => count == 9,
            Tag::Offr | Tag::Runs => count <= MOST,
            Tag::Line => false,
        }
    }

    // The tag that the bytes spell. No `TryFrom`: its error would be dropped at the one call, which is no plainer.
    pub(crate) fn of(name: &[u8; LETTERS]) -> Option<Tag>
        ensures { result ≡ tag_of name.now tags }
    {
        TAGS.iter().copied().find(|tag| *name == tag.name())
    }
}
