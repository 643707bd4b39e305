// What a call comes to, and the pair of plain numbers that answers it.
ghost use Rattle.std.specs.Prelude.{◌≡◌};
ghost use Rattle.std.specs.Result.{is_ok};
ghost use Rattle.systems.specs.Outcomes.{answer_of, refused, accepts};

// Why a call refuses, a closed list. Choices, fields, places and positions are those that docs/RULES.md names.
#[derive(Clone, Copy, Debug, PartialEq, Eq)]
pub enum Refusal {
    // the bytes are not a line
    NotALine,
    // a line that may not stand where it stands
    OutOfTurn,
    // a field is outside its range, or names a step or input that is not entered; fields count from 1
    FieldOutside(u32),
    // a draft takes no more of what was to be added
    NoRoom,
    // this field names a resource or a needed task that is not entered
    NotEntered(u32),
    // the entry and this needed task, the lowest such, have not one number as all their gaps
    GapsUnlike(usize),
    // the state is none of the system's
    Unfit,
    // the state is bad
    Bad,
    // the state stands at this place already
    Listed(usize),
    // the table takes no more states
    Full,
    // the table has no such place
    NoSuchPlace,
    // this choice leads to a bad state
    LeadsToBad(u32),
    // this choice leads to a state that the table lacks
    LeadsOutside(u32),
    // the table lacks the first state
    FirstNotListed,
    // this place, the lowest such, is not settled
    Unsettled(usize),
    // the choice at this position, the first such, is not legal; positions count from 0
    NotLegal(usize),
    // the choices are a run of this length, and its last state is not bad
    EndsNotBad(usize),
    // a number to be written has more digits than a column has room for
    NumberTooLarge,
    // the buffer to write into is shorter than this, the length needed
    BufferShort(usize),
}

// The value that the call promises, or why it refuses.
pub type Outcome = Result<usize, Refusal>;

// A number, 0 for what is accepted, and a value: what every call answers. Plain numbers by a rule of the project: a
// caller lays them beside the numbers of other programs.
pub type Answer = (u32, usize);

// The number of a refusal, and its value or 0.
impl From<Refusal> for Answer {
    ghost from_gives = { λ refusal r. r ≡ refused refusal };

    fn from(refusal: Refusal) -> Answer {
        match refusal {
            Refusal::NotALine => (1, 0),
            Refusal::OutOfTurn => (2, 0),
            Refusal::FieldOutside(field) => (3, field as usize),
            Refusal::NoRoom => (4, 0),
            Refusal::NotEntered(field) => (5, field as usize),
            Refusal::GapsUnlike(task) => (6, task),
            Refusal::Unfit => (8, 0),
            Refusal::Bad => (9, 0),
            Refusal::Listed(place) => (10, place),
            Refusal::Full => (11, 0),
            Refusal::NoSuchPlace => (12, 0),
            Refusal::LeadsToBad(choice) => (13, choice as usize),
            Refusal::LeadsOutside(choice) => (14, choice as usize),
            Refusal::FirstNotListed => (15, 0),
            Refusal::Unsettled(place) => (16, place),
            Refusal::NotLegal(position) => (17, position),
            Refusal::EndsNotBad(length) => (18, length),
            Refusal::NumberTooLarge => (19, 0),
            Refusal::BufferShort(length) => (19, length),
        }
    }
}

// The answer of a call that comes to this; a function, since neither type is of this crate, and
// the compiler refuses a `From` between them.
pub fn answer(outcome: Outcome) -> Answer
    ensures answer { result ≡ answer_of outcome }
    ensures accepted { accepts outcome ≡ is_ok outcome }
{
    match outcome {
        Ok(value) => (0, value),
        Err(refusal) => refusal.into(),
    }
}
