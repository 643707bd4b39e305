// A reader of lines over bytes that it is lent.
ghost use Rattle.std.specs.Prelude.{◌≡◌, ◌≤◌, length, if◌then◌else◌};

pub mod calls;

// The input, and the place from which the next line is read: by a rule of the project no line is copied.
#[derive(Drop)]
pub struct LineReader<'a> {
    input: &'a [u8],
    place: usize,
    ghost within: { place ≤ length input.now },
}

// By a rule of the project a guard of the borrowed place: it goes back to the first, unless the line was accepted.
struct Guard<'a> {
    place: &'a mut usize,
    first: usize,
    accepted: bool,
}

impl Drop for Guard<'_> {
    fn drop(self)
        ensures { self.exit.0.now ≡ (if self.entry.accepted then self.entry.place.now else self.entry.first) }
    {
        if !self.accepted {
            *self.place = self.first;
        }
        let Guard {
            place: _,
            first: _,
            accepted: _,
        } = self;
    }
}
