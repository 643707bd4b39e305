// The priorities of the classes.
ghost use Rattle.std.specs.Prelude.{◌≡◌};
ghost use Rattle.policies.specs.Classes.{priority_of, by_bands};

// How many classes there are; they are numbered from 0.
pub const CLASSES: usize = 24;

const PRIORITIES: [u32; CLASSES] = [
    250, 240, 230, 220, 210, 200, 190, 180, 150, 145, 140, 135, 130, 125, 120, 115, 80, 75, 70, 65,
    60, 55, 50, 45,
];

// The priority of a class, and none for a number that is no class.
pub fn priority(class: u32) -> Option<u32>
    ensures listed { result ≡ priority_of class }
    ensures banded { result ≡ by_bands class }
{
    PRIORITIES.get(class as usize).copied()
}
