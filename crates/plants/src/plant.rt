// A fixed plant.
ghost use Rattle.std.specs.Prelude.{◌≡◌, true};
ghost use Rattle.plants.specs.Layouts.{valid as layout_valid};

use crate::layout::Layout;

// Holds what the draft held when it was fixed, and a policy of any kind.
#[derive(Drop)]
pub struct Plant<P> {
    pub(crate) layout: Layout,
    pub(crate) policy: P,
    ghost valid: { layout_valid layout ≡ true },
}
