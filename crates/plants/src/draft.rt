// A draft plant.
ghost use Rattle.std.specs.Prelude.{◌≡◌, true};
ghost use Rattle.plants.specs.Layouts.{valid as layout_valid};

use crate::layout::Layout;

// Takes entries until it is fixed.
#[derive(Drop)]
pub struct DraftPlant {
    pub(crate) layout: Layout,
    ghost valid: { layout_valid layout ≡ true },
}
