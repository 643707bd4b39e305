// A chart that is being entered.
ghost use Rattle.charts.specs.Entries.{Valid};

use crate::entries::Entries;

pub mod calls;

// Each entered step leads to entered steps, and by inputs that are not entered to itself.
#[derive(Drop)]
pub struct DraftChart {
    entries: Entries,
    ghost valid: { Valid entries },
}
