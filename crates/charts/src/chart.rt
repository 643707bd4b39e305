// A fixed chart.
ghost use Rattle.charts.specs.Entries.{Valid};

use crate::entries::Entries;

pub mod logging;
pub mod replies;

// Entries of a draft that nothing can be added to any more.
#[derive(Drop)]
pub struct Chart {
    pub(crate) entries: Entries,
    ghost valid: { Valid entries },
}
