// The worked schedules hold of the rules.
ghost use Rattle.std.specs.Prelude.{◌≡◌, true};
ghost use Rattle.plants.specs.Schedules.{all_hold, schedules as worked};

// The schedules are tried on the definitions that `is_legal` and `next` of a plant cite.
pub fn schedules_hold() -> bool
    ensures { (result ≡ all_hold worked) × (all_hold worked ≡ true) }
{
    true
}
