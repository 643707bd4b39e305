// The orders of claims by one figure, and the layer that keeps a begun task running.
ghost use Rattle.std.specs.Prelude.{◌≡◌};
ghost use Rattle.policies.specs.Orders.{ranks, order_of, begun_first};
ghost use Rattle.std.proofs.Common.{rules};
ghost use Rattle.policies.specs.Lawfuls.{order_of_lawful};

use crate::policy::{Claim, Policy};

// Whether the task numbered `one`, with the figure `mine`, goes before the task `other`, with `theirs`. Plain tests in
// this order: as one comparison of pairs they took twice the time, in the innermost loop of a tick.
fn ranks_first(one: u32, other: u32, mine: u32, theirs: u32) -> bool
    ensures { result ≡ ranks one other mine theirs }
{
    if mine == theirs {
        one < other
    } else {
        one != other && mine > theirs
    }
}

// Which figure of two claims decides which of them goes first.
#[derive(Clone, Copy, Debug, PartialEq, Eq)]
pub enum Discipline {
    // the longest waited first
    Fifo,
    // the highest priority first
    FixedPriority,
    // the least time left first
    EarliestDeadline,
}

// On a tie the lower task number goes first, and of equal numbers neither.
impl Policy for Discipline {
    ghost order = { λ discipline _ _. order_of discipline };

    ghost lawful = { λ discipline _ _. order_of_lawful discipline };

    fn before(&self, _policy: u32, _preempt: u32, a: &Claim, b: &Claim) -> bool {
        match self {
            Discipline::Fifo => ranks_first(a.task, b.task, a.waited, b.waited),
            Discipline::FixedPriority => ranks_first(a.task, b.task, a.priority, b.priority),
            Discipline::EarliestDeadline => ranks_first(a.task, b.task, b.left, a.left),
        }
    }
}

// Over any policy: a task that has begun to run goes before one that has not.
#[derive(Clone, Copy, Debug, PartialEq, Eq, Drop)]
pub struct NonPreemptive<P> {
    pub below: P,
}

impl<P: Policy> Policy for NonPreemptive<P> {
    ghost order = { λ s policy preempt. begun_first (P.Policy.order s.below policy preempt) };

    ghost lawful = { Prim.search rules };

    fn before(&self, policy: u32, preempt: u32, a: &Claim, b: &Claim) -> bool {
        a.task != b.task
            && match (a.run > 0, b.run > 0) {
                (true, false) => true,
                (false, true) => false,
                _ => self.below.before(policy, preempt, a, b),
            }
    }
}
