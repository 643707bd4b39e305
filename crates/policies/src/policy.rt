// A policy: an order of the claims on a resource.
ghost use Rattle.std.specs.Prelude.{◌≡◌, ℕ, Bool};
ghost use Rattle.policies.specs.declared.policy.Claim.{Claim};
ghost use Rattle.policies.specs.Lawful.{Lawful};

// What a policy is told of a ready task.
#[derive(Clone, Copy, Debug, PartialEq, Eq)]
pub struct Claim {
    // the task's number
    pub task: u32,
    pub priority: u32,
    // ticks for which the task has been ready
    pub waited: u32,
    // ticks until its deadline
    pub left: u32,
    // ticks for which it has run
    pub run: u32,
}

// By a rule of the project, beside what it holds itself, a policy is given the resource's two numbers and two claims,
// and nothing else.
pub trait Policy {
    // The order of claims, by the resource's policy and preempt number.
    ghost order: { Self → ℕ → ℕ → Claim → Claim → Bool };

    // Whether claim a goes before claim b.
    fn before(&self, policy: u32, preempt: u32, a: &Claim, b: &Claim) -> bool
        ensures { result ≡ order self.now policy preempt a.now b.now };

    // An implementation whose order is unlawful at any two numbers is refused.
    ghost lawful: { (p : Self) (policy preempt : ℕ) → Lawful (order p policy preempt) };
}
