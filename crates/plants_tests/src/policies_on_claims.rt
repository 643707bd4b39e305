// The site's policy on claims, with numbers that it knows and numbers that it does not.
use policies::classes::priority;
use policies::policy::{Claim, Policy};
use policies::site::SitePolicy;

fn claim(task: u32, priority: u32, waited: u32, left: u32, run: u32) -> Claim {
    Claim {
        task,
        priority,
        waited,
        left,
        run,
    }
}

// Whether the first of two claims goes before the second, and the second before the first. Plain numbers, as unknown
// ones are asked too.
fn asked(policy: u32, preempt: u32, a: Claim, b: Claim) -> (bool, bool) {
    (
        SitePolicy.before(policy, preempt, &a, &b),
        SitePolicy.before(policy, preempt, &b, &a),
    )
}

#[test]
fn numbers(rt: HostRuntime) {
    let a = claim(0, 50, 3, 9, 0);
    let b = claim(1, 80, 2, 5, 0);
    let tied = claim(4, 80, 0, 1, 0);
    let same = claim(1, 99, 9, 1, 9);
    let begun = claim(0, 50, 3, 9, 1);
    let later = claim(1, 80, 2, 5, 1);
    let rows = [
        (0, 1, a, b, (true, false)),
        (1, 1, a, b, (false, true)),
        (2, 1, a, b, (false, true)),
        // on a tie the lower number, and of equal numbers neither
        (1, 1, tied, b, (false, true)),
        (1, 1, same, b, (false, false)),
        (1, 0, same, b, (false, false)),
        // one that has begun goes first unless the resource is preemptive
        (1, 0, begun, b, (true, false)),
        (1, 1, begun, b, (false, true)),
        // an unknown policy is FIFO
        (3, 1, a, b, (true, false)),
        (4294967295, 1, b, a, (false, true)),
        // an unknown preempt number is not preemptive
        (0, 2, a, later, (false, true)),
        (9, 9, a, later, (false, true)),
    ];
    for (policy, preempt, one, other, answer) in rows {
        assert_eq!(rt; asked(policy, preempt, one, other), answer);
    }
}

#[test]
fn classes(rt: HostRuntime) {
    let rows = [
        (0, Some(250)),
        (7, Some(180)),
        (8, Some(150)),
        (16, Some(80)),
        (23, Some(45)),
        (24, None),
    ];
    for (class, answer) in rows {
        assert_eq!(rt; priority(class), answer);
    }
}
