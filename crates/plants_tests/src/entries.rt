// Both sides of every range, and every refusal with its value.
// Its loops over ranges go over numbers of entries, which index nothing.
use plants::draft::DraftPlant;
use plants::fixed_list::FixedList;
use plants::layout::{Layout, MOST_TASKS, TaskEntry};
use systems::outcome::Answer;

pub(crate) fn task(fields: [u32; 9]) -> TaskEntry {
    let [
        offset,
        least,
        greatest,
        best,
        worst,
        deadline,
        class,
        resource,
        needs,
    ] = fields;
    TaskEntry {
        offset,
        least,
        greatest,
        best,
        worst,
        deadline,
        class,
        resource,
        needs,
    }
}

// What the task is answered as the first one, with one resource entered.
fn alone(fields: [u32; 9]) -> Answer {
    let mut draft = DraftPlant::new();
    let _ = draft.add_resource(1, 1);
    draft.add_task(task(fields))
}

#[test]
fn ranges(rt: HostRuntime) {
    let rows = [
        ([0, 1, 1, 1, 1, 1, 0, 0, 0], (0, 0)),
        ([255, 255, 255, 255, 255, 255, 23, 0, 0], (0, 0)),
        ([256, 1, 1, 1, 1, 1, 0, 0, 0], (3, 1)),
        ([0, 0, 1, 1, 1, 1, 0, 0, 0], (3, 2)),
        ([0, 256, 256, 1, 1, 1, 0, 0, 0], (3, 2)),
        ([0, 2, 1, 1, 1, 1, 0, 0, 0], (3, 3)),
        ([0, 2, 256, 1, 1, 1, 0, 0, 0], (3, 3)),
        ([0, 1, 1, 0, 1, 1, 0, 0, 0], (3, 4)),
        ([0, 1, 1, 256, 256, 1, 0, 0, 0], (3, 4)),
        ([0, 1, 1, 2, 1, 1, 0, 0, 0], (3, 5)),
        ([0, 1, 1, 1, 256, 1, 0, 0, 0], (3, 5)),
        ([0, 2, 9, 1, 1, 0, 0, 0, 0], (3, 6)),
        ([0, 2, 9, 1, 1, 2, 0, 0, 0], (0, 0)),
        ([0, 2, 9, 1, 1, 3, 0, 0, 0], (3, 6)),
        ([0, 1, 1, 1, 1, 1, 24, 0, 0], (3, 7)),
        ([0, 1, 1, 1, 1, 1, 0, 1, 0], (5, 8)),
        ([0, 1, 1, 1, 1, 1, 0, 4294967295, 0], (5, 8)),
        ([0, 1, 1, 1, 1, 1, 0, 0, 1], (5, 9)),
        ([0, 1, 1, 1, 1, 1, 0, 0, 2147483648], (5, 9)),
        // fields from the left, and ranges before what is not entered
        ([256, 0, 1, 1, 1, 1, 24, 9, 9], (3, 1)),
        ([0, 1, 1, 1, 1, 1, 24, 9, 9], (3, 7)),
        ([0, 1, 1, 1, 1, 1, 0, 9, 9], (5, 8)),
    ];
    for (fields, answer) in rows {
        assert_eq!(rt; alone(fields), answer);
    }
}

#[test]
fn needs(rt: HostRuntime) {
    let mut draft = DraftPlant::new();
    let _ = draft.add_resource(0, 0);
    let rows = [
        ([0, 4, 4, 1, 1, 4, 0, 0, 0], (0, 0)),
        ([0, 4, 5, 1, 1, 4, 0, 0, 0], (0, 1)),
        // a task that is not entered, before gaps
        ([0, 4, 5, 1, 1, 4, 0, 0, 5], (5, 9)),
        // the entry's own gaps are not one number, or not that of task 0, or not that of task 1
        ([0, 4, 5, 1, 1, 4, 0, 0, 3], (6, 0)),
        ([0, 5, 5, 1, 1, 4, 0, 0, 3], (6, 0)),
        ([0, 4, 4, 1, 1, 4, 0, 0, 3], (6, 1)),
        ([0, 4, 4, 1, 1, 4, 0, 0, 2], (6, 1)),
        ([0, 4, 4, 1, 1, 4, 0, 0, 1], (0, 2)),
        ([0, 4, 4, 1, 1, 4, 0, 0, 5], (0, 3)),
    ];
    for (fields, answer) in rows {
        assert_eq!(rt; draft.add_task(task(fields)), answer);
    }
}

#[test]
fn resources(rt: HostRuntime) {
    let mut draft = DraftPlant::new();
    let rows = [
        (3, 0, (3, 1)),
        (0, 2, (3, 2)),
        (3, 2, (3, 1)),
        (2, 1, (0, 0)),
        (1, 0, (0, 1)),
        (0, 0, (0, 2)),
        (0, 1, (0, 3)),
        (0, 0, (4, 0)),
        (9, 9, (4, 0)),
    ];
    for (policy, preempt, answer) in rows {
        assert_eq!(rt; draft.add_resource(policy, preempt), answer);
    }
}

#[test]
fn room(rt: HostRuntime) {
    let mut draft = DraftPlant::new();
    let _ = draft.add_resource(0, 0);
    for number in 0..8 {
        assert_eq!(rt;
            draft.add_task(task([0, 1, 1, 1, 1, 1, 0, 0, 0])),
            (0, number)
        );
    }
    assert_eq!(rt; draft.add_task(task([0, 1, 1, 1, 1, 1, 0, 0, 0])), (4, 0));
    assert_eq!(rt;
        draft.add_task(task([256, 0, 0, 0, 0, 0, 99, 9, 999])),
        (4, 0)
    );
}

// A layout is copied whole, and stays usable.
#[test]
fn layouts_are_copied(rt: HostRuntime) {
    let layout = Layout {
        resources: FixedList::new(),
        tasks: FixedList::new(),
    };
    let copied = layout;
    assert!(rt; copied == layout);
    assert_eq!(rt; layout.tasks.len(), 0);
    assert!(rt; !copied.tasks.is_full());
    assert!(rt; MOST_TASKS > copied.resources.len());
}
