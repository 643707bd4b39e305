// The empty plant, a plant with every task and resource, and a worked tick.
// Its loops over ranges go over numbers of entries, which index nothing.
use crate::entries::task;
use plants::draft::DraftPlant;
use plants::plant::Plant;
use plants::state::{PlantState, Record};
use policies::site::SitePolicy;
use systems::system::System;

fn numbers(r: Record) -> (u32, u32, u32, u32) {
    (u32::from(r.phase), r.since, r.run, r.waited)
}

// How many choices are legal at the state.
fn legals(plant: &Plant<SitePolicy>, state: &PlantState) -> usize {
    (0..plant.count())
        .filter(|choice| plant.is_legal(state, *choice))
        .count()
}

#[test]
fn empty_plant(rt: HostRuntime) {
    let plant = DraftPlant::new().fix(SitePolicy);
    assert_eq!(rt; plant.task_count(), 0);
    assert_eq!(rt; plant.count(), 1);
    let first = plant.first();
    assert!(rt; plant.fits(&first));
    assert!(rt; !plant.is_bad(&first));
    assert!(rt; plant.is_legal(&first, 0));
    assert!(rt; !plant.is_legal(&first, 1));
    assert!(rt; plant.same(&plant.next(&first, 0), &first));
    assert_eq!(rt; plant.running(&first, 0, 0), None);
}

// Tasks 0 to 3 and 4 to 7 stand on resources 0 to 3, all alike: of two on a resource the lower number runs first.
#[test]
fn eight_tasks(rt: HostRuntime) {
    let mut draft = DraftPlant::new();
    for number in 0..4 {
        assert_eq!(rt; draft.add_resource(number % 3, 1), (0, number as usize));
    }
    for number in 0..8 {
        let answer = draft.add_task(task([0, 9, 9, 1, 2, 9, 0, number % 4, 0]));
        assert_eq!(rt; answer, (0, number as usize));
    }
    let plant = draft.fix(SitePolicy);
    assert_eq!(rt; plant.task_count(), 8);
    assert_eq!(rt; plant.count(), 65536);
    let first = plant.first();
    // every task is released, and each of four running ones finishes or not
    assert_eq!(rt; legals(&plant, &first), 16);
    let rows = [(0, false), (255, true), (4095, true), (4351, false)];
    for (choice, legal) in rows {
        assert_eq!(rt; plant.is_legal(&first, choice), legal);
    }
    let rows = [(255, 3, Some(3)), (0, 3, None), (255, 4, None)];
    for (choice, resource, task) in rows {
        assert_eq!(rt; plant.running(&first, choice, resource), task);
    }
    let next = plant.next(&first, 255 + 256);
    assert!(rt; plant.fits(&next));
    assert_eq!(rt; numbers(next.records[0]), (1, 1, 0, 0));
    assert_eq!(rt; numbers(next.records[1]), (3, 1, 1, 1));
    assert_eq!(rt; numbers(next.records[4]), (3, 1, 0, 1));
    assert!(rt; !plant.same(&next, &first));
    assert!(rt; plant.same(&plant.next(&next, 65536), &next));
}

// A task of best time 1 and worst time 3 that comes to its deadline: late unless it finishes on it.
#[test]
fn deadline(rt: HostRuntime) {
    let mut draft = DraftPlant::new();
    let _ = draft.add_resource(1, 1);
    let _ = draft.add_task(task([0, 2, 2, 1, 3, 2, 0, 0, 0]));
    let plant = draft.fix(SitePolicy);
    let first = plant.first();
    let begun = plant.next(&first, 1);
    assert_eq!(rt; numbers(begun.records[0]), (3, 1, 1, 1));
    assert_eq!(rt; legals(&plant, &begun), 2);
    assert!(rt; !plant.is_bad(&plant.next(&begun, 2)));
    let late = plant.next(&begun, 0);
    assert!(rt; plant.fits(&late));
    assert!(rt; plant.is_bad(&late));
    assert_eq!(rt; legals(&plant, &late), 0);
}
