// States of a chart and of a plant, written and read back, and lists of numbers that are no state.
use charts::draft::DraftChart;
use lines::loggable::{Loggable, reread};
use plants::draft::DraftPlant;
use plants::layout::TaskEntry;
use plants::plant::Plant;
use plants::state::PlantState;
use policies::site::SitePolicy;
use systems::system::System;

#[test]
fn a_step(rt: HostRuntime) {
    let chart = DraftChart::new().fix();
    let mut buffer = [0; 11];
    assert_eq!(rt; reread(&chart, &0, &mut buffer), ((0, 11), Some(0)));
    assert_eq!(rt; &buffer, b"OFFR     0\n");
    assert_eq!(rt; chart.state_of(&[]), None);
    assert_eq!(rt; chart.state_of(&[7]), Some(7));
    assert_eq!(rt; chart.state_of(&[7, 7]), None);
}

// One task of best time 1 and worst time 2 on one resource.
fn one_task() -> Plant<SitePolicy> {
    let mut draft = DraftPlant::new();
    let _ = draft.add_resource(1, 1);
    let _ = draft.add_task(TaskEntry {
        offset: 0,
        least: 9,
        greatest: 9,
        best: 1,
        worst: 2,
        deadline: 9,
        class: 0,
        resource: 0,
        needs: 0,
    });
    draft.fix(SitePolicy)
}

fn is_state(plant: &Plant<SitePolicy>, given: &[u32], state: &PlantState) -> bool {
    plant
        .state_of(given)
        .is_some_and(|restored| plant.same(&restored, state))
}

#[test]
fn a_plant_state(rt: HostRuntime) {
    let plant = one_task();
    let state = plant.next(&plant.first(), 1);
    let mut buffer = [0; 29];
    assert_eq!(rt; plant.write(&state, &mut buffer), (0, 29));
    assert_eq!(rt; &buffer, b"OFFR     3     1     1     1\n");
    assert!(rt; is_state(&plant, &[3, 1, 1, 1], &state));
    assert!(rt; !is_state(&plant, &[3, 1, 0, 1], &state));
}

#[test]
fn no_plant_state(rt: HostRuntime) {
    let plant = one_task();
    assert!(rt; plant.state_of(&[0, 0, 0, 0]).is_some());
    assert!(rt; plant.state_of(&[4, 0, 0, 0]).is_none());
    assert!(rt; plant.state_of(&[0, 0, 0]).is_none());
    assert!(rt; plant.state_of(&[0, 0, 0, 0, 0]).is_none());
    assert!(rt; plant.state_of(&[]).is_none());
}
