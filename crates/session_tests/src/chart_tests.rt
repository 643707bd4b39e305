// Draft charts at their limits, and a chart's list with a forbidden step.
// Its loops go over numbers of entries, which index nothing.
use charts::chart::Chart;
use charts::draft::DraftChart;
use sessions::cell::Cell;
use sessions::session::Session;
use systems::judge::judge;
use systems::system::System;

#[test]
fn the_64th_and_65th_step(rt: HostRuntime) {
    let mut draft = DraftChart::new();
    assert_eq!(rt; draft.add_step(2), (3, 1));
    for step in 1..64usize {
        assert_eq!(rt; draft.add_step(0), (0, step));
    }
    assert_eq!(rt; draft.add_step(0), (4, 0));
    assert_eq!(rt; draft.add_step(2), (4, 0));
    let chart = draft.fix();
    assert!(rt; chart.fits(&63));
    assert!(rt; !chart.fits(&64));
    assert_eq!(rt; chart.next(&63, 0), 63);
}

#[test]
fn the_8th_and_9th_input(rt: HostRuntime) {
    let mut draft = DraftChart::new();
    for input in 1..8usize {
        assert_eq!(rt; draft.add_input(), (0, input));
    }
    assert_eq!(rt; draft.add_input(), (4, 0));
    assert_eq!(rt; draft.add_step(0), (0, 1));
    assert_eq!(rt; draft.set_lead(0, 7, 1), (0, 0));
    assert_eq!(rt; draft.set_lead(2, 8, 2), (3, 1));
    assert_eq!(rt; draft.set_lead(1, 8, 2), (3, 2));
    assert_eq!(rt; draft.set_lead(1, 7, 2), (3, 3));
    let chart = draft.fix();
    assert_eq!(rt; chart.count(), 8);
    assert_eq!(rt; chart.next(&0, 7), 1);
    assert_eq!(rt; chart.next(&1, 7), 1);
    assert!(rt; !chart.is_legal(&0, 8));
    assert_eq!(rt; chart.next(&0, 8), 0);
}

fn with_forbidden_step() -> Chart {
    let mut draft = DraftChart::new();
    let _ = draft.add_step(1);
    let _ = draft.add_input();
    let _ = draft.set_lead(0, 1, 1);
    draft.fix()
}

#[test]
fn a_lead_to_a_forbidden_step(rt: HostRuntime) {
    let chart = with_forbidden_step();
    let mut cells = [Cell {
        state: 0,
        settled: false,
    }; 2];
    let mut session = Session::open(&chart, &mut cells);
    assert_eq!(rt; session.offer(0), (0, 0));
    assert_eq!(rt; session.offer(1), (9, 0));
    assert_eq!(rt; session.settle(0), (13, 1));
    assert_eq!(rt; judge(&chart, &[0, 1]), (0, 2));
    assert_eq!(rt; judge(&chart, &[1, 0]), (17, 1));
}
