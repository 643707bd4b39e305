// Sessions and judging at their limits.
// Its loop goes over states, which index nothing.
use crate::ring::Ring;
use sessions::cell::Cell;
use sessions::lists::{check_list, check_list_in};
use sessions::session::Session;
use std::test::Fail;
use systems::judge::judge;

const STALE: Cell<u32> = Cell {
    state: 7,
    settled: true,
};

#[test]
fn no_cells_at_all(rt: HostRuntime) {
    let ring = Ring { last: 2 };
    let mut cells: [Cell<u32>; 0] = [];
    let mut session = Session::open(&ring, &mut cells);
    assert_eq!(rt; session.offer(0), (11, 0));
    assert_eq!(rt; session.offer(9), (8, 0));
    assert_eq!(rt; session.settle(0), (12, 0));
    assert_eq!(rt; session.show(0), ((12, 0), 0));
    assert_eq!(rt; session.verdict(), (15, 0));
}

#[test]
fn stale_marks_and_unused_cells(rt: HostRuntime) {
    let ring = Ring { last: 1 };
    let mut cells = [STALE; 4];
    let mut session = Session::open(&ring, &mut cells);
    assert_eq!(rt; session.verdict(), (15, 0));
    assert_eq!(rt; session.settle(0), (12, 0));
    assert_eq!(rt; session.offer(0), (0, 0));
    assert_eq!(rt; session.verdict(), (16, 0));
    let cells = session.into_cells();
    assert!(rt; cells.len() == 4);
    assert_eq!(rt; (cells[0].state, cells[0].settled), (0, false));
    assert_eq!(rt; (cells[1].state, cells[1].settled), (7, true));
}

#[test]
fn full_table_with_a_state_in_it(rt: HostRuntime) {
    let ring = Ring { last: 2 };
    let mut cells = [STALE; 2];
    let mut session = Session::open(&ring, &mut cells);
    assert_eq!(rt; session.offer(0), (0, 0));
    assert_eq!(rt; session.offer(1), (0, 1));
    assert_eq!(rt; session.offer(1), (10, 1));
    assert_eq!(rt; session.offer(2), (11, 0));
    assert_eq!(rt; session.settle(1), (14, 0));
    assert_eq!(rt; session.verdict(), (16, 0));
}

#[test]
fn repeated_settle_and_show(rt: HostRuntime) {
    let ring = Ring { last: 1 };
    let mut cells = [STALE; 3];
    let mut session = Session::open(&ring, &mut cells);
    assert_eq!(rt; session.offer(1), (0, 0));
    assert_eq!(rt; session.offer(0), (0, 1));
    assert_eq!(rt; session.settle(1), (0, 1));
    assert_eq!(rt; session.settle(1), (0, 1));
    assert_eq!(rt; session.verdict(), (16, 0));
    assert_eq!(rt; session.settle(0), (0, 1));
    assert_eq!(rt; session.verdict(), (0, 2));
    assert_eq!(rt; session.show(0), ((0, 0), 1));
    assert_eq!(rt; session.show(2), ((12, 0), 0));
}

#[test]
fn room_above_sixty_thousand(rt: HostRuntime) -> Result<(), Fail> {
    let ring = Ring { last: 60000 };
    let mut cells = vec![in rt.alloc(); STALE; 60001]?;
    let mut session = Session::open(&ring, &mut cells);
    let mut accepted = 0usize;
    for state in 0..60000u32 {
        if session.offer(state) == (0, state as usize) {
            accepted = accepted.saturating_add(1);
        }
    }
    assert_eq!(rt; accepted, 60000);
    assert_eq!(rt; session.offer(60000), (11, 0));
    assert_eq!(rt; session.offer(59999), (10, 59999));
    Ok(())
}

#[test]
fn lists_checked_whole(rt: HostRuntime) {
    let ring = Ring { last: 2 };
    let mut cells = [STALE; 3];
    assert_eq!(rt; check_list(&ring, &mut cells, &[2, 0, 2, 1]), (0, 3));
    assert_eq!(rt; check_list(&ring, &mut cells, &[0, 1]), (16, 1));
    assert_eq!(rt; check_list(&ring, &mut cells, &[1, 2]), (15, 0));
}

#[test]
fn whole_list_is_closed(rt: HostRuntime) {
    let ring = Ring { last: 2 };
    let mut cells = [STALE; 4];
    let (answer, after) = check_list_in(&ring, &mut cells, &[2, 0, 2, 1]);
    assert_eq!(rt; answer, (0, 3));
    assert!(rt; after.len() == 4);
    assert_eq!(rt; (after[2].state, after[2].settled), (1, true));
    assert_eq!(rt; (after[3].state, after[3].settled), (7, true));
}

#[test]
fn judged_without_a_session(rt: HostRuntime) {
    let ring = Ring { last: 2 };
    assert_eq!(rt; judge(&ring, &[]), (18, 0));
    assert_eq!(rt; judge(&ring, &[0, 0, 0]), (18, 3));
    assert_eq!(rt; judge(&ring, &[0, 4294967295, 0]), (17, 1));
}
