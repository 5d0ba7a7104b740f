// The plain program for exhaustive search.
use code_paths::{CostPair, least_path, least_path_to, path_cost};
use std::rt::HostRuntime;

fn sent(x: bool, y: bool) -> CostPair {
    CostPair {
        x0: if x { 3 } else { 0 },
        x1: if x { 0 } else { 3 },
        y0: if y { 3 } else { 0 },
        y1: if y { 0 } else { 3 },
    }
}

const NONE: CostPair = CostPair {
    x0: 0,
    x1: 0,
    y0: 0,
    y1: 0,
};

#[test]
fn least_of_all_paths(rt: HostRuntime) {
    // X of the path 000000 1 0 1 is 1 1 0, its Y is 1 0 0: the only path of cost 0
    let costs = [sent(true, true), sent(true, false), sent(false, false)];
    let mut path = [true; 9];
    let found = least_path(Some([false; 6]), &costs, &mut path);
    let sent = [false, false, false, false, false, false, true, false, true];
    assert!(rt; (found, path, path_cost(&costs, &path)) == (true, sent, 0));
}

#[test]
fn least_path_of_ties(rt: HostRuntime) {
    // if all costs tie, the earliest path to an end has zeros before it
    let end = [false, true, false, false, true, true];
    let mut path = [true; 9];
    let found = least_path_to(None, end, &[NONE; 3], &mut path);
    let earliest = [false, false, false, false, true, false, false, true, true];
    assert!(rt; (found, path) == (true, earliest));
    assert!(rt; !least_path_to(Some([true; 6]), end, &[NONE; 3], &mut path));
}
