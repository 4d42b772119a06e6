//! Exact labels at the opening.
use crate::building::{core_of, net_of};
use crate::rows::hold;
use parcel::{Direction, Event, State};

const FORWARD: Direction = Direction {
    arc: 0,
    back: false,
};

const BACKWARD: Direction = Direction { arc: 0, back: true };

/// Whether of two nodes the first is two steps from the sink, the second one, and each knows so.
fn is_raised(state: &State) -> bool {
    state.nodes() == 2
        && state.arcs() == 1
        && [state.excess(0), state.excess(1)] == [4, 0]
        && [state.label(0), state.label(1)] == [2, 1]
        && [state.known(FORWARD), state.known(BACKWARD)] == [1, 2]
}

#[test]
fn labels_are_raised(rt: HostRuntime) {
    let net = net_of(&rt, &[4, 0], &[0, 3], &[(0, 1, 4)]);
    let mut core = core_of(&rt, &net, 2);
    hold(&rt, core.apply(Event::RaiseAll).is_ok());
    hold(&rt, is_raised(core.state()));
}
