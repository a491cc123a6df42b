//! The lanes of a picture.

use crate::parts::{Lane, Saved, Span, State};
use std::alloc::{AllocError, Global};
use values::{Memory, ReplicaId};

/// Where the lane of a replica stands; a new one where there is none.
pub(crate) fn lane_of(
    alloc: Global,
    lanes: &mut Vec<Lane>,
    replica: ReplicaId,
) -> Result<usize, Memory> {
    if let Some(place) = lanes.iter().position(|lane| lane.replica == replica) {
        return Ok(place);
    }
    let place = lanes.len();
    lanes.push(Lane {
        replica,
        state: State::Absent,
        since: 0,
        spans: Vec::new(alloc),
        term: 0,
        promise: 0,
        saved: Vec::new(alloc),
    })?;
    Ok(place)
}

/// The state of the lane's replica is saved under this number.
pub(crate) fn save(lanes: &mut Vec<Lane>, place: usize, number: u64) -> Result<(), AllocError> {
    let Some(lane) = lanes.get_mut(place) else {
        return Ok(());
    };
    let saved = Saved {
        number,
        state: lane.state,
        term: lane.term,
        promise: lane.promise,
    };
    lane.saved.push(saved)?;
    Ok(())
}

/// Puts back the term and the promise of the state that was saved under this number, and answers what the replica did then. Of the first
/// state, 0, and of one of which no line tells, it follows.
pub(crate) fn put_back(lanes: &mut Vec<Lane>, place: usize, number: u64) -> State {
    let Some(lane) = lanes.get_mut(place) else {
        return State::Follows;
    };
    let mut state = State::Follows;
    lane.term = 0;
    lane.promise = 0;
    for saved in lane.saved.as_slice() {
        if saved.number == number {
            state = saved.state;
            lane.term = saved.term;
            lane.promise = saved.promise;
        }
    }
    state
}

/// From this row on the replica does this.
pub(crate) fn enter(
    lanes: &mut Vec<Lane>,
    place: usize,
    state: State,
    row: usize,
) -> Result<(), AllocError> {
    let Some(lane) = lanes.get_mut(place) else {
        return Ok(());
    };
    if lane.state == state {
        return Ok(());
    }
    lane.spans.push(Span {
        state: lane.state,
        from: lane.since,
        to: row,
    })?;
    lane.state = state;
    lane.since = row;
    Ok(())
}
