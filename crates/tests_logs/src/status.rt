//! Runs of statuses.
use cw_json::Text;
use cw_keys::{State, StatusValue};
use cw_status::StatusState;
use cw_types::{Item, Name};
use std::process::Abort;
use std::test::Fail;

fn status(state: State, trace: Option<Text>, round: u64) -> StatusValue {
    StatusValue {
        state,
        trace,
        worker: 1,
        round,
    }
}

// Whether the latest status of an item is this state in this round.
fn expect_latest(rt: &impl Abort, statuses: &StatusState, item: &Item, state: State, round: u64) {
    assert!(rt;
        statuses
            .latest(item)
            .is_some_and(|latest| latest.state == state && latest.round == round)
    );
}

#[test]
fn reserved_records_are_applied(rt: HostRuntime) -> Result<(), Fail> {
    let mut statuses = StatusState::new(rt.alloc());
    let connector = Item::Connector(Name::read(rt.alloc(), b"a")?);
    let trace = Text::of(rt.alloc(), "Fenced: epoch 1, current 2")?;
    let failed = status(State::Failed, Some(trace), 3);
    statuses.reserve_apply(4, &connector, &failed)?;
    statuses.reserve_apply(5, &connector, &status(State::Running, None, 3))?;
    assert!(rt; statuses.latest(&connector).is_none());
    statuses.apply(4, &connector, failed)?;
    expect_latest(&rt, &statuses, &connector, State::Failed, 3);
    statuses.unreserve();
    statuses.apply(5, &connector, status(State::Running, None, 3))?;
    expect_latest(&rt, &statuses, &connector, State::Running, 3);
    Ok(())
}
