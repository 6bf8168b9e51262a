//! Calls of each kind over a small cluster, with ample memory.
use cw_config::ConfigState;
use cw_reply::{View, reply};
use cw_route::{Reply, route};
use cw_status::StatusState;
use cw_txn::{Coordinator, SetOffset};
use cw_types::{Epoch, Name, PartKey, Tid};
use std::test::Fail;

// A stopped source of the name `a`.
fn configs(rt: &HostRuntime) -> Result<ConfigState, Fail> {
    let mut configs = ConfigState::new(rt.alloc());
    let config = b"{\"properties\":{\"connector.class\":\"SequenceSource\"}}";
    configs.apply(0, 0, b"connector-a", Some(config))?;
    configs.apply(1, 0, b"target-state-a", Some(b"{\"state\":\"STOPPED\"}"))?;
    Ok(configs)
}

// Offsets of its sequences 2 and 10 and of a topic, and one of another connector.
fn offsets(rt: &HostRuntime) -> Result<Coordinator, Fail> {
    let mut txn = Coordinator::new(rt.alloc());
    for (connector, index) in [(b"a", 2), (b"a", 10), (b"b", 0)] {
        let connector = Name::read(rt.alloc(), connector)?;
        let part = PartKey::Seq { connector, index };
        txn.set(&Tid::Lead, Epoch(0), &[SetOffset { part, to: Some(3) }])?;
    }
    let (connector, topic) = (Name::read(rt.alloc(), b"a")?, Name::read(rt.alloc(), b"t")?);
    let part = PartKey::Sink { connector, topic };
    txn.set(&Tid::Lead, Epoch(0), &[SetOffset { part, to: Some(1) }])?;
    Ok(txn)
}

// What a request is answered by who sees this.
fn answer(rt: &HostRuntime, seen: &View<'_>, method: &[u8], target: &[u8]) -> Result<Reply, Fail> {
    let call = route(rt.alloc(), method, target, b"")?;
    Ok(reply(rt.alloc(), &call, seen)?)
}

// What a request is answered.
fn ask(rt: &HostRuntime, ready: bool, method: &[u8], target: &[u8]) -> Result<Reply, Fail> {
    let (config, txn, feeds) = (configs(rt)?, offsets(rt)?, []);
    let statuses = StatusState::new(rt.alloc());
    let seen = View {
        ready,
        config: &config,
        statuses: &statuses,
        txn: &txn,
        feeds: &feeds,
    };
    answer(rt, &seen, method, target)
}

#[test]
fn what_is_read_is_told(rt: HostRuntime) -> Result<(), Fail> {
    let names = ask(&rt, false, b"GET", b"/connectors")?;
    assert_eq!(rt; names.body.as_slice(), b"[\"a\"]".as_slice());
    let missing = ask(&rt, false, b"GET", b"/connectors/b/offsets")?;
    let text = b"{\"error_code\":404,\"message\":\"Connector b not found\"}";
    assert_eq!(rt; missing.body.as_slice(), text.as_slice());
    Ok(())
}

#[test]
fn offsets_have_the_order_of_their_texts(rt: HostRuntime) -> Result<(), Fail> {
    let told = ask(&rt, false, b"GET", b"/connectors/a/offsets")?;
    let text = b"{\"offsets\":[{\"offset\":{\"position\":3},\"partition\":{\"sequence\":10}},\
        {\"offset\":{\"position\":3},\"partition\":{\"sequence\":2}}]}";
    assert_eq!(rt; told.body.as_slice(), text.as_slice());
    Ok(())
}

#[test]
fn what_is_written_waits_for_a_leader(rt: HostRuntime) -> Result<(), Fail> {
    assert_eq!(rt; ask(&rt, false, b"DELETE", b"/connectors/a")?.code, 409);
    let removed = ask(&rt, true, b"DELETE", b"/connectors/a")?;
    assert!(rt; removed.code == 204 && removed.body.as_slice().is_empty());
    let reset = ask(&rt, true, b"DELETE", b"/connectors/a/offsets")?;
    assert_eq!(rt; reset.code, 200);
    Ok(())
}
