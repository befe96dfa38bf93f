//! A command that finds no primary, waits, tries the servers again, and is given up.

use crate::{Check, Routing};
use rws_gtid::Gtid;
use rws_route::Target;
use std::test::Fail;

#[test]
fn waits_and_is_given_up(rt: HostRuntime) -> Result<(), Fail> {
    let sent = Routing::new().routed(Target::Primary(1), None, None, 4, 0);
    assert_eq!(rt; sent.assigned, Some(4));
    let lost = sent.lost(4);
    assert_eq!(rt; (lost.assigned, lost.tried), (None, 2));
    let waiting = lost.routed(Target::NoPrimary, None, None, 5, 100);
    assert!(rt; waiting.waits);
    let early = waiting.ticked(50, 149);
    assert_eq!(rt;
        (early.tried, early.retries, early.finds_late(50, 149)),
        (0, true, false)
    );
    let late = waiting.ticked(50, 150);
    assert_eq!(rt; (late.tried, late.finds_late(50, 150)), (2, true));
    Ok(())
}

#[test]
fn goes_on_a_link_that_is_there(rt: HostRuntime) -> Result<(), Fail> {
    let sent = Routing::new().routed(Target::Replica(2), None, Some(3), 9, 0);
    assert_eq!(rt; (sent.assigned, sent.goes_to_primary()), (Some(3), false));
    assert_eq!(rt; sent.lost(2), sent);
    Ok(())
}

/// The commit that the read wants.
const SEVENTH: Gtid = Gtid {
    domain: 0,
    server: 1,
    sequence: 7,
};

#[test]
fn asks_a_replica_first(rt: HostRuntime) -> Result<(), Fail> {
    let wait = Some(Check::Wait(SEVENTH));
    let sent = Routing::new().routed(Target::Replica(2), wait, Some(3), 9, 0);
    assert_eq!(rt; (sent.check, sent.sent_back), (wait, false));
    assert_eq!(rt;
        (sent.cleared().check, sent.cleared().assigned),
        (None, Some(3))
    );
    let back = sent.turned_back();
    assert_eq!(rt;
        (back.check, back.assigned, back.sent_back),
        (None, None, true)
    );
    let routed = back.routed(
        Target::Primary(0),
        Some(Check::Probe(SEVENTH)),
        Some(1),
        9,
        0,
    );
    assert_eq!(rt; (routed.sent_back, routed.stopped().check), (true, None));
    Ok(())
}
