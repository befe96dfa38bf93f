//! One list of events, and the words after it.
ghost use Rattle.std.specs.Prelude.{◌≡◌};

use crate::{PoolCall, PoolEvent, PoolWords, Round, Seen, State};
use rws_gtid::Gtid;
use std::test::Fail;

fn commit(server: u32, sequence: u64) -> Gtid
    ensures { result.domain ≡ 0 }
{
    Gtid {
        domain: 0,
        server,
        sequence,
    }
}

fn seen(state: State, position: u64) -> Option<Seen> {
    Some(Seen { state, position })
}

#[test]
fn steps_of_the_table(rt: HostRuntime) -> Result<(), Fail> {
    let round = Round {
        seen: [
            seen(State::Master, 6),
            seen(State::Slave, 4),
            None,
            None,
            None,
            None,
            seen(State::Maintenance, 1),
        ],
    };
    let mut words = PoolWords::new(0);
    words.observe(&round);
    words.record(0, commit(1, 7));
    words.record(1, commit(2, 5));
    words.record(1, commit(3, 7));
    words.apply(&PoolCall::Route { session: 9 }.event());
    words.apply(&PoolEvent::Observe { round });
    assert_eq!(rt; words.last, commit(1, 7));
    assert_eq!(rt; Some(words.servers[0]), seen(State::Master, 7));
    assert_eq!(rt; Some(words.servers[1]), seen(State::Slave, 7));
    assert_eq!(rt; Some(words.servers[2]), seen(State::Down, 0));
    assert_eq!(rt; Some(words.servers[6]), seen(State::Maintenance, 1));
    Ok(())
}
