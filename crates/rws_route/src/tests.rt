//! Rows of the table of targets.
ghost use Rattle.rws_select.specs.Choice.{HasScorer};

use crate::{Target, target};
use rws_class::Class;
use rws_pool::{PoolWords, Round, Seen, State};
use rws_select::{Load, Selector};
use std::test::Fail;

const TWO_REPLICAS: Round = Round {
    seen: [
        Some(Seen {
            state: State::Slave,
            position: 5,
        }),
        Some(Seen {
            state: State::Master,
            position: 5,
        }),
        Some(Seen {
            state: State::Slave,
            position: 0,
        }),
        None,
        None,
        None,
        None,
    ],
};

#[test]
fn rows_of_the_table(rt: HostRuntime) -> Result<(), Fail> {
    let selector = Selector::new(|load: &Load| u64::from(load.pending) * 65536
        + u64::from(load.links));
    let loads = [Load {
        pending: 0,
        links: 0,
    }; 7];
    let mut words = PoolWords::new(0);
    words.observe(&TWO_REPLICAS);
    let rows = [
        (Class::Read, true, false, 0, 0, Target::Replica(0)),
        (Class::BeginReadOnly, true, false, 1, 0, Target::Replica(2)),
        (Class::Read, true, false, 0, 1, Target::Replica(2)),
        (Class::Read, true, false, 4, 1, Target::Primary(1)),
        (Class::Read, false, false, 0, 0, Target::Primary(1)),
        (Class::Read, true, true, 0, 0, Target::Primary(1)),
        (Class::PrimaryRead, true, false, 0, 0, Target::Primary(1)),
        (Class::Write, true, false, 2, 0, Target::NoPrimary),
    ];
    for (class, autocommit, sent_back, tried, banned, wanted) in rows {
        let found = target(
            class, autocommit, sent_back, &words, &loads, tried, banned, &selector,
        );
        assert_eq!(rt; found, wanted);
    }
    Ok(())
}
