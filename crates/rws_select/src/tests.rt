//! The worked choices: the lower score, the lowest index at a tie, nobody.
use crate::{Load, Selector};
use std::test::Fail;

const IDLE: Option<Load> = Some(Load {
    pending: 0,
    links: 4,
});

const BUSY: Option<Load> = Some(Load {
    pending: 1,
    links: 0,
});

#[test]
fn chooses_the_least_score(rt: HostRuntime) -> Result<(), Fail> {
    let selector = Selector::new(|load: &Load| u64::from(load.pending) * 65536
        + u64::from(load.links));
    let rows = [
        ([None, None, None, None, None, None, None], None),
        ([None, BUSY, IDLE, None, None, None, None], Some(2)),
        ([None, BUSY, None, IDLE, IDLE, None, BUSY], Some(3)),
        ([None, None, None, None, None, None, BUSY], Some(6)),
    ];
    for (candidates, wanted) in &rows {
        assert_eq!(rt; selector.choose(candidates), *wanted);
    }
    Ok(())
}
