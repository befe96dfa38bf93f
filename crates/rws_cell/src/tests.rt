//! Two of three passes record 199 commits each in two threads, and read after each: nothing that one of them reads goes
//! back. Then both are joined into the first pass, which finds all commits.
ghost use Rattle.std.specs.Prelude.{◌≡◌, ◌<◌, IfOk};
ghost use Rattle.rws_cell.specs.Views.{parts};
ghost use Rattle.rws_cell.specs.Passes.{AllOf};

use crate::{Pass, PoolCell, each_entry_has_its_pass};
use rws_gtid::Gtid;
use rws_pool::{PoolWords, Round, Seen, State};
use std::alloc::{AllocError, Global};
use std::sync::Wait;
use std::test::Fail;
use std::thread::{Threads, join};

const TURNS: u64 = 200;

const ALL_SLAVES: Round = Round {
    seen: [Some(Seen {
        state: State::Slave,
        position: 0,
    }); 7],
};

fn has_not_fallen(before: &PoolWords, now: &PoolWords) -> bool {
    let mut servers = before.servers.iter().zip(&now.servers);
    before.last.sequence <= now.last.sequence
        && servers.all(|(old, new)| old.position <= new.position)
}

// Two passes that call in turn. Once both are one, its parts made every entry of the history.
fn one_after_two<R: Wait>(rt: &R, alloc: Global) -> Result<Pass, AllocError>
    ensures { IfOk result (λ pass. AllOf (parts pass.view) pass.view.seen) }
{
    let (cell, mut first) = PoolCell::new(alloc, 0)?;
    let mut second = cell.split(rt, &mut first);
    cell.observe(rt, &mut second, &ALL_SLAVES);
    cell.route(rt, &mut first);
    cell.join(rt, &mut first, second);
    each_entry_has_its_pass();
    Ok(first)
}

// Records commits of one server and reads after each. Whether nothing fell, and its own commits were there.
fn commits<R: Wait>(rt: &R, cell: &PoolCell, mut pass: Pass, server: u8) -> (Pass, bool)
    requires cell { pass.cell ≡ cell.now.cell }
    requires domain { cell.now.domain ≡ 0 }
    requires server { server < 7 }
    ensures { result.0.cell ≡ cell.entry.now.cell }
{
    let mut steady = true;
    let mut before = cell.route(rt, &mut pass);
    for turn in 1..TURNS {
        let gtid = Gtid {
            domain: 0,
            server: 1,
            sequence: 4 * turn + u64::from(server),
        };
        cell.record(rt, &mut pass, server, gtid);
        let now = cell.route(rt, &mut pass);
        let mine = now.servers[usize::from(server)].position == gtid.sequence;
        steady = steady && mine && has_not_fallen(&before, &now);
        before = now;
    }
    (pass, steady)
}

// Two passes in two threads, then both in the first.
fn two<R: Threads + Wait + Sync>(
    rt: &R,
    cell: &PoolCell,
    one: Pass,
    other: Pass,
    server: u8,
) -> (Pass, bool)
    requires cell { (one.cell ≡ cell.now.cell) × (other.cell ≡ cell.now.cell) }
    requires domain { cell.now.domain ≡ 0 }
    requires server { server < 6 }
    ensures { result.0.cell ≡ cell.entry.now.cell }
{
    let ((mut one, steady), (other, steady_too)) = join(
        rt,
        move || -> (Pass, bool)
            requires { (one.cell ≡ cell.now.cell) × (cell.now.domain ≡ 0) × (server < 6) }
            ensures { result.0.cell ≡ cell.entry.now.cell }
        { commits(rt, cell, one, server) },
        move || -> (Pass, bool)
            requires { (other.cell ≡ cell.now.cell) × (cell.now.domain ≡ 0) × (server < 6) }
            ensures { result.0.cell ≡ cell.entry.now.cell }
        { commits(rt, cell, other, server + 1) },
    );
    cell.join(rt, &mut one, other);
    (one, steady && steady_too)
}

#[test]
fn parts_made_every_entry(rt: HostRuntime) -> Result<(), Fail> {
    one_after_two(&rt, rt.alloc())?;
    Ok(())
}

#[test]
fn what_a_pass_reads_never_goes_back(rt: HostRuntime) -> Result<(), Fail> {
    let (cell, mut first) = PoolCell::new(rt.alloc(), 0)?;
    let second = cell.split(&rt, &mut first);
    let third = cell.split(&rt, &mut first);
    let (mut all, steady) = two(&rt, &cell, second, third, 0);
    assert!(rt; steady);
    cell.observe(&rt, &mut all, &ALL_SLAVES);
    cell.join(&rt, &mut first, all);
    let words = cell.route(&rt, &mut first);
    assert_eq!(rt; words.last.sequence, 4 * TURNS - 3);
    assert_eq!(rt;
        words.servers[0],
        Seen {
            state: State::Slave,
            position: 4 * TURNS - 4
        }
    );
    assert_eq!(rt;
        words.servers[1],
        Seen {
            state: State::Slave,
            position: 4 * TURNS - 3
        }
    );
    assert_eq!(rt;
        words.servers[2],
        Seen {
            state: State::Slave,
            position: 0
        }
    );
    Ok(())
}
