//! A board over sockets.
ghost use Rattle.std.specs.Prelude.{◌≡◌, ◌≤◌, None, Some, IfOk, IsErrOf, MatchOption, MatchResult, ⊤};
ghost use Rattle.rws_board.specs.Faults.{Rises};
ghost use Rattle.rws_mio.specs.Outside.{CameAt, GivenAt, GivenOf};

use crate::sockets::Sockets;
use rws_board::{Action, Board, BoardFault, Event};
use rws_make::{Timer, counted};
use rws_pool::PoolCall;
use std::net::{Net, SocketAddr};
use std::rt::Files;
use std::time::Clock;

/// Clients that connect to one address, and the links of their sessions, in one poll loop. It tells no list of what it did.
///
/// A `Clock` comes at the first event that is given `wait_ms` milliseconds or more after the last one, and so at least that often.
/// It shows the milliseconds since the board was made.
#[derive(Drop)]
pub struct MioBoard<R: Net + Clock + Files + Drop> {
    rt: R,
    sockets: Sockets,
    timer: Timer,
    left: Option<u64>,
    faults: u64,
}

impl<R: Net + Clock + Files + Drop> MioBoard<R> {
    /// A board over these sockets, of which no call failed. Its end comes after so many events; where they are 0 it has none.
    pub(crate) fn new(rt: R, sockets: Sockets, timer: Timer, events: u64) -> MioBoard<R>
        ensures faults { result.faults ≡ 0 }
        ensures endless { events ≡ 0 → result.left ≡ None }
        ensures left { 1 ≤ events → result.left ≡ Some events }
    {
        MioBoard {
            rt,
            sockets,
            timer,
            left: if events == 0 { None } else { Some(events) },
            faults: 0,
        }
    }

    /// How many calls failed.
    pub fn faults(&self) -> u64
        ensures { result ≡ self.now.faults }
    {
        self.faults
    }

    /// Where clients connect to; None where there is no listener.
    pub fn address(&self) -> Option<SocketAddr> {
        self.sockets.address()
    }

    /// Gives the next event, or the end.
    fn give(&mut self, wait_ms: u64) -> Result<Event, BoardFault>
        ensures given { IfOk result (λ event. GivenAt self.old.left self.new.left self.old.timer.reading self.new.timer.reading event) }
        ensures faults { self.new.faults ≡ self.old.faults }
    {
        self.sockets.flush()?;
        match self.left {
            None => came(&self.rt, &mut self.sockets, &mut self.timer, wait_ms),
            Some(more) => self.give_of(more, wait_ms),
        }
    }

    /// Gives the next event of so many, or the end.
    fn give_of(&mut self, more: u64, wait_ms: u64) -> Result<Event, BoardFault>
        requires { self.old.left ≡ Some more }
        ensures given { IfOk result (λ event. GivenOf more self.new.left self.old.timer.reading self.new.timer.reading event) }
        ensures faults { self.new.faults ≡ self.old.faults }
    {
        if more == 0 {
            return Ok(Event::End);
        }
        let event = came(&self.rt, &mut self.sockets, &mut self.timer, wait_ms)?;
        self.left = Some(more - 1);
        Ok(event)
    }
}

impl<R: Net + Clock + Files + Drop> Board for MioBoard<R> {
    ghost did = { λ _ _ _ _. ⊤ };

    ghost faults = { λ b. b.faults };

    fn next(&mut self, wait_ms: u64) -> Result<Event, BoardFault>
        ensures did { MatchResult result (λ _. ⊤) (λ _. ⊤) }
        ensures counts { self.old.faults ≤ self.new.faults }
        ensures failed { IsErrOf result BoardFault.Failed → Rises self.old.faults self.new.faults }
        ensures given { IfOk result (λ event. GivenAt self.old.left self.new.left self.old.timer.reading self.new.timer.reading event) }
    {
        match self.give(wait_ms) {
            Ok(event) => Ok(event),
            Err(fault) => {
                self.faults = counted(self.faults, fault);
                Err(fault)
            }
        }
    }

    fn act(&mut self, action: Action) -> Result<(), BoardFault> {
        self.sockets.act(&self.rt, action)?;
        Ok(())
    }

    fn tell(&mut self, _call: &PoolCall) -> Result<(), BoardFault> {
        Ok(())
    }

    ghost did_nothing = { λ _. tt };
}

/// The next event from the clock or from a socket.
fn came<R: Net + Clock + Files>(
    rt: &R,
    sockets: &mut Sockets,
    timer: &mut Timer,
    wait_ms: u64,
) -> Result<Event, BoardFault>
    ensures { IfOk result (λ event. CameAt timer.old.reading timer.new.reading event) }
{
    for _ in 0..u64::MAX {
        match look(rt, sockets, timer, wait_ms)? {
            Some(event) => return Ok(event),
            None => {}
        }
    }
    Err(BoardFault::Failed)
}

/// Does one thing: gives a clock that is due, serves a socket, or waits for the sockets.
#[tactic(auto, using(crate::proofs::OutsideLemmas::heard_at))]
fn look<R: Net + Clock + Files>(
    rt: &R,
    sockets: &mut Sockets,
    timer: &mut Timer,
    wait_ms: u64,
) -> Result<Option<Event>, BoardFault>
    ensures { IfOk result (λ found. MatchOption found
        (timer.new.reading ≡ timer.old.reading)
        (λ event. CameAt timer.old.reading timer.new.reading event)) }
{
    let now = timer.now(rt)?;
    sockets.set_now(now);
    let left = timer.left(now, wait_ms.max(1));
    if left == 0 {
        sockets.tick(rt)?;
        return Ok(Some(Event::Clock {
            now_ms: timer.read(now),
        }));
    }
    match sockets.turn(rt, left)? {
        Some(event) => Ok(Some(event)),
        None => Ok(None),
    }
}
