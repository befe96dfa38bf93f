//! Connections of which nothing came for too long.

use crate::peer::Phase;
use crate::table::{Deadline, Table};
use mio::Registry;
use std::alloc::AllocError;
use std::net::Net;

impl Table {
    /// Takes in how late it is, when a clock is given: the listener is tried again where the system was short of something, and
    /// connections that were made or given up for too long end.
    pub fn tick<R: Net>(&mut self, rt: &R, registry: &Registry) -> Result<(), AllocError> {
        if self.gate.paused {
            self.gate.paused = false;
            self.queue_gate()?;
        }
        for _ in 0..self.deadlines.len() {
            let Some(deadline) = self.deadlines.front().copied() else {
                return Ok(());
            };
            if deadline.until_ms > self.now_ms {
                return Ok(());
            }
            let _ = self.deadlines.pop_front();
            self.expire(rt, registry, deadline.place)?;
        }
        Ok(())
    }

    /// A connection that is open has no deadline, and one that sent something meanwhile has a later one.
    fn expire<R: Net>(
        &mut self,
        rt: &R,
        registry: &Registry,
        place: usize,
    ) -> Result<(), AllocError> {
        let Some(peer) = self.peers.get(place) else {
            return Ok(());
        };
        let until_ms = peer.until_ms;
        match peer.phase {
            Phase::Open => Ok(()),
            _ if until_ms > self.now_ms => self.look_again(place, until_ms),
            Phase::Leaving => {
                self.remove(place);
                Ok(())
            }
            Phase::Opening { tried } => {
                self.try_next(rt, registry, place, tried)?;
                let until_ms = self.patience_ends();
                self.look_again(place, until_ms)
            }
        }
    }

    /// Has a connection looked at again at this time.
    fn look_again(&mut self, place: usize, until_ms: u64) -> Result<(), AllocError> {
        self.deadlines.push_back(Deadline { place, until_ms })?;
        Ok(())
    }
}
