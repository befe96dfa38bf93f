//! The calls that an object in memory is to fail.
ghost use Rattle.std.specs.Prelude.{◌≡◌, ◌↔◌, List, ℕ, Contains, IfOk, IsTrue};

use std::alloc::{AllocError, Global};
use std::marker::Model;

/// Numbers of calls, counted from 0.
#[derive(Debug, Drop)]
pub struct CallList {
    calls: Vec<u64>,
}

impl Model for CallList {
    ghost Value = { List ℕ };

    ghost view = { λ list. list.calls.items };
}

impl CallList {
    pub fn from_slice(alloc: Global, calls: &[u64]) -> Result<CallList, AllocError>
        ensures { IfOk result (λ list. list ≡ calls.now) }
    {
        Ok(CallList {
            calls: Vec::from_slice(alloc, calls)?,
        })
    }

    pub fn contains(&self, call: u64) -> bool
        ensures { IsTrue result ↔ Contains self.now call }
    {
        self.calls.contains(&call)
    }
}
