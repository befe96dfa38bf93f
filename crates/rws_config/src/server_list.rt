//! A list of servers, which contracts see as a list.

ghost use Rattle.std.specs.Prelude.{◌≡◌, ◌++◌, ◌==◌, List, [], ◌∷◌, length, slice_get, OnOk, OnErr};
ghost use Rattle.std.specs.Option.{option_copied};
ghost use Rattle.rws_config.specs.declared.server.Server.{Server};

use crate::Server;
use std::alloc::{AllocError, Global};
use std::marker::Model;

/// Servers in order.
#[derive(Debug, Drop)]
pub struct ServerList {
    servers: Vec<Server>,
}

impl Model for ServerList {
    ghost Value = { List Server };

    ghost view = { λ list. list.servers.items };
}

impl ServerList {
    /// No servers, which takes no memory.
    pub fn new(alloc: Global) -> ServerList
        ensures { result ≡ [] }
    {
        ServerList {
            servers: Vec::new(alloc),
        }
    }

    pub fn len(&self) -> usize
        ensures { result ≡ length self.now }
    {
        self.servers.len()
    }

    pub fn is_empty(&self) -> bool
        ensures { result ≡ (length self.now == 0) }
    {
        self.servers.is_empty()
    }

    pub fn as_slice(&self) -> &[Server]
        ensures { result.now ≡ self.now }
    {
        self.servers.as_slice()
    }

    /// The server of this index, counted from 0.
    pub fn get(&self, index: usize) -> Option<&Server>
        ensures { option_copied result ≡ slice_get self.now index }
    {
        self.servers.as_slice().get(index)
    }

    /// Puts a server at the end.
    pub fn push(&mut self, server: Server) -> Result<(), AllocError>
        ensures ok { OnOk result (self.new ≡ self.old ++ server ∷ []) }
        ensures err { OnErr result (self.new ≡ self.old) }
    {
        self.servers.push(server)?;
        Ok(())
    }
}
