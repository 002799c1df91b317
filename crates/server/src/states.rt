ghost use Rattle.std.specs.Prelude.{◌≡◌, IfOk, Some};
ghost use Rattle.server.specs.Server.{made_server_state, server_rules, server_state, server_text};

use crate::clock::CLOCK_END;
use station::Refusal;
use std::fmt;

// The time at which the server falls free.
#[derive(Clone, Copy, PartialEq, Eq, Debug)]
pub struct ServerState {
    pub(crate) free: u64,
}

impl ServerState {
    pub fn new(free: u64) -> Result<ServerState, Refusal>
        ensures is { result ≡ made_server_state free }
        ensures counts { IfOk result (λ state. server_rules.is_state state) }
    {
        if free > CLOCK_END {
            return Err(Refusal::StateLimit);
        }
        Ok(ServerState { free })
    }

    pub fn free(self) -> u64
        ensures { result ≡ self.free }
    {
        self.free
    }
}

// Written out: a pass starts from zeros because the rules say so, and a derive would not be held to that here.
impl Default for ServerState {
    ghost is_default = { λ state. state ≡ server_state 0 };

    fn default() -> ServerState {
        ServerState { free: 0 }
    }
}

impl fmt::Display for ServerState {
    ghost output = { λ state. Some (server_text state) };

    fn fmt<W: fmt::Write>(&self, f: &mut fmt::Formatter<W>) -> fmt::Result {
        let ServerState { free } = *self;
        write!(f, "{free}")
    }
}
