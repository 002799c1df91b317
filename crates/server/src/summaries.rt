ghost use Rattle.server.specs.Server.{server_joins, server_rules};
ghost use Rattle.std.specs.Prelude.{◌≡◌};
ghost use Rattle.server.specs.ServerLaws.{server_laws, server_steps, server_agrees};

use crate::clock::capped_sum;
use crate::jobs::Job;
use crate::states::ServerState;
use station::{Station, Summary};

// What a stretch of jobs does to a server that falls free at d: it falls free at d + p, and not before q.
#[derive(Clone, Copy)]
pub struct ServerSummary {
    p: u64,
    q: u64,
}

impl ServerSummary {
    // p and q.
    pub fn numbers(self) -> (u64, u64)
        ensures { result ≡ (self.p, self.q) }
    {
        (self.p, self.q)
    }
}

impl Summary for ServerSummary {
    ghost joins = { server_joins };

    ghost laws = { server_laws };

    fn empty() -> ServerSummary {
        ServerSummary { p: 0, q: 0 }
    }

    fn join(self, later: ServerSummary) -> ServerSummary {
        ServerSummary {
            p: capped_sum(self.p, later.p),
            q: capped_sum(self.q, later.p).max(later.q),
        }
    }
}

impl Station for ServerSummary {
    type Item = Job;

    type State = ServerState;

    ghost rules = { server_rules };

    ghost steps = { server_steps };

    ghost agreement = { server_agrees };

    fn step(state: ServerState, item: Job) -> ServerState {
        ServerState {
            free: capped_sum(item.arrival.max(state.free), u64::from(item.service)),
        }
    }

    fn of_item(item: Job) -> ServerSummary {
        let service = u64::from(item.service);
        ServerSummary {
            p: service,
            q: capped_sum(item.arrival, service),
        }
    }

    fn effect(self, state: ServerState) -> ServerState {
        ServerState {
            free: capped_sum(state.free, self.p).max(self.q),
        }
    }
}
