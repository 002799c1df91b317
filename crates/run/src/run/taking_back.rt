ghost use Rattle.std.specs.Prelude.{◌≡◌, IfErr, IsOk};
ghost use Rattle.run.specs.Calls.{TakeBack, settle_answer};
ghost use Rattle.run.specs.Serving.{Keeps, Serves};
ghost use Rattle.run.specs.Standing.{IsSettledBy};

use crate::run::Run;
use crate::tickets::{Ticket, Unsettled};
use station::{Refusal, Station};
use tree::restore_leaf;

impl<'a, K: Station> Run<'a, K> {
    // Ends the trial with the old entry.
    pub fn take_back(&mut self, ticket: Ticket) -> Result<(), Unsettled>
        ensures serves { Serves K.Summary.joins K.Station.rules (TakeBack ticket.number) self.old self.new (settle_answer result) }
        ensures keeps { Keeps self.old self.new result }
        ensures ticket { IfErr result (λ e. e.ticket ≡ «ticket») }
        ensures settles { IsSettledBy ticket.number self.old → IsOk result }
    {
        let Some(position) = self.tried_by(&ticket) else {
            return Err(Unsettled {
                refusal: Refusal::NothingToSettle,
                ticket,
            });
        };
        // Not by `?`, since the ticket goes back with the refusal.
        if let Err(refusal) = restore_leaf(self.cells, position) {
            return Err(Unsettled { refusal, ticket });
        }
        self.trial = None;
        let Ticket { number: _ } = ticket;
        Ok(())
    }
}
