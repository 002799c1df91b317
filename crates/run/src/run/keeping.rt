ghost use Rattle.std.specs.Prelude.{◌≡◌, IfErr, IsOk};
ghost use Rattle.run.specs.Calls.{Keep, settle_answer};
ghost use Rattle.run.specs.Serving.{Keeps, Serves};
ghost use Rattle.run.specs.Standing.{IsSettledBy};

use crate::run::Run;
use crate::tickets::{Ticket, Unsettled};
use station::{Refusal, Station};
use tree::release_leaf;

impl<'a, K: Station> Run<'a, K> {
    // Ends the trial with the new entry.
    pub fn keep(&mut self, ticket: Ticket) -> Result<(), Unsettled>
        ensures serves { Serves K.Summary.joins K.Station.rules (Keep ticket.number) self.old self.new (settle_answer result) }
        ensures keeps { Keeps self.old self.new result }
        ensures ticket { IfErr result (λ e. e.ticket ≡ «ticket») }
        ensures settles { IsSettledBy ticket.number self.old → IsOk result }
    {
        // Begins and ends as `take_back` does: a ticket goes back or is taken apart in the call itself.
        if self.tried_by(&ticket).is_none() {
            return Err(Unsettled {
                refusal: Refusal::NothingToSettle,
                ticket,
            });
        }
        release_leaf(self.cells);
        self.trial = None;
        let Ticket { number: _ } = ticket;
        Ok(())
    }
}
