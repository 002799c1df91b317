ghost use Rattle.std.specs.Prelude.{◌≡◌, IfOk};
ghost use Rattle.run.specs.Calls.{Try, answer_by, ticket_granted};
ghost use Rattle.run.specs.Serving.{Keeps, Serves};
ghost use Rattle.run.specs.Standing.{IsSettledBy, tried_by, unless_open, unless_uneditable};

use crate::run::Run;
use crate::tickets::Ticket;
use station::{Refusal, Station};
use tree::try_leaf;

impl<'a, K: Station> Run<'a, K> {
    // Tries another item at a position; the ticket has to be settled.
    pub fn trial(&mut self, position: usize, item: K::Item) -> Result<Ticket, Refusal>
        ensures serves { Serves K.Summary.joins K.Station.rules (Try position item) self.old self.new (answer_by ticket_granted result) }
        ensures keeps { Keeps self.old self.new result }
        ensures settled_by { IfOk result (λ ticket. IsSettledBy ticket.number self.new) }
    {
        self.ensure_editable(position)?;
        try_leaf(self.cells, position, K::of_item(item))?;
        self.trial = Some(position);
        Ok(Ticket {
            number: self.number,
        })
    }

    // Refuses while a trial is open.
    pub(crate) fn ensure_settled(&self) -> Result<(), Refusal>
        ensures { result ≡ unless_open self.now.trial }
    {
        if self.trial.is_some() {
            return Err(Refusal::TrialOpen);
        }
        Ok(())
    }

    // Refuses while a trial is open, and then a position without an entry.
    pub(crate) fn ensure_editable(&self, position: usize) -> Result<(), Refusal>
        ensures { result ≡ unless_uneditable self.now.trial position self.now.length }
    {
        self.ensure_settled()?;
        if position >= self.length {
            return Err(Refusal::NoSuchPosition);
        }
        Ok(())
    }

    // The place that is tried, if a trial is open and this ticket settles it.
    pub(crate) fn tried_by(&self, ticket: &Ticket) -> Option<usize>
        ensures { result ≡ tried_by ticket.now.number self.now }
    {
        if ticket.number == self.number {
            self.trial
        } else {
            None
        }
    }
}
