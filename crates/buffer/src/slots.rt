ghost use Rattle.std.specs.Prelude.{◌≡◌};
ghost use Rattle.buffer.specs.Steps.{slot};
ghost use Rattle.buffer.specs.Summaries.{buffer_rules};

// One slot: the arrivals join the queue, what then stands above the limit is lost, and at most the service leaves.
#[derive(Clone, Copy, PartialEq, Eq, Debug)]
pub struct Slot {
    arrivals: u16,
    service: u16,
    limit: u16,
}

impl Slot {
    pub fn new(arrivals: u16, service: u16, limit: u16) -> Slot
        ensures is { result ≡ slot arrivals service limit }
        ensures counts { buffer_rules.is_item result }
    {
        Slot {
            arrivals,
            service,
            limit,
        }
    }

    // Arrivals, service and limit.
    pub fn numbers(self) -> (u16, u16, u16)
        ensures { result ≡ (self.arrivals, self.service, self.limit) }
    {
        (self.arrivals, self.service, self.limit)
    }
}
