ghost use Rattle.std.specs.Prelude.{◌≡◌, ◌+◌, ◌-◌, ◌≤◌, min};
ghost use Rattle.buffer.specs.Summaries.{held, queue_behind, bound_before, buffer_joins, buffer_rules};
ghost use Rattle.buffer.specs.Tallies.{queue_limit};
ghost use Rattle.buffer.specs.BufferLaws.{buffer_laws, buffer_steps, buffer_agrees};

use crate::slots::Slot;
use crate::states::BufferState;
use station::{Station, Summary};

// What a stretch of slots does to any queue before it. The queues from alpha to theta become those from g on, one for
// one; a lower queue ends as alpha does, a higher as theta does, and what it has above theta is lost besides. Whatever
// the queue, k are lost, and m arrive. The tallies k and m count modulo 2^32.
#[derive(Clone, Copy)]
pub struct BufferSummary {
    alpha: u16,
    theta: u16,
    g: u16,
    k: u32,
    m: u32,
}

// No queue is longer.
const QUEUE_LIMIT: u16 = 65535;

impl BufferSummary {
    // Alpha, theta, g, k and m.
    pub fn numbers(self) -> (u16, u16, u16, u32, u32)
        ensures { result ≡ (self.alpha, self.theta, self.g, self.k, self.m) }
    {
        (self.alpha, self.theta, self.g, self.k, self.m)
    }

    // Holds x in alpha..theta, at alpha where alpha lies above theta. Here and below the contracts name the numbers, as the
    // rules of a stretch do, which know no summary.
    fn hold(self, x: u32) -> u16
        ensures { result ≡ held self.alpha self.theta x }
    {
        self.alpha.max(x.min(u32::from(self.theta)) as u16)
    }

    // What a queue becomes. A value that is no summary could lead past the limit, so the sum stops there.
    fn queue_behind(self, queue: u16) -> u16
        ensures { result ≡ min (queue_behind self.alpha self.theta self.g queue) queue_limit }
    {
        let above = self.hold(u32::from(queue)) - self.alpha;
        self.g.saturating_add(above)
    }

    // What a queue has above theta, which is lost.
    fn over(self, queue: u16) -> u32
        ensures { result ≡ queue - self.theta }
    {
        u32::from(queue.saturating_sub(self.theta))
    }

    // A bound on the queue behind the stretch, as one on the queue before it: the queue that becomes it, if one does.
    fn bound_before(self, bound: u16) -> u16
        ensures is { result ≡ bound_before self.alpha self.theta self.g bound }
        ensures below { self.alpha + bound ≤ self.g → result ≡ self.alpha }
    {
        let sum = u32::from(self.alpha) + u32::from(bound);
        self.hold(sum.saturating_sub(u32::from(self.g)))
    }
}

impl Summary for BufferSummary {
    ghost joins = { buffer_joins };

    ghost laws = { buffer_laws };

    fn empty() -> BufferSummary {
        BufferSummary {
            alpha: 0,
            theta: QUEUE_LIMIT,
            g: 0,
            k: 0,
            m: 0,
        }
    }

    fn join(self, later: BufferSummary) -> BufferSummary {
        let over = later.over(self.g);
        BufferSummary {
            alpha: self.bound_before(later.alpha),
            theta: self.bound_before(later.theta),
            g: later.queue_behind(self.g),
            k: self.k.wrapping_add(later.k).wrapping_add(over),
            m: self.m.wrapping_add(later.m),
        }
    }
}

impl Station for BufferSummary {
    type Item = Slot;

    type State = BufferState;

    ghost rules = { buffer_rules };

    ghost steps = { buffer_steps };

    ghost agreement = { buffer_agrees };

    fn step(state: BufferState, item: Slot) -> BufferState {
        let (arrivals, service, limit) = item.numbers();
        let (queue, lost, served) = state.numbers();
        let come = u32::from(queue) + u32::from(arrivals);
        let kept = come.min(u32::from(limit));
        let done = kept.min(u32::from(service));
        BufferState::new(
            (kept - done) as u16,
            lost.wrapping_add(come - kept),
            served.wrapping_add(done),
        )
    }

    fn of_item(item: Slot) -> BufferSummary {
        let (arrivals, service, limit) = item.numbers();
        let theta = limit.saturating_sub(arrivals);
        BufferSummary {
            alpha: theta.min(service.saturating_sub(arrivals)),
            theta,
            g: arrivals.min(limit).saturating_sub(service),
            k: u32::from(arrivals.saturating_sub(limit)),
            m: u32::from(arrivals),
        }
    }

    fn effect(self, state: BufferState) -> BufferState {
        let (queue, lost, served) = state.numbers();
        let after = self.queue_behind(queue);
        let gone = self.k.wrapping_add(self.over(queue));
        let come = served.wrapping_add(u32::from(queue)).wrapping_add(self.m);
        BufferState::new(
            after,
            lost.wrapping_add(gone),
            come.wrapping_sub(u32::from(after)).wrapping_sub(gone),
        )
    }
}
