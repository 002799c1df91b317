use buffer::{BufferState, BufferSummary, Slot};
use counts::{CountState, CountSummary, FrameCount};
use lock::{LockEvent, LockMap, LockState};
use pairs::{CountedState, CountedTandem, LockedBuffer, LockedState};
use server::{Job, ServerState, ServerSummary};
use station::{Pair, Recorded, Refusal, Station};
use std::alloc::{AllocError, Global};
use std::fmt::Display;
use tandem::{TandemJob, TandemState, TandemSummary};
use traces::{Entry, replay, summarize};

// The effect of the join of a trace's two halves' summaries.
fn joined<K: Station>(trace: &[Entry<K::Item>], start: K::State) -> K::State {
    let half = trace.len() / 2;
    let front = summarize::<K>(&trace[0..half]);
    let back = summarize::<K>(&trace[half..]);
    front.join(back).effect(start)
}

// A trace both ways.
fn show<K: Recorded>(rt: &HostRuntime, start: K::State, items: &[K::Item]) -> anyhow::Result<()>
where
    K::State: Display + Drop,
{
    let kind = K::letter();
    let trace: Vec<Entry<K::Item>> = items.iter().copied().map(Some).collect(rt.alloc())?;
    let replayed = replay::<K>(start, items);
    println!(rt; "{kind} replay {replayed}")?;
    let joined = joined::<K>(&trace, start);
    println!(rt; "{kind} joined {joined}")?;
    Ok(())
}

// Times that reach the end of the clock.
fn jobs() -> Result<[Job; 5], Refusal> {
    Ok([
        Job::new(10, 5)?,
        Job::new(1_099_511_627_745, 16)?,
        Job::new(1_099_511_627_755, 4)?,
        Job::new(0, 2)?,
        Job::new(1_099_511_627_766, 16_777_215)?,
    ])
}

fn tandem_jobs() -> Result<[TandemJob; 4], Refusal> {
    Ok([
        TandemJob::new(0, 4, 6)?,
        TandemJob::new(1, 4, 1)?,
        TandemJob::new(1_099_511_627_763, 5, 9)?,
        TandemJob::new(1_099_511_627_764, 2, 3)?,
    ])
}

// Losses on a small buffer, and on one that is full.
fn slots() -> [Slot; 5] {
    [
        Slot::new(5, 2, 4),
        Slot::new(9, 3, 6),
        Slot::new(0, 7, 65_535),
        Slot::new(65_535, 0, 65_535),
        Slot::new(65_535, 1, 65_530),
    ]
}

// Into lock, and two bad markers.
fn events() -> Result<[LockEvent; 5], Refusal> {
    let good = LockEvent::new('G')?;
    let bad = LockEvent::new('B')?;
    Ok([good, good, good, bad, bad])
}

// A count that wraps in mid-pass, with a gap, a repeat and a late frame.
fn frames() -> Result<[FrameCount; 5], Refusal> {
    let again = FrameCount::new(1)?;
    Ok([
        FrameCount::new(16_382)?,
        FrameCount::new(16_383)?,
        again,
        again,
        FrameCount::new(0)?,
    ])
}

// Each of some items with another, as far as there are both.
fn beside<A: Copy, B: Copy>(
    heap: Global,
    firsts: &[A],
    seconds: &[B],
) -> Result<Vec<Pair<A, B>>, AllocError> {
    firsts
        .iter()
        .copied()
        .zip(seconds.iter().copied())
        .map(|(first, second)| Pair { first, second })
        .collect(heap)
}

pub fn server(rt: &HostRuntime) -> anyhow::Result<()> {
    show::<ServerSummary>(rt, ServerState::new(7)?, &jobs()?)
}

pub fn tandem(rt: &HostRuntime) -> anyhow::Result<()> {
    show::<TandemSummary>(rt, TandemState::new(2, 9)?, &tandem_jobs()?)
}

// From tallies that pass 2^32.
pub fn buffered(rt: &HostRuntime) -> anyhow::Result<()> {
    let start = BufferState::new(3, 4_294_967_295, 4_294_967_290);
    show::<BufferSummary>(rt, start, &slots())
}

pub fn locked(rt: &HostRuntime) -> anyhow::Result<()> {
    show::<LockMap>(rt, LockState::default(), &events()?)
}

pub fn counted(rt: &HostRuntime) -> anyhow::Result<()> {
    show::<CountSummary>(rt, CountState::default(), &frames()?)
}

pub fn counted_tandem(rt: &HostRuntime) -> anyhow::Result<()> {
    let jobs = beside(rt.alloc(), &frames()?, &tandem_jobs()?)?;
    show::<CountedTandem>(rt, CountedState::default(), &jobs)
}

pub fn locked_buffer(rt: &HostRuntime) -> anyhow::Result<()> {
    let slots = beside(rt.alloc(), &events()?, &slots())?;
    show::<LockedBuffer>(rt, LockedState::default(), &slots)
}
