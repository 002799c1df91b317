//! Long traces of every kind, cut in several ways, against the replay, whose figure was computed apart from this program.
use buffer::{BufferState, BufferSummary, Slot};
use counts::{CountState, CountSummary, FrameCount};
use lock::{LockEvent, LockMap, LockState};
use pairs::{CountedTandem, LockedBuffer, LockedState};
use server::{Job, ServerState, ServerSummary};
use station::{Pair, Refusal, Station};
use std::alloc::Global;
use std::fmt::{Debug, Display};
use std::iter::once;
use std::process::Abort;
use std::test::Fail;
use tandem::{TandemJob, TandemState, TandemSummary};
use traces::{Entry, replay, summarize};

const ITEMS: usize = 200;

// Numbers that look random: x becomes (1103515245 x + 12345) modulo 2^31, and 16 of its bits, from bit 8 on, are given.
#[derive(Drop)]
struct Noise {
    x: u64,
}

impl Noise {
    fn next(&mut self) -> u16 {
        self.x = self.x.wrapping_mul(1_103_515_245).wrapping_add(12_345) % 2_147_483_648;
        ((self.x / 256) % 65_536) as u16
    }

    fn job(&mut self) -> Result<Job, Refusal> {
        let arrival = u64::from(self.next());
        let service = u32::from(self.next() % 512);
        Job::new(arrival, service)
    }

    fn tandem_job(&mut self) -> Result<TandemJob, Refusal> {
        let arrival = u64::from(self.next());
        let first = u32::from(self.next() % 512);
        let second = u32::from(self.next() % 512);
        TandemJob::new(arrival, first, second)
    }

    fn slot(&mut self) -> Slot {
        let arrivals = self.next() % 100;
        let service = self.next() % 100;
        Slot::new(arrivals, service, self.next() % 150)
    }

    fn event(&mut self) -> Result<LockEvent, Refusal> {
        let letters = ['G', 'G', 'G', 'B', 'B', 'L', 'S', 'T'];
        LockEvent::new(letters[usize::from(self.next() % 8)])
    }

    // The count that follows, by one or by a jump.
    fn frame(&mut self, last: u16) -> Result<FrameCount, Refusal> {
        let jumps = [1, 1, 1, 1, 0, 3, 8_000, 16_000];
        let jump: u32 = jumps[usize::from(self.next() % 8)];
        FrameCount::new(((u32::from(last) + jump) % 16_384) as u16)
    }
}

// The trace cut at two places: the effect of the pieces' summaries, joined in both bracketings.
fn cut<K: Station>(
    trace: &[Entry<K::Item>],
    start: K::State,
    first: usize,
    second: usize,
) -> (K::State, K::State) {
    let second = second.min(trace.len());
    let first = first.min(second);
    let a = summarize::<K>(&trace[0..first]);
    let b = summarize::<K>(&trace[first..second]);
    let c = summarize::<K>(&trace[second..]);
    (
        a.join(b).join(c).effect(start),
        a.join(b.join(c)).effect(start),
    )
}

// The items that are made one after another of noise with a seed.
fn made<I: Drop, F: FnMut(&mut Noise) -> Result<I, Refusal>>(
    heap: Global,
    seed: u64,
    mut make: F,
) -> Result<Vec<I>, Fail>
    requires { F.IsAlwaysCallable make }
{
    let mut noise = Noise { x: seed };
    let mut items = Vec::new(heap);
    for _ in 0..ITEMS {
        items.push(make(&mut noise)?)?;
    }
    Ok(items)
}

fn agree<K: Station>(
    rt: &impl Abort,
    heap: Global,
    start: K::State,
    items: &[K::Item],
    figure: &str,
) -> Result<(), Fail>
where
    K::State: PartialEq + Debug + Display + Drop,
{
    let end = replay::<K>(start, items);
    let trace: Vec<Entry<K::Item>> = items
        .iter()
        .flat_map(|item| once(Some(*item)).chain(once(None)))
        .collect(heap)?;
    for place in 0..20usize {
        let (left, right) = cut::<K>(&trace, start, place * place, place * 21);
        assert!(rt; left == end);
        assert!(rt; right == end);
    }
    let text = format!(in heap; "{end}")?;
    assert!(rt; text.as_str() == figure);
    Ok(())
}

#[test]
fn of_one_server(rt: HostRuntime) -> Result<(), Fail> {
    let jobs = made(rt.alloc(), 1, Noise::job)?;
    agree::<ServerSummary>(&rt, rt.alloc(), ServerState::new(77)?, &jobs, "110779")
}

#[test]
fn of_servers_in_tandem(rt: HostRuntime) -> Result<(), Fail> {
    let jobs = made(rt.alloc(), 2, Noise::tandem_job)?;
    agree::<TandemSummary>(
        &rt,
        rt.alloc(),
        TandemState::new(5, 900)?,
        &jobs,
        "113406 120066",
    )
}

#[test]
fn of_the_buffer(rt: HostRuntime) -> Result<(), Fail> {
    let slots = made(rt.alloc(), 3, |noise| Ok(noise.slot()))?;
    let start = BufferState::new(65_535, u32::MAX, u32::MAX);
    agree::<BufferSummary>(&rt, rt.alloc(), start, &slots, "20 69146 5730")
}

#[test]
fn of_receiver_lock(rt: HostRuntime) -> Result<(), Fail> {
    let events = made(rt.alloc(), 4, Noise::event)?;
    agree::<LockMap>(&rt, rt.alloc(), LockState::new(6)?, &events, "7")
}

#[test]
fn of_frame_counts(rt: HostRuntime) -> Result<(), Fail> {
    let mut last = 16_380;
    let frames = made(rt.alloc(), 5, |noise| {
        let frame = noise.frame(last)?;
        last = frame.count();
        Ok(frame)
    })?;
    agree::<CountSummary>(
        &rt,
        rt.alloc(),
        CountState::default(),
        &frames,
        "12265 152023 27 23",
    )
}

#[test]
fn of_counts_beside_tandem(rt: HostRuntime) -> Result<(), Fail> {
    let mut last = 16_380;
    let items = made(rt.alloc(), 6, |noise| {
        let first = noise.frame(last)?;
        last = first.count();
        let second = noise.tandem_job()?;
        Ok(Pair { first, second })
    })?;
    let start = Pair {
        first: CountState::new(Some(16_000), 0, 0, 0)?,
        second: TandemState::default(),
    };
    let figure = "14883 280021 24 30 111908 113514";
    agree::<CountedTandem>(&rt, rt.alloc(), start, &items, figure)
}

#[test]
fn of_lock_beside_buffer(rt: HostRuntime) -> Result<(), Fail> {
    let items = made(rt.alloc(), 7, |noise| {
        let first = noise.event()?;
        let second = noise.slot();
        Ok(Pair { first, second })
    })?;
    agree::<LockedBuffer>(
        &rt,
        rt.alloc(),
        LockedState::default(),
        &items,
        "0 0 3190 6207",
    )
}
