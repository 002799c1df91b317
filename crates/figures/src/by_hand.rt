use buffer::{BufferState, BufferSummary, Slot};
use counts::{CountState, CountSummary, FrameCount};
use lock::{LockEvent, LockMap};
use server::{Job, ServerState, ServerSummary};
use station::{Refusal, Station, Summary};
use std::io;
use tandem::{TandemJob, TandemState, TandemSummary};
use traces::{gather, prefix, replay, spread};

// From the summaries of some items: the state behind each item, from a start, and the summary of all of them.
fn states_along<K: Station, const N: usize>(
    mut summaries: [K; N],
    start: K::State,
) -> Result<([K::State; N], K), Refusal> {
    let sum = gather(&summaries);
    prefix(&mut summaries);
    let mut states = [start; N];
    spread(&summaries, start, &mut states)?;
    Ok((states, sum))
}

fn server_jobs() -> Result<[Job; 3], Refusal> {
    Ok([Job::new(10, 5)?, Job::new(12, 5)?, Job::new(40, 3)?])
}

fn server_lines(rt: &HostRuntime, states: [ServerState; 3], sum: ServerSummary) -> io::Result<()> {
    let [first, second, third] = states;
    let (p, q) = sum.numbers();
    println!(rt; "  (10, 5) (12, 5) (40, 3) from 0: {first}, {second}, {third}")?;
    println!(rt; "  summary p {p} q {q}")
}

pub fn server(rt: &HostRuntime) -> anyhow::Result<()> {
    println!(rt; "F one server")?;
    let jobs = server_jobs()?;
    let summaries = jobs.map(ServerSummary::of_item);
    let (states, sum) = states_along(summaries, ServerState::default())?;
    server_lines(rt, states, sum)?;
    let later = replay::<ServerSummary>(ServerState::new(100)?, &jobs);
    println!(rt; "  from 100: {later}")?;
    last_tick(rt, 1_099_511_627_774)?;
    last_tick(rt, 1_099_511_627_775)
}

// One more microsecond at the end of the clock.
fn last_tick(rt: &HostRuntime, start: u64) -> anyhow::Result<()> {
    let tick = [Job::new(0, 1)?];
    let end = replay::<ServerSummary>(ServerState::new(start)?, &tick);
    println!(rt; "  (0, 1) from {start}: {end}")?;
    Ok(())
}

fn tandem_lines(rt: &HostRuntime, states: [TandemState; 2], sum: TandemSummary) -> io::Result<()> {
    let [first, second] = states;
    let (p, q, r, t, u) = sum.numbers();
    println!(rt; "  (0, 4, 6) (1, 4, 1) from 0 0: {first}, {second}")?;
    println!(rt; "  summary p {p} q {q} r {r} t {t} u {u}")
}

pub fn tandem(rt: &HostRuntime) -> anyhow::Result<()> {
    println!(rt; "T two servers in tandem")?;
    let jobs = [TandemJob::new(0, 4, 6)?, TandemJob::new(1, 4, 1)?];
    let summaries = jobs.map(TandemSummary::of_item);
    let (states, sum) = states_along(summaries, TandemState::default())?;
    tandem_lines(rt, states, sum)?;
    made(rt, 5, 5)?;
    made(rt, 5, 4)?;
    Ok(())
}

// Whether two times make a start.
fn made(rt: &HostRuntime, first: u64, second: u64) -> io::Result<()> {
    print!(rt; "  start {first} {second}: ")?;
    match TandemState::new(first, second) {
        Ok(state) => println!(rt; "made, {state}"),
        Err(refusal) => println!(rt; "{refusal}"),
    }
}

fn buffer_lines(rt: &HostRuntime, state: BufferState, sum: BufferSummary) -> io::Result<()> {
    let (queue, lost, served) = state.numbers();
    let (alpha, theta, g, k, m) = sum.numbers();
    println!(rt; "  (5, 2, 4) (1, 3, 4) from 0: x {queue} lost {lost} served {served}")?;
    println!(rt; "  summary alpha {alpha} theta {theta} g {g} k {k} m {m}")
}

pub fn buffered(rt: &HostRuntime) -> io::Result<()> {
    println!(rt; "B slotted buffer")?;
    let slots = [Slot::new(5, 2, 4), Slot::new(1, 3, 4)];
    let state = replay::<BufferSummary>(BufferState::new(0, 0, 0), &slots);
    let sum = gather(&slots.map(BufferSummary::of_item));
    buffer_lines(rt, state, sum)
}

pub fn locked(rt: &HostRuntime) -> anyhow::Result<()> {
    println!(rt; "S receiver lock, maps in octal")?;
    joined_maps(rt, 'G', 'G')?;
    joined_maps(rt, 'S', 'T')?;
    joined_maps(rt, 'T', 'S')
}

fn joined_bits(earlier: char, later: char) -> Result<u32, Refusal> {
    let front = LockMap::of_item(LockEvent::new(earlier)?);
    let back = LockMap::of_item(LockEvent::new(later)?);
    Ok(front.join(back).bits())
}

fn joined_maps(rt: &HostRuntime, earlier: char, later: char) -> anyhow::Result<()> {
    let bits = joined_bits(earlier, later)?;
    println!(rt; "  {earlier} then {later}: {bits:08o}")?;
    Ok(())
}

pub fn counted(rt: &HostRuntime) -> anyhow::Result<()> {
    println!(rt; "C frame counts")?;
    counted_pair(rt, 16_383, 0)?;
    counted_pair(rt, 0, 8_192)?;
    counted_pair(rt, 0, 8_193)
}

fn tallies(first: u16, second: u16) -> Result<(u32, u32, u32), Refusal> {
    let frames = [FrameCount::new(first)?, FrameCount::new(second)?];
    let state = replay::<CountSummary>(CountState::default(), &frames);
    let (_, missing, repeats, late) = state.numbers();
    Ok((missing, repeats, late))
}

fn counted_pair(rt: &HostRuntime, first: u16, second: u16) -> anyhow::Result<()> {
    let (missing, repeats, late) = tallies(first, second)?;
    println!(rt; "  {first} then {second}: missing {missing} repeats {repeats} late {late}")?;
    Ok(())
}
