use counts::FrameCount;
use pairs::CountedJob;
use station::{Pair, Refusal};
use tandem::TandemJob;

// The items of the run's entries at each step, kept beside the run for the replay.
#[derive(Clone, Copy)]
pub struct Pass<I> {
    pub recorded: [I; 6],
    pub tried: [I; 6],
    pub withdrawn: [I; 5],
    pub appended: [I; 4],
}

fn frame(count: u16, arrival: u64, first: u32, second: u32) -> Result<CountedJob, Refusal> {
    Ok(Pair {
        first: FrameCount::new(count)?,
        second: TandemJob::new(arrival, first, second)?,
    })
}

// The count wraps in mid-pass; then one frame is missing, one comes twice and one late.
fn recorded() -> Result<[CountedJob; 6], Refusal> {
    Ok([
        frame(16_382, 10, 5, 8)?,
        frame(16_383, 20, 5, 8)?,
        frame(0, 30, 5, 8)?,
        frame(2, 40, 5, 8)?,
        frame(2, 50, 5, 8)?,
        frame(1, 60, 5, 8)?,
    ])
}

// The third frame is tried as a later and longer burst, and kept so; the fourth is withdrawn; the last two are cut off,
// and another frame is appended.
pub fn planned() -> Result<Pass<CountedJob>, Refusal> {
    let [a, b, c, d, e, f] = recorded()?;
    let burst = frame(0, 70, 20, 30)?;
    let added = frame(5, 90, 4, 6)?;
    Ok(Pass {
        recorded: [a, b, c, d, e, f],
        tried: [a, b, burst, d, e, f],
        withdrawn: [a, b, burst, e, f],
        appended: [a, b, burst, added],
    })
}
