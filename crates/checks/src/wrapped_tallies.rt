use buffer::{BufferState, BufferSummary, Slot};
use counts::{CountState, CountSummary, FrameCount};
use station::{Station, Summary};
use std::test::Fail;
use traces::replay;

#[test]
fn of_the_buffer(rt: HostRuntime) {
    // 7 of 10 are lost and 2 are served, each tally one short of 2^32 before
    let start = BufferState::new(4, u32::MAX, u32::MAX);
    let slot = Slot::new(6, 2, 3);
    let end = BufferState::new(1, 6, 1);
    assert_eq!(rt; replay::<BufferSummary>(start, &[slot]), end);
    assert_eq!(rt; BufferSummary::of_item(slot).effect(start), end);
}

#[test]
fn of_a_joined_buffer(rt: HostRuntime) {
    // the summary's own tallies pass 2^32: 65535 arrivals a slot, 65,538 slots
    let slot = BufferSummary::of_item(Slot::new(65_535, 0, 0));
    let mut sum = slot;
    for _ in 0..16 {
        sum = sum.join(sum);
    }
    // 65,536 slots of 65,535 are 4,294,901,760; two more pass 2^32 by 65,534
    let (_, _, _, k, m) = sum.join(slot).join(slot).numbers();
    assert_eq!(rt; k, 65_534);
    assert_eq!(rt; m, 65_534);
}

#[test]
fn of_counts(rt: HostRuntime) -> Result<(), Fail> {
    let gap = [FrameCount::new(8_192)?];
    let start = CountState::new(Some(0), u32::MAX, 1, 2)?;
    let end = replay::<CountSummary>(start, &gap);
    assert_eq!(rt; end.numbers(), (Some(8_192), 8_190, 1, 2));
    assert_eq!(rt; CountSummary::of_item(gap[0]).effect(start), end);
    let again = CountState::new(Some(8_192), 0, u32::MAX, 0)?;
    assert_eq!(rt;
        replay::<CountSummary>(again, &gap).numbers(),
        (Some(8_192), 0, 0, 0)
    );
    let late = CountState::new(Some(8_193), 0, 0, u32::MAX)?;
    assert_eq!(rt;
        replay::<CountSummary>(late, &gap).numbers(),
        (Some(8_192), 0, 0, 0)
    );
    Ok(())
}
