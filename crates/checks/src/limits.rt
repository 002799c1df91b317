use buffer::{BufferState, Slot};
use counts::{CountState, FrameCount};
use lock::{LockEvent, LockState};
use server::{Job, ServerState};
use station::Refusal;
use std::test::Fail;
use tandem::{TandemJob, TandemState};

// Written again, so that the tests don't take the limits from what they test.
pub const CLOCK_END: u64 = 1_099_511_627_775;

pub const SERVICE_LIMIT: u32 = 16_777_215;

#[test]
fn of_jobs(rt: HostRuntime) -> Result<(), Fail> {
    assert_eq!(rt;
        Job::new(CLOCK_END, SERVICE_LIMIT)?.numbers(),
        (CLOCK_END, SERVICE_LIMIT)
    );
    assert_eq!(rt; Job::new(0, 0)?.numbers(), (0, 0));
    assert_eq!(rt; Job::new(CLOCK_END + 1, 0), Err(Refusal::ItemLimit));
    assert_eq!(rt; Job::new(0, SERVICE_LIMIT + 1), Err(Refusal::ItemLimit));
    assert_eq!(rt; Job::new(u64::MAX, u32::MAX), Err(Refusal::ItemLimit));
    Ok(())
}

#[test]
fn of_tandem_jobs(rt: HostRuntime) -> Result<(), Fail> {
    let most = TandemJob::new(CLOCK_END, SERVICE_LIMIT, SERVICE_LIMIT)?;
    assert_eq!(rt; most.numbers(), (CLOCK_END, SERVICE_LIMIT, SERVICE_LIMIT));
    assert_eq!(rt;
        TandemJob::new(CLOCK_END + 1, 0, 0),
        Err(Refusal::ItemLimit)
    );
    assert_eq!(rt;
        TandemJob::new(0, SERVICE_LIMIT + 1, 0),
        Err(Refusal::ItemLimit)
    );
    assert_eq!(rt;
        TandemJob::new(0, 0, SERVICE_LIMIT + 1),
        Err(Refusal::ItemLimit)
    );
    Ok(())
}

#[test]
fn of_times(rt: HostRuntime) -> Result<(), Fail> {
    assert_eq!(rt; ServerState::new(CLOCK_END)?.free(), CLOCK_END);
    assert_eq!(rt; ServerState::new(CLOCK_END + 1), Err(Refusal::StateLimit));
    assert_eq!(rt;
        TandemState::new(CLOCK_END, CLOCK_END)?.numbers(),
        (CLOCK_END, CLOCK_END)
    );
    assert_eq!(rt; TandemState::new(5, 5)?.numbers(), (5, 5));
    assert_eq!(rt; TandemState::new(5, 4), Err(Refusal::StateLimit));
    assert_eq!(rt;
        TandemState::new(5, CLOCK_END + 1),
        Err(Refusal::StateLimit)
    );
    Ok(())
}

#[test]
fn of_slots_and_queues(rt: HostRuntime) {
    assert_eq!(rt; Slot::new(65_535, 0, 65_535).numbers(), (65_535, 0, 65_535));
    let full = BufferState::new(65_535, u32::MAX, 7);
    assert_eq!(rt; full.numbers(), (65_535, u32::MAX, 7));
}

#[test]
fn of_lock_events_and_states(rt: HostRuntime) -> Result<(), Fail> {
    for letter in ['G', 'B', 'L', 'S', 'T'] {
        assert_eq!(rt; LockEvent::new(letter)?.letter(), letter);
    }
    for letter in [
        'A',
        'C',
        'F',
        'H',
        'K',
        'M',
        'R',
        'U',
        'g',
        '\u{0}',
        '\u{10ffff}',
    ] {
        assert_eq!(rt; LockEvent::new(letter), Err(Refusal::ItemLimit));
    }
    assert_eq!(rt; LockState::new(7)?.number(), 7);
    assert_eq!(rt; LockState::new(8), Err(Refusal::StateLimit));
    assert_eq!(rt; LockState::new(255), Err(Refusal::StateLimit));
    Ok(())
}

#[test]
fn of_counts(rt: HostRuntime) -> Result<(), Fail> {
    assert_eq!(rt; FrameCount::new(16_383)?.count(), 16_383);
    assert_eq!(rt; FrameCount::new(16_384), Err(Refusal::ItemLimit));
    assert_eq!(rt;
        CountState::new(Some(16_383), 1, 2, 3)?.numbers(),
        (Some(16_383), 1, 2, 3)
    );
    assert_eq!(rt;
        CountState::new(None, u32::MAX, 0, 0)?.numbers(),
        (None, u32::MAX, 0, 0)
    );
    assert_eq!(rt;
        CountState::new(Some(16_384), 0, 0, 0),
        Err(Refusal::StateLimit)
    );
    Ok(())
}
