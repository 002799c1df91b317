//! Each kind's records: at the limits, one beyond, and with a byte that no field fills.
use crate::bytes::with_byte;
use crate::limits::{CLOCK_END, SERVICE_LIMIT};
use buffer::{BufferSummary, Slot};
use counts::{CountSummary, FrameCount};
use lock::{LockEvent, LockMap};
use pairs::{CountedTandem, LockedBuffer};
use server::{Job, ServerSummary};
use station::{Letter, Pair, RECORD_SIZE, RecordFault, Recorded};
use std::test::Fail;
use tandem::{TandemJob, TandemSummary};

// A record with some bytes in front and zeros behind.
fn record(front: &[u8]) -> [u8; RECORD_SIZE] {
    let mut bytes = [0u8; RECORD_SIZE];
    for (place, byte) in bytes.iter_mut().zip(front) {
        *place = *byte;
    }
    bytes
}

#[test]
fn letters(rt: HostRuntime) {
    assert_eq!(rt; ServerSummary::letter(), Letter::F);
    assert_eq!(rt; TandemSummary::letter(), Letter::T);
    assert_eq!(rt; BufferSummary::letter(), Letter::B);
    assert_eq!(rt; LockMap::letter(), Letter::S);
    assert_eq!(rt; CountSummary::letter(), Letter::C);
    assert_eq!(rt; CountedTandem::letter(), Letter::P);
    assert_eq!(rt; LockedBuffer::letter(), Letter::Q);
}

#[test]
fn of_jobs(rt: HostRuntime) -> Result<(), Fail> {
    let most = record(&[255, 255, 255, 255, 255, 0, 255, 255, 255]);
    let job = Job::new(CLOCK_END, SERVICE_LIMIT)?;
    assert_eq!(rt; ServerSummary::write(job), most);
    assert_eq!(rt; ServerSummary::read(most), Ok(job));
    assert_eq!(rt;
        ServerSummary::read(with_byte(most, 5, 1)),
        Err(RecordFault::Limit(0))
    );
    assert_eq!(rt;
        ServerSummary::read(with_byte(most, 9, 1)),
        Err(RecordFault::Limit(6))
    );
    let both = with_byte(with_byte(most, 5, 1), 9, 1);
    assert_eq!(rt; ServerSummary::read(both), Err(RecordFault::Limit(0)));
    assert_eq!(rt;
        ServerSummary::read(with_byte(both, 15, 1)),
        Err(RecordFault::Layout(15))
    );
    assert_eq!(rt;
        ServerSummary::read(with_byte(with_byte(both, 15, 1), 10, 9)),
        Err(RecordFault::Layout(10))
    );
    Ok(())
}

#[test]
fn of_tandem_jobs(rt: HostRuntime) -> Result<(), Fail> {
    let some = record(&[1, 2, 0, 0, 0, 0, 3, 0, 1, 0, 4, 0, 0, 0]);
    let job = TandemJob::new(513, 65_539, 4)?;
    assert_eq!(rt; TandemSummary::write(job), some);
    assert_eq!(rt; TandemSummary::read(some), Ok(job));
    assert_eq!(rt;
        TandemSummary::read(with_byte(some, 5, 1)),
        Err(RecordFault::Limit(0))
    );
    assert_eq!(rt;
        TandemSummary::read(with_byte(some, 9, 1)),
        Err(RecordFault::Limit(6))
    );
    assert_eq!(rt;
        TandemSummary::read(with_byte(some, 13, 1)),
        Err(RecordFault::Limit(10))
    );
    assert_eq!(rt;
        TandemSummary::read(with_byte(with_byte(some, 5, 1), 14, 1)),
        Err(RecordFault::Layout(14))
    );
    Ok(())
}

#[test]
fn of_slots(rt: HostRuntime) {
    let some = record(&[1, 0, 2, 1, 255, 255]);
    let slot = Slot::new(1, 258, 65_535);
    assert_eq!(rt; BufferSummary::write(slot), some);
    assert_eq!(rt; BufferSummary::read(some), Ok(slot));
    assert_eq!(rt;
        BufferSummary::read(with_byte(some, 6, 71)),
        Err(RecordFault::Layout(6))
    );
}

#[test]
fn of_events(rt: HostRuntime) -> Result<(), Fail> {
    let good = record(&[71]);
    let event = LockEvent::new('G')?;
    assert_eq!(rt; LockMap::write(event), good);
    assert_eq!(rt; LockMap::read(good), Ok(event));
    assert_eq!(rt; LockMap::read(record(&[72])), Err(RecordFault::Limit(0)));
    assert_eq!(rt; LockMap::read(record(&[0])), Err(RecordFault::Limit(0)));
    assert_eq!(rt;
        LockMap::read(record(&[72, 0, 1])),
        Err(RecordFault::Layout(2))
    );
    Ok(())
}

#[test]
fn of_counts(rt: HostRuntime) -> Result<(), Fail> {
    let most = record(&[255, 63]);
    let frame = FrameCount::new(16_383)?;
    assert_eq!(rt; CountSummary::write(frame), most);
    assert_eq!(rt; CountSummary::read(most), Ok(frame));
    assert_eq!(rt;
        CountSummary::read(record(&[0, 64])),
        Err(RecordFault::Limit(0))
    );
    assert_eq!(rt;
        CountSummary::read(record(&[0, 64, 1])),
        Err(RecordFault::Layout(2))
    );
    Ok(())
}

#[test]
fn of_counted_jobs(rt: HostRuntime) -> Result<(), Fail> {
    let some = record(&[1, 2, 0, 0, 0, 0, 3, 0, 1, 0, 4, 0, 0, 0, 255, 63]);
    let item = Pair {
        first: FrameCount::new(16_383)?,
        second: TandemJob::new(513, 65_539, 4)?,
    };
    assert_eq!(rt; CountedTandem::write(item), some);
    assert_eq!(rt; CountedTandem::read(some), Ok(item));
    let late = with_byte(some, 15, 64);
    assert_eq!(rt; CountedTandem::read(late), Err(RecordFault::Limit(14)));
    assert_eq!(rt;
        CountedTandem::read(with_byte(late, 5, 1)),
        Err(RecordFault::Limit(0))
    );
    Ok(())
}

#[test]
fn of_locked_slots(rt: HostRuntime) -> Result<(), Fail> {
    let some = record(&[1, 0, 2, 1, 255, 255, 84]);
    let item = Pair {
        first: LockEvent::new('T')?,
        second: Slot::new(1, 258, 65_535),
    };
    assert_eq!(rt; LockedBuffer::write(item), some);
    assert_eq!(rt; LockedBuffer::read(some), Ok(item));
    assert_eq!(rt;
        LockedBuffer::read(with_byte(some, 6, 0)),
        Err(RecordFault::Limit(6))
    );
    assert_eq!(rt;
        LockedBuffer::read(with_byte(with_byte(some, 6, 0), 7, 1)),
        Err(RecordFault::Layout(7))
    );
    Ok(())
}

// Every number at its limit, and each in turn one beyond.
#[test]
fn of_jobs_one_beyond(rt: HostRuntime) {
    let late = record(&[0, 0, 0, 0, 0, 1]);
    assert_eq!(rt; ServerSummary::read(late), Err(RecordFault::Limit(0)));
    let long = record(&[255, 255, 255, 255, 255, 0, 0, 0, 0, 1]);
    assert_eq!(rt; ServerSummary::read(long), Err(RecordFault::Limit(6)));
}

#[test]
fn of_tandem_jobs_one_beyond(rt: HostRuntime) -> Result<(), Fail> {
    let most = record(&[255, 255, 255, 255, 255, 0, 255, 255, 255, 0, 255, 255, 255]);
    let job = TandemJob::new(CLOCK_END, SERVICE_LIMIT, SERVICE_LIMIT)?;
    assert_eq!(rt; TandemSummary::write(job), most);
    assert_eq!(rt; TandemSummary::read(most), Ok(job));
    let late = record(&[0, 0, 0, 0, 0, 1]);
    assert_eq!(rt; TandemSummary::read(late), Err(RecordFault::Limit(0)));
    let long = record(&[255, 255, 255, 255, 255, 0, 0, 0, 0, 1]);
    assert_eq!(rt; TandemSummary::read(long), Err(RecordFault::Limit(6)));
    let longer = record(&[255, 255, 255, 255, 255, 0, 255, 255, 255, 0, 0, 0, 0, 1]);
    assert_eq!(rt; TandemSummary::read(longer), Err(RecordFault::Limit(10)));
    Ok(())
}

// A slot's numbers have no limits but their width.
#[test]
fn of_slots_at_their_width(rt: HostRuntime) {
    let most = record(&[255; 6]);
    let slot = Slot::new(65_535, 65_535, 65_535);
    assert_eq!(rt; BufferSummary::write(slot), most);
    assert_eq!(rt; BufferSummary::read(most), Ok(slot));
    assert_eq!(rt; BufferSummary::read(record(&[])), Ok(Slot::new(0, 0, 0)));
}

#[test]
fn of_counted_jobs_one_beyond(rt: HostRuntime) -> Result<(), Fail> {
    let most = record(&[
        255, 255, 255, 255, 255, 0, 255, 255, 255, 0, 255, 255, 255, 0, 255, 63,
    ]);
    let item = Pair {
        first: FrameCount::new(16_383)?,
        second: TandemJob::new(CLOCK_END, SERVICE_LIMIT, SERVICE_LIMIT)?,
    };
    assert_eq!(rt; CountedTandem::write(item), most);
    assert_eq!(rt; CountedTandem::read(most), Ok(item));
    let late = record(&[0, 0, 0, 0, 0, 1]);
    assert_eq!(rt; CountedTandem::read(late), Err(RecordFault::Limit(0)));
    let long = record(&[255, 255, 255, 255, 255, 0, 0, 0, 0, 1]);
    assert_eq!(rt; CountedTandem::read(long), Err(RecordFault::Limit(6)));
    let longer = record(&[255, 255, 255, 255, 255, 0, 255, 255, 255, 0, 0, 0, 0, 1]);
    assert_eq!(rt; CountedTandem::read(longer), Err(RecordFault::Limit(10)));
    let behind = with_byte(with_byte(most, 14, 0), 15, 64);
    assert_eq!(rt; CountedTandem::read(behind), Err(RecordFault::Limit(14)));
    Ok(())
}

#[test]
fn of_locked_slots_at_their_width(rt: HostRuntime) -> Result<(), Fail> {
    let most = record(&[255, 255, 255, 255, 255, 255, 71]);
    let item = Pair {
        first: LockEvent::new('G')?,
        second: Slot::new(65_535, 65_535, 65_535),
    };
    assert_eq!(rt; LockedBuffer::write(item), most);
    assert_eq!(rt; LockedBuffer::read(most), Ok(item));
    assert_eq!(rt;
        LockedBuffer::read(with_byte(most, 6, 70)),
        Err(RecordFault::Limit(6))
    );
    Ok(())
}
