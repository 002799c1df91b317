//! The two kinds that stand side by side: frame counts beside two servers in tandem, and receiver lock beside the slotted
//! buffer. Each is the generic pair of its parts; only its records are its own, and they stand with the part whose record
//! they widen.
#![tactic(auto)]

use buffer::{BufferState, BufferSummary, Slot};
use counts::{CountState, CountSummary, FrameCount};
use lock::{LockEvent, LockMap, LockState};
use station::Pair;
use tandem::{TandemJob, TandemState, TandemSummary};

// Kind P.
pub type CountedTandem = Pair<CountSummary, TandemSummary>;

pub type CountedJob = Pair<FrameCount, TandemJob>;

pub type CountedState = Pair<CountState, TandemState>;

// Kind Q.
pub type LockedBuffer = Pair<LockMap, BufferSummary>;

pub type LockedSlot = Pair<LockEvent, Slot>;

pub type LockedState = Pair<LockState, BufferState>;
