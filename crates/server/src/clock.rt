ghost use Rattle.server.specs.Clock.{capped};
ghost use Rattle.std.specs.Prelude.{◌≡◌};

// The last time on the clock, in microseconds.
pub const CLOCK_END: u64 = 1_099_511_627_775;

// The longest service, in microseconds.
pub const SERVICE_LIMIT: u32 = 16_777_215;

// The sum of two times, or the end of the clock where that is earlier.
pub fn capped_sum(x: u64, y: u64) -> u64
    ensures { result ≡ capped x y }
{
    x.saturating_add(y).min(CLOCK_END)
}
