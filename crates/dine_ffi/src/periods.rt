// The periods of a fork's log, for C.
ghost use Rattle.std.specs.Prelude.{◌≡◌, ◌+◌, ◌*◌, ◌^◌, ◌≤◌, slice_set};
ghost use Rattle.dine_ffi.specs.Written.{ArePeriods};

use dine_token::{Fork, Period};

/// Writes the periods of the log, three numbers for each, and no more numbers than `out` has. Returns the number of
/// periods.
pub(crate) fn write_periods(fork: &Fork, out: &mut [u32]) -> i64
    ensures { ArePeriods fork.now out.old out.new result }
{
    let periods = fork.periods();
    for i in 0..periods {
        write_period(fork.period(i), 3 * (i as usize), out);
    }
    periods as i64
}

// Writes the three numbers of the period from `at` on, those that `out` has.
fn write_period(period: Period, at: usize, out: &mut [u32])
    requires { at ≤ 3 * 2 ^ 33 }
    ensures { out.new ≡ slice_set (slice_set (slice_set out.old at period.site) (at + 1) period.first)
        (at + 2) period.count }
{
    write_number(period.site, at, out);
    write_number(period.first, at + 1, out);
    write_number(period.count, at + 2, out);
}

// Writes the number at this index, if `out` has it.
fn write_number(number: u32, at: usize, out: &mut [u32])
    ensures { out.new ≡ slice_set out.old at number }
{
    if at < out.len() {
        out[at] = number;
    }
}
