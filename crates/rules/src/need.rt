// How long N must last after a window. All numbers have 32 bits, so that a product of two fits into 64: nothing here wraps, whatever the
// record.
ghost use Rattle.std.specs.Prelude.{◌≡◌, ◌+◌, ◌-◌, ◌*◌, ◌<◌, min};
ghost use Rattle.rules.specs.Need.{up_by, need_after};

use record::Attributes;

// low, and of what high is above low as much as n is of most, rounded up.
fn between(low: u32, high: u32, n: u32, most: u32) -> u32
    requires { n < most }
    ensures { result ≡ low + up_by ((high - low) * n) most }
{
    let product = u64::from(high.saturating_sub(low)) * u64::from(n);
    (u64::from(low) + product.div_ceil(u64::from(most))) as u32
}

// After a window that lasted maximum: no division. A maximum of 0 is in no legal record.
pub(crate) fn full_need(a: Attributes) -> u32
    ensures { result ≡ need_after a a.time_maximum }
{
    if a.time_maximum == 0 {
        return a.minimum_low;
    }
    a.minimum_low.max(a.minimum_high)
}

// After n ms in D, of which no more than maximum count.
pub(crate) fn need_after(a: Attributes, n: u32) -> u32
    ensures { result ≡ need_after a (min n a.time_maximum) }
{
    if n < a.time_maximum {
        return between(a.minimum_low, a.minimum_high, n, a.time_maximum);
    }
    full_need(a)
}
