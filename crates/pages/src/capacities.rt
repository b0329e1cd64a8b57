// The numbers of attributes in the order of every page. A capacity is two words of them, the lower 64 bits first.
ghost use Rattle.std.specs.Prelude.{◌≡◌, ◌++◌};
ghost use Rattle.pages.specs.Capacities.{halves_of, names_of, limits_of};

use record::Attributes;

// The first six, which Identify shows.
pub(crate) fn sizes_of(a: Attributes) -> [u64; 8]
    ensures { result ≡ names_of a ++ halves_of a.total ++ halves_of a.unallocated }
{
    [
        u64::from(a.id.0),
        u64::from(a.group.0),
        u64::from(a.random_read_typical),
        u64::from(a.optimal_write_size),
        a.total.low,
        a.total.high,
        a.unallocated.low,
        a.unallocated.high,
    ]
}

// The other five, which rule the windows.
pub(crate) fn limits_of(a: Attributes) -> [u64; 5]
    ensures { result ≡ limits_of a }
{
    [
        u64::from(a.reads_typical),
        u64::from(a.writes_typical),
        u64::from(a.time_maximum),
        u64::from(a.minimum_high),
        u64::from(a.minimum_low),
    ]
}
