// The limit, count, threshold and enable bit of each quantity, and whether the need is met.
ghost use Rattle.std.specs.Prelude.{◌≡◌, ◌+◌, min};
ghost use Rattle.record.specs.Quantities.{limit, spent_of, threshold, enables, spends_of, spending, need_met};

use crate::{Attributes, Events, Quantity, Recovery, Spent, State, Thresholds};

// Four selections, of four types. One type `Each<T>` of reads, writes and time could stand for two of them, but in specs/ what is spent and
// the thresholds would then be of one type, and attributes and events have fields of their own.
impl Attributes {
    pub fn limit(self, q: Quantity) -> u32
        ensures { result ≡ limit q self }
    {
        match q {
            Quantity::Reads => self.reads_typical,
            Quantity::Writes => self.writes_typical,
            Quantity::Time => self.time_maximum,
        }
    }
}

impl Spent {
    pub fn of(self, q: Quantity) -> u32
        ensures { result ≡ spent_of q self }
    {
        match q {
            Quantity::Reads => self.reads,
            Quantity::Writes => self.writes,
            Quantity::Time => self.time,
        }
    }

    // n of the quantity, and of the others what was.
    fn with(self, q: Quantity, n: u32) -> Spent
        ensures { result ≡ spends_of q n self }
    {
        match q {
            Quantity::Reads => Spent { reads: n, ..self },
            Quantity::Writes => Spent { writes: n, ..self },
            Quantity::Time => Spent { time: n, ..self },
        }
    }
}

impl Thresholds {
    pub fn of(self, q: Quantity) -> u64
        ensures { result ≡ threshold q self }
    {
        match q {
            Quantity::Reads => self.reads,
            Quantity::Writes => self.writes,
            Quantity::Time => self.time,
        }
    }
}

impl Events {
    // Whether the quantity's warning is among them.
    pub fn enables(self, q: Quantity) -> bool
        ensures { result ≡ enables q self }
    {
        match q {
            Quantity::Reads => self.reads,
            Quantity::Writes => self.writes,
            Quantity::Time => self.time,
        }
    }
}

impl State {
    pub fn with_spent(self, q: Quantity, n: u32) -> State
        ensures { result ≡ spending q n self }
    {
        State {
            spent: self.spent.with(q, n),
            ..self
        }
    }
}

impl Recovery {
    // The one place that says whether N has lasted long enough: for a select D, and for the estimates.
    pub fn is_met(self) -> bool
        ensures { result ≡ need_met self }
    {
        self.time == self.need
    }
}

// a + b, stopped at `most`.
pub fn capped(a: u32, b: u64, most: u32) -> u32
    ensures { result ≡ min (a + b) most }
{
    u64::from(a).saturating_add(b).min(u64::from(most)) as u32
}
