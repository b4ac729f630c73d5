ghost use Rattle.std.specs.Prelude.{◌≡◌, ◌^◌, ◌<◌, ◌≤◌};
ghost use Rattle.bus.specs.Delay.{limited, delayed, grown};

// What a device charges for each access, or a layer for each part of one, and what all of them have cost so far.
#[derive(Drop)]
pub struct Meter {
    rate: u64,
    spent: u64,
    ghost range: { (rate ≤ 1000) × (spent < 2 ^ 64) },
}

impl Meter {
    // A rate above 1,000 counts as 1,000.
    pub fn new(rate: u64) -> Meter
        ensures rate { result.rate ≡ limited rate }
        ensures spent { result.spent ≡ 0 }
    {
        Meter {
            rate: rate.min(1000),
            spent: 0,
        }
    }

    // Counts one access more, and answers what it costs.
    pub fn charge(&mut self) -> u64
        ensures delay { result ≡ self.old.rate }
        ensures rate { self.new.rate ≡ self.old.rate }
        ensures spent { self.new.spent ≡ grown self.old.spent self.old.rate }
    {
        self.settle(1, 0)
    }

    // Counts an access that is charged `count` times while the meters below grew by `below`, and answers what it costs.
    pub fn settle(&mut self, count: u64, below: u64) -> u64
        ensures delay { result ≡ delayed self.old.rate count below }
        ensures rate { self.new.rate ≡ self.old.rate }
        ensures spent { self.new.spent ≡ grown self.old.spent result }
    {
        let charges = self.rate.saturating_mul(count);
        let delay = charges.saturating_add(below).min(1_000_000);
        self.spent = self.spent.wrapping_add(delay);
        delay
    }

    pub fn spent(&self) -> u64
        ensures { result ≡ self.now.spent }
    {
        self.spent // modulo 2^64
    }
}
