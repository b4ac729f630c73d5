ghost use Rattle.std.specs.Prelude.{ℕ, ◌≤◌, slice_index};

use protocol::Settings;

// A simulation: ports with local times over an interconnect, which is any target.
#[derive(Drop)]
pub struct Platform<T> {
    settings: Settings,
    now: u64,
    locals: [u64; 8],
    target: T,
    // begins and starts stop above 2^40, and a payload takes at most 64,000,000
    ghost time: { now ≤ 1099575627776 },
    ghost times: { (k : ℕ) → slice_index locals k ≤ 1099575627776 },
}

mod calls;
