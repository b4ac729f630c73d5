ghost use Rattle.std.specs.Prelude.{◌≡◌};
ghost use Rattle.devices.specs.Contents.{memory_map};
ghost use Rattle.player.specs.Start.{start_map};

use devices::Scratchpad;

// What stands below the player's platform.
pub(crate) type Interconnect = Scratchpad;

pub(crate) fn interconnect() -> Interconnect
    ensures map { memory_map result.contents.bytes ≡ start_map }
    ensures meter { result.meter.spent ≡ 0 }
    ensures latency { result.meter.rate ≡ 5 }
{
    Scratchpad::new(5)
}
