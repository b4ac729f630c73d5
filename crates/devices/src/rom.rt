ghost use Rattle.std.specs.Prelude.{◌≡◌, ◌≢◌, ℕ, ◌≤◌, Bool, List, length, take, refl};
ghost use Rattle.bus.specs.Answers.{Okay};
ghost use Rattle.bus.specs.Delay.{limited};
ghost use Rattle.bus.specs.Map.{judged};
ghost use Rattle.bus.specs.declared.kinds.Command.TheVariants.{Write};
ghost use Rattle.devices.specs.Bounds.{past};
ghost use Rattle.devices.specs.Contents.{image_cell, image_map};
ghost use Rattle.std.proofs.Common.{arith};
ghost use Rattle.std.proofs.lemmas.List.{length-take};

use crate::at_most::at_most;
use crate::contents::Contents;
use crate::device::Device;
use bus::Command;

// What holds bytes for reading.
pub trait Image {
    ghost bytes: { Self → List ℕ };

    fn bytes(&self) -> &[u8]
        ensures { result.now ≡ bytes self.now };
}

impl<'a> Image for &'a [u8] {
    ghost bytes = { λ s. s.now };

    fn bytes(&self) -> &[u8] {
        *self
    }
}

// An image of which the first 65,536 bytes may be read, and none written.
#[derive(Drop)]
pub struct ReadOnly<I> {
    image: I,
}

impl<I: Image> Contents for ReadOnly<I> {
    type Item = u8;

    ghost map = { λ s. image_map (take 65536 (I.bytes s.image)) };

    ghost items = { λ s. take 65536 (I.bytes s.image) };

    ghost cell = { image_cell };

    ghost blank = { 0 };

    ghost listed = { λ s. refl };

    ghost bounded = { λ s a l. past 0 image_cell (take 65536 (I.bytes s.image)) a (omega (arith, length-take 65536 (I.bytes s.image))) };

    fn items(&self) -> &[u8]
        ensures bytes { result.now ≡ take 65536 (I.bytes self.now.image) }
        ensures fits { length result.now ≤ 65536 }
    {
        at_most(self.image.bytes(), 65536)
    }

    fn value(byte: u8) -> u8 {
        byte
    }

    fn allows(_byte: u8, command: Command) -> bool {
        match command {
            Command::Read | Command::Ignore => true,
            Command::Write => false,
        }
    }

    // No byte may be written.
    fn put(&mut self, _place: usize, _value: u8, _enabled: bool) {}
}

// An image that may only be read, from address 0 on. What lies past 65,536 bytes is not present.
pub type Rom<I> = Device<ReadOnly<I>>;

impl<I: Image> Device<ReadOnly<I>> {
    pub fn new(image: I, latency: u64) -> Rom<I>
        ensures map { image_map (take 65536 (I.bytes result.contents.image)) ≡ image_map (take 65536 (I.bytes image)) }
        ensures read_only { (a : ℕ) (es : List Bool) → 1 ≤ length es → judged (image_map (take 65536 (I.bytes image))) Write a es ≢ Okay }
        ensures meter { result.meter.spent ≡ 0 }
        ensures latency { result.meter.rate ≡ limited latency }
    {
        Device::holding(ReadOnly { image }, latency)
    }
}
