ghost use Rattle.std.specs.Prelude.{◌≡◌, ℕ, ◌^◌, ◌<◌, ◌≤◌, true, List, length, if◌then◌else◌, None, Some};
ghost use Rattle.bus.specs.Map.{AddressMap, Cell, allowed, put};
ghost use Rattle.devices.specs.Contents.{list_map, writable_at};

use bus::Command;

// What a device holds: an item for each byte, from address 0 on.
pub trait Contents {
    type Item: Copy;

    // for each address the byte that is present there, if one is
    ghost map: { Self → AddressMap };

    ghost items: { Self → List Self.Item };

    // what an item is as a byte
    ghost cell: { Self.Item → Cell };

    // what stands past the last item
    ghost blank: { Self.Item };

    fn items(&self) -> &[Self::Item]
        ensures { result.now ≡ items self.now };

    fn value(item: Self::Item) -> u8
        ensures { result ≡ (cell item).value };

    // Whether a command may touch the byte.
    fn allows(item: Self::Item, command: Command) -> bool
        ensures { result ≡ allowed command (Some (cell item)) };

    // Puts a value, if it is enabled, into the writable bits of a byte that is there and may be written.
    fn put(&mut self, place: usize, value: u8, enabled: bool)
        requires { place < length (items self.old) }
        ensures { writable_at (map self.old place) ≡ true → map self.new ≡ (if enabled then put place value (map self.old) else map self.old) };

    // the map is that of the items
    ghost listed: { (s : Self) → map s ≡ list_map blank cell (items s) };

    // no address from 2^32 up is present
    ghost bounded: { (s : Self) (a : ℕ) → 2 ^ 32 ≤ a → map s a ≡ None };
}
