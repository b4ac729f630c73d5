use bus::AccessError;

// What an accepted blocking call comes to: the port's local time after it, and whether its payload was served.
#[derive(Clone, Copy, Debug, PartialEq, Eq)]
pub struct Blocked {
    pub local: u64,
    pub status: Result<(), AccessError>,
}
