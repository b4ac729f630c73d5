#![tactic(auto)]

mod accesses;
mod show;

use accesses::{BANK, BORDERS, ENDS, LINES, ROM, SPLITS};
use devices::{Bank, Rom, Row, Scratchpad};
use layers::{Bridge, Router};
use show::show_all;
use std::io;

const HALF: Row = Row {
    readable: true,
    writable: true,
    value: 0xA0,
    mask: 0x0F,
};

const READ_ONLY: Row = Row {
    readable: true,
    writable: false,
    value: 0x33,
    mask: 0xFF,
};

const WRITE_ONLY: Row = Row {
    readable: false,
    writable: true,
    value: 0x44,
    mask: 0xFF,
};

const FREE: Row = Row {
    readable: true,
    writable: true,
    value: 0x00,
    mask: 0xFF,
};

const RIGHTS: [Row; 3] = [HALF, READ_ONLY, WRITE_ONLY];

const REGISTERS: [Row; 16] = [
    HALF, FREE, FREE, FREE, FREE, FREE, FREE, FREE, FREE, FREE, FREE, FREE, FREE, FREE, FREE, FREE,
];

const IMAGE: [u8; 1] = [0xC3];

fn devices(rt: &HostRuntime) -> io::Result<()> {
    let mut memory = Scratchpad::new(5);
    show_all(rt, "scratchpad", &mut memory, &ENDS)?;
    let mut slow = Scratchpad::new(5000);
    show_all(rt, "slow scratchpad", &mut slow, &ENDS[0..2])?;
    let image: &[u8] = &IMAGE;
    let mut rom = Rom::new(image, 7);
    show_all(rt, "rom", &mut rom, &ROM)?;
    let mut bank = Bank::new(&RIGHTS, 3);
    show_all(rt, "bank", &mut bank, &BANK)
}

fn bridges(rt: &HostRuntime) -> io::Result<()> {
    for width in [1u64, 2, 3, 4, 8] {
        let mut bridge = Bridge::new(Scratchpad::new(5), width, 2);
        show_all(rt, "bridge", &mut bridge, &SPLITS)?;
    }
    Ok(())
}

fn routers(rt: &HostRuntime) -> io::Result<()> {
    let memory = Bridge::new(Scratchpad::new(5), 4, 2);
    let mut router = Router::new(memory, Bank::new(&REGISTERS, 3), 0x1000, 1);
    show_all(rt, "router", &mut router, &BORDERS)
}

fn main(rt: HostRuntime) -> io::Result<()> {
    devices(&rt)?;
    bridges(&rt)?;
    routers(&rt)
}
