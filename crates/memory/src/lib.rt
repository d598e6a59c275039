// What the agent keeps from one call to the next: its record, in four parts. Its entries are in the store that each call lends.
#![tactic(auto)]

ghost use Rattle.calls.specs.Contract.{Fresh};
ghost use Rattle.memory.specs.Layout.{Flat};

use arbitration::Streams;
use rows::Rows;
use store::Tables;

// The device that the agent controls.
#[repr(C)]
#[derive(Clone, Copy)]
pub struct Device {
    pub id: u64,
}

// What CONFIGURE sets: the rows in force.
#[repr(C)]
#[derive(Clone, Copy)]
pub struct Configuration {
    pub rows: Rows,
}

// The agent's record: the device, the streams, the configuration, and what it knows of the tables in the store. Hosts in C hold it, so its
// fields and their order are those of the C header.
#[repr(C)]
#[derive(Clone, Copy)]
pub struct Agent {
    pub device: Device,
    pub streams: Streams,
    pub configuration: Configuration,
    pub tables: Tables,
}

impl Agent {
    // A fresh agent: all streams closed, and no marks, rows or entries.
    #[tactic(auto, unfolding(rules::specs::Call::fresh))]
    pub fn new(device: u64) -> Agent
        ensures { Fresh Flat device result }
    {
        Agent {
            device: Device { id: device },
            streams: Streams::fresh(),
            configuration: Configuration {
                rows: Rows::fresh(),
            },
            tables: Tables::none(),
        }
    }
}
