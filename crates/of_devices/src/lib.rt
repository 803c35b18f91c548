//! Devices, which answer what the words over keys, registers of devices and time ask.
#![tactic(auto)]

mod board;
mod clock;
mod device;
mod keyboard;
mod laws;
mod memory;
mod part;
mod rack;
mod range;

pub use board::{Board, standard_board};
pub use clock::Clock;
pub use device::Device;
pub use keyboard::Keyboard;
pub use laws::{broken_addresses_fault, clock_counts, keys_come_in_order, memory_holds};
pub use memory::DeviceMemory;
pub use part::Part;
pub use rack::{Rack, ask};
pub use range::AddressRange;
