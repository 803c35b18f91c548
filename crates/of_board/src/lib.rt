//! What words work on: data stack, data space, pictured text, console, device tree, the place in it, and instances.
#![tactic(auto)]

mod active;
mod board;
mod console;
mod device_fault;
mod devices;
mod laws;

pub use active::{Active, NewDevice, NewDevices};
pub use board::Board;
pub use console::Console;
pub use device_fault::DeviceFault;
pub use laws::instances_nest;
