//! Tests of what no row of a case file can carry: the order in which a conversation uses its devices,
//! the devices in memory by themselves, the adapters over the system, copies, and the lock in two threads
//! and round a board.
#![tactic(auto)]

#[cfg(test)]
mod board_lock_tests;
#[cfg(test)]
mod copy_tests;
#[cfg(test)]
mod lock_tests;
mod locked_boards;
#[cfg(test)]
mod memory_tests;
#[cfg(test)]
mod order_devices;
#[cfg(test)]
mod order_tests;
#[cfg(test)]
mod system_tests;
mod turn_lists;
