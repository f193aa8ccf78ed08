//! What no file of cases can say: tests alone, and no call is public. `NetWorld` over the sockets, the files and the clock of the system, calls of `host_io` that a
//! signal interrupts, and a connection that sends at once; each call on a World that answers by a schedule, plain and starred, schedules without a reading, and where
//! one is left; 32 ports of the host added on such a World, one too many, and removed; words that no file of cases can hold, as with blanks or of a megabyte, and none
//! for want of memory; a writer that keeps what it took.
//!
//! Proved: nothing but that each function is safe and returns.
#![tactic(auto)]

#[cfg(test)]
mod asker;
#[cfg(test)]
mod calls;
#[cfg(test)]
mod delays;
#[cfg(test)]
mod file_cases;
#[cfg(test)]
mod files;
#[cfg(test)]
mod forwards;
#[cfg(test)]
mod host;
#[cfg(test)]
mod interrupted;
#[cfg(test)]
mod link_cases;
#[cfg(test)]
mod links;
#[cfg(test)]
mod schedules;
#[cfg(test)]
mod socket_cases;
#[cfg(test)]
mod sockets;
#[cfg(test)]
mod steps;
#[cfg(test)]
mod tests;
#[cfg(test)]
mod words;
#[cfg(test)]
mod writers;
