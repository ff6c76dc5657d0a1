//! Tests of nodes, books and scripts. Nodes and books: lists of events and long runs, copies, desks with threads at their seats, replays
//! of whole books, a client's fetch told by two clerks, tallies of actions, and who lets go of a volume, and when. They exercise node_core
//! (`Node`, `run_events`), plain_node (`Tally`) and node_book (`Booked`, `Ledgered`, `Desk`, `Seat`, `Seated`) by their public calls.
//! Scripts (feed_script): their output, the limits on lines, datagrams and scripts, and readers and writers that fail. What one event
//! does is tested by scripts over the built program (cases/). There are no contracts here but those that the calls require.
//! Tested by: itself; `rt check --test` runs these tests.
#![tactic(auto)]

#[cfg(test)]
mod calls;
#[cfg(test)]
mod contents;
#[cfg(test)]
mod desks;
#[cfg(test)]
mod events;
#[cfg(test)]
mod faults;
#[cfg(test)]
mod freeing;
#[cfg(test)]
mod limits;
#[cfg(test)]
mod lists;
#[cfg(test)]
mod loads;
#[cfg(test)]
mod memory;
#[cfg(test)]
mod nodes;
#[cfg(test)]
mod order;
#[cfg(test)]
mod replays;
#[cfg(test)]
mod runs;
#[cfg(test)]
mod scripts;
#[cfg(test)]
mod stories;
#[cfg(test)]
mod tallies;
#[cfg(test)]
mod volumes;
