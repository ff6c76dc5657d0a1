//! Tests of what submits events to a node: the loop over the query sockets, datagrams that were judged before, and fetch workers.
//!
//! The loop of `mio_queries` runs over in-memory wires whose receives and sends fail in turn; that it judges what comes, passes on and
//! lets rounds end is tested over the built program (tests/serve, cases/). Filters are swapped between judging a datagram and taking
//! it, also by another thread; one test compares times, within its own run, since nothing else tells that a datagram isn't judged
//! twice. Workers with in-memory fetchers overlap at one desk. A clerk refuses events, keys and actions. The functions have only the
//! contracts that opening a desk needs.
//!
//! Shared by the tests: `rows` (tables), `messages`, `sites` (nodes), `events`, `wires`, `desks`, `refusing` (a clerk that
//! refuses) and `workers`.
//!
//! Tested by: nothing, it consists of tests.
#![tactic(auto)]

#[cfg(test)]
mod crowds;
#[cfg(test)]
mod desks;
#[cfg(test)]
mod events;
#[cfg(test)]
mod failing;
#[cfg(test)]
mod limited;
#[cfg(test)]
mod messages;
#[cfg(test)]
mod once;
#[cfg(test)]
mod orders;
#[cfg(test)]
mod overlapping;
#[cfg(test)]
mod refusing;
#[cfg(test)]
mod rows;
#[cfg(test)]
mod scripted;
#[cfg(test)]
mod sharing;
#[cfg(test)]
mod sites;
#[cfg(test)]
mod wires;
#[cfg(test)]
mod worker_refusals;
#[cfg(test)]
mod worker_threads;
#[cfg(test)]
mod workers;
