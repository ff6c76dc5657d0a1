//! Tests of the codecs, filters and captures, and of what else stands below the node: programs, listings and assembler text
//! (bpf_check, bpf_run, bpf_asm), filter slots (filter_slots), ICP and HTCP messages (icp_packet, htcp_packet), numbers in octets and
//! codes (wire_octets, hmac_md5), captures (capture), the neighbour table and its rounds (neighbours, peer_select), a full store and
//! shelves (object_store, object_shelf).
//!
//! A crate of tests only; most of them run a table of cases.
#![tactic(auto)]

#[cfg(test)]
mod blocks;
#[cfg(test)]
mod codes;
#[cfg(test)]
mod files;
#[cfg(test)]
mod frames;
#[cfg(test)]
mod htcp;
#[cfg(test)]
mod icp;
#[cfg(test)]
mod made;
#[cfg(test)]
mod numbers;
#[cfg(test)]
mod programs;
#[cfg(test)]
mod rounds;
#[cfg(test)]
mod rows;
#[cfg(test)]
mod shelves;
#[cfg(test)]
mod slots;
#[cfg(test)]
mod stores;
#[cfg(test)]
mod table;
#[cfg(test)]
mod texts;
#[cfg(test)]
mod written;
