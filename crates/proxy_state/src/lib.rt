//! The state that the threads of a proxy share beside the node, by its parts: clients that wait and fetches under way, the ways to the
//! threads that fetch, what is asked of other servers, what is kept beside the store, what passes beside the node, what is counted and
//! told, and the end; what is on its way through the proxy: the keys of requests, the destination of a fetch, for how long responses
//! are kept, and the objects that they become; and captures of the datagrams that come in: the limits that a request names, where a capture
//! is handed to the query thread, and the file that this thread writes while it runs. The crates above are generic over the whole
//! (`Shared`), which `proxy_node` has together with the node.
//!
//! Proved beyond being safe is that a key that is remembered is that of its target, that an origin is asked at the name and port and for
//! the target that the key has, that an object has a life only by what shows that it may be stored, and of what status and body the whole
//! is that a 304 stands for. What is proved of the node holds by the contracts of the crates below. Tested by: tests/serve, tests/serve_slow and tests/serve_hostile, which run the built program over
//! loopback; more-edits.
#![tactic(auto)]

mod addressing;
mod attendance;
mod capture_limits;
mod clock;
mod early;
mod fields;
mod front_rules;
mod in_flight;
mod keeping;
mod kept;
mod known_keys;
mod lanes;
mod limits;
mod log;
mod mail;
mod mailbox;
mod neighbour_counts;
mod notices;
mod objects;
mod origins;
mod outward;
mod parts;
mod passes;
mod shared;
mod starting;
mod stopping;
mod storage;
mod tap;
mod telling;
mod unasked;
mod unjoined;
mod validating;

pub use addressing::{Destination, Peer, origin_of, peer_of, server_in_digits};
pub use capture_limits::{CaptureLimits, QUERY_LINE};
pub use clock::{date_seconds, micros_since};
pub use early::gives_early;
pub use fields::{add_field, add_values, has_marks, loop_fields, passed_on, status_of};
pub use front_rules::FrontRules;
pub use in_flight::{Flight, Reading, Unwanted};
pub use keeping::{Exchange, Profile};
pub use kept::{Kept, Stale};
pub use known_keys::KnownKeys;
pub use lanes::{Fetchers, Lanes, Ways};
pub use limits::{RETRIES, RETRY_MILLIS};
pub use log::AccessLog;
pub use mail::{Attempt, Letters, Mail};
pub use mailbox::{Field, Landed, Led, Mailbox, Service, Waiting};
pub use neighbour_counts::{NeighbourEnds, note_query, note_reply};
pub use notices::Notices;
pub use objects::{
    Received, add_ours, refusal, stale_object, stored_object, unkept_object, unstored_object, via,
};
pub use origins::Origins;
pub use outward::Outward;
pub use parts::PartKeys;
pub use passes::{LargeKeys, Onwards, Passes, Places};
pub use shared::{
    Given, Shared, TakeEvents, add_own, close, note_own_six, tell_not_taken, withdraw,
};
pub use starting::{Cause, Unstarted, begin_again, perform};
pub use stopping::Stopping;
pub use storage::{Obstacle, Purger, key_in, limit_of, stays};
pub use tap::{Recorder, Tap, TapFault};
pub use telling::Telling;
pub use unasked::UnaskedKeys;
pub use unjoined::UnjoinedKeys;
pub use validating::{confirmed, has_other_rules, hides_rules};
