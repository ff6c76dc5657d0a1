//! HTTP caching rules for a shared cache (RFC 9110 to 9112, restricted): how a request may be answered, whether and for how long
//! a response may be stored, by the published rules and by those of RFC 9111, what a stored one answers to conditions and ranges,
//! how one is validated, when one may be served stale, which range has the whole fetched, the cache key of a request target, where a
//! tunnel leads, which header fields are forwarded, and what a change makes stale.
//!
//! Pure functions on header maps and URLs, without any I/O. Their contracts define each result from the list of header fields
//! (names in lower case) or from the parsed URL.
//! Tested by: tests/serve_rules, tests/serve_freshness, must-fail edits.
#![tactic(auto)]

mod administrator;
mod age;
mod authority;
mod authorization;
mod changes;
mod choice;
mod conditions;
mod confirming;
mod destination;
mod directives;
mod entity_tag;
mod expiry;
mod fields;
mod forbidding;
mod forwarding;
mod framing;
mod freshness;
mod host_field;
mod loops;
mod mirrors;
mod named_directive;
mod options;
mod parts;
mod passing;
mod plain;
mod pseudonym;
mod ranges;
mod refresh;
mod request;
mod response;
mod retrying;
mod reuse;
mod seconds;
mod sharing;
mod stale;
mod storing;
mod target;
mod text;
mod updating;
mod validation;
mod validators;

pub use administrator::is_administrator;
pub use age::age_of;
pub use authority::{Authority, authority_of};
pub use authorization::is_authorized;
pub use changes::{Changed, changed_keys};
pub use choice::{Stored, choose, is_for_a_part};
pub use conditions::{StoredAnswer, answer_to, is_for_origin, is_in_not_modified};
pub use confirming::Revalidated;
pub use destination::{Destination, destination_of};
pub use forwarding::{Onward, PassFault, end_to_end};
pub use framing::tells_end;
pub use freshness::{Kept, may_keep};
pub use host_field::{has_long_name, is_host};
pub use loops::{has_come_back, loop_mark};
pub use mirrors::{Mirror, mirrored};
pub use origin_rules::{
    Admitted, AdmittedOrigin, OriginRules, SixEnd, SixNetwork, embedded_law, usual_denials,
    usual_six_denials,
};
pub use parts::PartRequests;
pub use passing::{is_for_server, is_unsafe, onward};
pub use plain::is_plain_request;
pub use pseudonym::{is_short_token, written_name};
pub use ranges::{complete_length, content_range, unsatisfied_range};
pub use refresh::{RefreshRule, UrlPlace};
pub use request::classify;
pub use response::may_store;
pub use retrying::{lasts, may_retry};
pub use reuse::accepts;
pub use sharing::is_only_for_who_began;
pub use stale::{
    SourceEnd, StaleUse, has_stale_use, is_error, may_serve_stale, stale_use, supersedes,
    takes_stale, takes_the_place,
};
pub use storing::Storable;
pub use target::{TargetFault, key_of, key_of_url};
pub use updating::updated;
pub use validation::{conditions_for, has_validator, is_about, may_validate};
