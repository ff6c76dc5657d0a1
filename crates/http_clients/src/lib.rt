//! HTTP/1.1 servers for clients of a proxy and for its administration, on hyper, whose types stay inside this crate. Every decision
//! is behind a trait: `http_traffic::Front`, `http_traffic::FollowUp`, `http_traffic::PassOn` and `http_traffic::Panel`.
//!
//! The contracts see that every future is polled in a state in which it may be, which answers are for another client, and that an origin
//! is judged before a tunnel is opened to it; nothing is proved about the HTTP messages.
//!
//! The administration's page stands here, too: one HTML document, which asks the administration for its figures, and the policy that it
//! is answered with. `tools/page` writes the document out and takes it in again.
//!
//! Tested by: must-fail edits; tests/serve, serve_operator, serve_passages, serve_freshness, serve_slow and serve_hostile, which run the built program
//! over loopback; `tools/page --check`, the policy's hashes; tests/page, in a browser.
#![tactic(auto)]

mod account;
mod admin_page;
mod administration;
mod cache_status;
mod connection;
mod copying;
mod door;
mod given;
mod page_policy;
mod reply;
mod requests;
mod responses;
mod server;
mod serving;
mod sharing;
mod texts;
mod tunnel;
mod upload;
mod watched;

pub use administration::serve_admin;
pub use server::{ClientSocket, ServeLimits, client_sockets, listen_at_six};
pub use serving::serve_clients;
