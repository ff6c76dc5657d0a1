//! The configuration of `serve`: a JSON object with exactly the known keys, parsed into [`Settings`], or a [`Fault`] that says
//! what is wrong and where.
//!
//! The contract of [`Settings::read`] says what the settings are at each key of the text (`specs/Settings.antt`, in the words of
//! `specs/Said.antt`), within which bounds, and what holds of the neighbours and the sockets of an accepted configuration. That there
//! are no other keys, and the messages, is only tested. Which keys the node is given, and whether there is one for the cache's requests
//! to itself, is defined in `specs/OwnKey.antt`.
//! Tested by: tests/configurations (rows of cases/configurations), crates/test_http, cases/serve, must-fail edits.
#![tactic(auto)]

mod fault;
mod filters;
mod freshness;
mod front;
mod group;
mod json_fault;
mod keys;
mod limits;
mod logs;
mod mirrors;
mod node;
mod origins;
mod own;
mod own_key;
mod passing;
mod place;
mod settings;
mod shape;
mod shared_fields;
mod six_clients;
mod token;
mod value;
mod web;

pub use fault::Fault;
pub use freshness::{Freshness, RefreshRule, UrlPart};
pub use json_fault::{Expected, expected_at, offset_of};
pub use mirrors::MirrorPath;
pub use origins::SixNetwork;
pub use own_key::{has_key, has_own_key, is_known, keep_keys, stays};
pub use passing::Large;
pub use settings::{LogFormat, LogLevel, Settings};
pub use shared_fields::SharedField;
pub use six_clients::SixClients;
pub use value::network_of;
