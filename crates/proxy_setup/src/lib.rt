//! A proxy before it has a thread, and as it runs: what the settings make of it (the node with its event log, the state that the threads
//! share, and what these are started with), what joins the threads, and the end. `cache_serve` starts the threads.
//!
//! The contracts see almost nothing of this: `site_of` requires a ledger with one part per seat, and what is proved of the node holds by
//! the contracts of the crates below.
//!
//! Tested by: tests/serve, tests/serve_operator, tests/serve_slow and tests/serve_hostile, which run the built program over loopback.
#![tactic(auto)]

mod ending;
mod equipment;
mod fault;
mod limits;
mod orders;
mod own_key;
mod passing;
mod shutdown;
mod site;
mod state;
mod writing;

pub use ending::Ending;
pub use equipment::Equipment;
pub use fault::{Port, ServeFault, no_memory, socket_fault};
pub use limits::{FETCHERS, MOST_CLIENT_THREADS, SEATS};
pub use orders::{Keeping, LogTasks, Orders, ServerOrders, equipped, server_orders};
pub use passing::lacks_own_address;
pub use shutdown::Finish;
pub use site::{Addresses, Ends, Held, Site, SiteOf, ends_of};
pub use state::{Given, Proxy, site_of};
pub use writing::{Writing, Writings, Written};
