//! What a filter is run over a capture with.

use node_core::Network;
use replay::Aim;

/// What a filter is run over a capture with, beside these two.
#[derive(Clone, Copy)]
pub struct Options<'a> {
    /// Where the datagrams go that are judged.
    pub aim: Aim,
    /// The senders that the limit is about; all if there are none.
    pub network: Option<Network>,
    /// The percentage of rejected datagrams that is still fine, if there is a limit.
    pub limit: Option<u64>,
    /// Whether samples are printed.
    pub show: bool,
    /// Whether the results are printed as JSON.
    pub json: bool,
    /// The file of the filter to compare with, if one is given.
    pub compare: Option<&'a str>,
}
