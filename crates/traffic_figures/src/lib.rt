//! The proxy's figures for operators: counters that any thread raises without a lock, and two texts of them, in the text format of
//! Prometheus (version 0.0.4) and as JSON. Plain values come in, and text goes out; no type of the node or of HTTP stands here.
//!
//! The contracts say: the class of a status (`specs/StatusClass.antt`); the bucket of a time, what is shown for a bucket, and sums
//! (`specs/Buckets.antt`); the place of the counter of each kind, and the name of each kind in both texts (`specs/Kinds.antt`), the
//! same for replies of neighbours, and of which kind an ICP or HTCP message is (`specs/Replies.antt`); how the value of a label is
//! escaped (`specs/Escapes.antt`). `buckets_add_up` says what is shown for the last bucket.
//!
//! Only tested: both texts as wholes, and so that each number stands beside the right names; and that the bounds in the texts are
//! those of the buckets. An atomic counter has no model, so no clause says what a counter holds.
//!
//! Tested by: crates/test_operator, exact texts; tests/metrics_format, the grammar of the metrics' text; must-fail edits.
#![tactic(auto)]

mod clients;
mod figures;
mod kinds;
mod laws;
mod lines;
mod metrics;
mod page;
mod replies;
mod times;

pub use clients::{clients_text, write_neighbour_counts};
pub use figures::{AnswerNote, FetchNote, Figures, NeighbourCounts, Snapshot};
pub use kinds::{Course, FetchOutcome, FetchedFrom, StatusClass, class_of};
pub use laws::buckets_add_up;
pub use metrics::metrics_text;
pub use page::{
    AttemptFigures, LogLines, LookUps, NeighbourFigures, NeighbourState, Page,
    ServerConnectionFigures, SocketFigures, Sockets,
};
pub use replies::{ReplyKind, htcp_reply, icp_reply};
pub use times::{Times, bucket_of};
