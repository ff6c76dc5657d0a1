//! What is administered.
use crate::asking::Asked;
use filter_slots::Slot;
use futures::channel::mpsc;
use std::alloc::AllocError;

/// Why a filter was not installed.
#[derive(Drop)]
pub enum PutFault {
    /// The text is not a valid filter; the line says what is wrong.
    NoFilter(Vec<u8>),
    /// Out of memory.
    NoMemory,
}

/// Why no capture was begun.
#[derive(Drop)]
pub enum CaptureFault {
    /// The query does not say what to capture; the line says what it has to be.
    NoLimits(Vec<u8>),
    /// One is under way.
    Busy,
    /// Out of memory.
    NoMemory,
}

/// What figures are asked for.
#[derive(Clone, Copy)]
pub enum Figures {
    /// The counters of both sockets, as JSON.
    Sockets,
    /// The figures of clients and fetches, as JSON.
    Clients,
    /// The state of each neighbour, as JSON.
    Neighbours,
    /// The state of each neighbour and what is counted of it, as JSON.
    NeighbourFigures,
    /// All figures, in the text format of Prometheus.
    Metrics,
}

/// What is asked of the store.
#[derive(Clone, Copy)]
pub enum StoreOrder {
    Show,
    Remove,
}

/// Why a question about the store has no answer, or what it asks for is not done.
#[derive(Drop)]
pub enum StoreFault {
    /// The path or query asks for nothing; the line says what it has to be.
    NoQuestion(Vec<u8>),
    /// Nothing fresh is stored under this URL.
    NotStored,
    /// The object cannot be taken out; the line says why.
    Kept(Vec<u8>),
    /// Out of memory.
    NoMemory,
}

/// What is administered. Called on the thread that serves. Every `AllocError` means out of memory.
pub trait Panel: Drop {
    /// Whether the request is the administrator's. The other functions are called only for requests that are.
    fn admits(&mut self, asked: &Asked) -> bool;

    /// Whether a request of the administrator may change anything. `put`, `clear`, `store` with `Remove`, `reload`, `reopen_log`, `stop` and
    /// `capture` are called only for requests that may.
    fn admits_change(&mut self, asked: &Asked) -> bool;

    /// Whether the slot exists. `put`, `clear` and `show` are called only for slots that exist.
    fn has(&mut self, slot: Slot) -> bool;

    /// Installs the filter of this text in a slot.
    fn put(&mut self, slot: Slot, text: &[u8]) -> Result<(), PutFault>;

    /// Removes the filter of a slot.
    fn clear(&mut self, slot: Slot) -> Result<(), AllocError>;

    /// The text of a slot's filter, or a text that says that it has none.
    fn show(&mut self, slot: Slot) -> Result<Vec<u8>, AllocError>;

    /// The text of some figures.
    fn figures(&mut self, figures: Figures) -> Result<Vec<u8>, AllocError>;

    /// Shows what is stored, as JSON, or takes an object out, which shows nothing. `asked` is what follows `/store` in the request's path
    /// and query: a slash and a percent-encoded URL for the object of that URL, and to be shown also nothing or `?limit=` and a
    /// number, for a list.
    fn store(&mut self, asked: &str, order: StoreOrder) -> Result<Vec<u8>, StoreFault>;

    /// Reads the files of the configuration's filters anew and installs them, all or none.
    fn reload(&mut self) -> Result<(), PutFault>;

    /// Opens the file of the access log anew. Returns whether there is one.
    fn reopen_log(&mut self) -> bool;

    /// Ends the proxy: no more clients are accepted, and those that are connected have some time to end. The second call ends that
    /// time.
    fn stop(&mut self);

    /// Begins to capture datagrams, within the limits of this query of a request target, if there is one. The file's octets come
    /// in pieces until the capture ends, which it does also where the receiver is dropped.
    fn capture(&mut self, query: Option<&str>) -> Result<mpsc::Receiver<Vec<u8>>, CaptureFault>;
}
