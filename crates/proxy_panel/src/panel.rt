//! Administration of the node: filters, counters and captures.
use crate::overview::page_of;
use bpf_asm::to_text;
use bpf_check::Checked;
use filter_slots::{Moment, Slot, Slots};
use filter_text::{FilesFault, Filter, FilterFile, ProgramFault, read_filters, read_program};
use futures::channel::mpsc;
use http_rules::{is_administrator, is_authorized};
use http_traffic::{Asked, CaptureFault, Figures, Panel, PutFault, StoreFault, StoreOrder};
use node_figures::{neighbour_figures_text, neighbours_text, stats_text, store_text, stored_text};
use node_words::{Event, NeighbourView};
use object_store::{CacheKey, Entry};
use proxy_node::Overseen;
use proxy_state::{
    CaptureLimits, Obstacle, Purger, QUERY_LINE, RETRIES, RETRY_MILLIS, Shared, TakeEvents,
    TapFault, key_in, limit_of, stays, withdraw,
};
use std::alloc::{AllocError, AllocGlobal, Global};
use std::fs::Files;
use std::sync::atomic::Ordering;
use std::sync::{Arc, Mutex, Wait};
use std::time::{Clock, Duration};
use std::{io, thread};
use traffic_figures::{NeighbourCounts, Page, clients_text, metrics_text};

/// Installs and removes filters, reads counters, and begins captures. Owned by the administration thread, the only one that swaps filters. `S` is the
/// state that all threads share, `N` the thread's handle to the node.
pub struct NodePanel<R, S, N> {
    pub rt: R,
    pub alloc: Global,
    /// State shared by all threads.
    pub proxy: Arc<S>,
    /// The thread's handle to the node. Only this thread locks it; a second owner takes the seat back after the server ends.
    pub node: Arc<Mutex<N>>,
    /// What a request has to show to change anything. `None` lets every administrator.
    pub token: Option<String>,
    /// The files of the configuration's filters.
    pub files: Vec<FilterFile>,
    /// Takes objects out of the store.
    pub purger: Purger,
}

// Written by hand, so that what lets it go is one call for the prover (docs/GATE.md).
impl<R: Drop, S: Drop, N: Drop> Drop for NodePanel<R, S, N> {
    fn drop(self) {
        let Self {
            rt: _,
            alloc: _,
            proxy: _,
            node: _,
            token: _,
            files: _,
            purger: _,
        } = self;
    }
}

/// Serves a panel, whichever it is.
pub trait ServePanel: Drop {
    /// Serves it until administration is to end.
    fn serve<P: Panel>(self, panel: P) -> io::Result<()>;
}

impl<R: Wait + Clock + Files + AllocGlobal + Drop, S: Overseen, N: TakeEvents> NodePanel<R, S, N> {
    /// Has this panel served. That it is a panel is looked at here, where little else is in sight, since each function that hands it
    /// over looks at all of it.
    pub fn served_by<T: ServePanel>(self, server: T) -> io::Result<()> {
        server.serve(self)
    }

    // All that the texts of figures show.
    fn page(&self) -> Result<Page, AllocError> {
        page_of(&self.rt, self.alloc, &*self.proxy)
    }

    // The counters of answers and fetches, as JSON.
    fn client_figures(&self) -> Result<Vec<u8>, AllocError> {
        let page = self.page()?;
        let text = clients_text(self.alloc, &page);
        drop(page);
        text
    }

    // All figures, as metrics.
    fn metrics(&self) -> Result<Vec<u8>, AllocError> {
        let page = self.page()?;
        let text = metrics_text(self.alloc, &page);
        drop(page);
        text
    }
}

// What opens no file has no bounds for that: the prover lays them out anew for each function.
impl<R: Wait + Clock + Drop, S: Overseen, N: TakeEvents> NodePanel<R, S, N> {
    // The port that administration is served on.
    fn port(&self) -> u16 {
        self.proxy.telling().admin_port.load(Ordering::SeqCst)
    }

    fn swap(&mut self, slot: Slot, program: Option<Arc<Checked>>) -> Result<(), AllocError> {
        let event = Event::Swap { slot, program };
        match self.node.lock(&self.rt).take(event) {
            Some(_) => Ok(()),
            None => Err(AllocError),
        }
    }

    // Installs a filter; where memory is short, it is tried again for some seconds.
    fn swap_at_last(&mut self, slot: Slot, program: &Arc<Checked>) -> Result<(), AllocError> {
        for _ in 0..RETRIES {
            if self.swap_one_more(slot, program).is_ok() {
                return Ok(());
            }
            thread::sleep(&self.rt, Duration::from_millis(RETRY_MILLIS));
        }
        Err(AllocError)
    }

    // Installs a filter that has other owners.
    fn swap_one_more(&mut self, slot: Slot, program: &Arc<Checked>) -> Result<(), AllocError> {
        let program = Arc::try_clone(program)?;
        self.swap(slot, Some(program))
    }

    // Installs filters. Errors: out of memory for some seconds.
    fn swap_all(&mut self, filters: &[Filter]) -> Result<(), PutFault> {
        for filter in filters {
            if self.swap_at_last(filter.slot, &filter.program).is_err() {
                return Err(PutFault::NoMemory);
            }
        }
        Ok(())
    }

    // The moment of what is asked now.
    fn moment(&self) -> Moment {
        self.proxy.now(&self.rt)
    }

    // The objects that were used last, as JSON, and how much is stored.
    fn list(&self, query: &str) -> Result<Vec<u8>, StoreFault> {
        let moment = self.moment();
        let most = limit_of(self.alloc, query)?;
        list_of(&self.rt, self.alloc, &*self.proxy, most, moment)
    }

    // What is stored under a key. Errors: nothing fresh, or out of memory.
    fn entry(&self, key: &CacheKey) -> Result<Entry, StoreFault> {
        let moment = self.moment();
        match self.proxy.stored(&self.rt, key.as_slice(), moment) {
            Ok(Some(entry)) => Ok(entry),
            Ok(None) => Err(StoreFault::NotStored),
            Err(_) => Err(StoreFault::NoMemory),
        }
    }

    // What is stored under a percent-encoded URL, as JSON.
    fn stored(&self, url: &str) -> Result<Vec<u8>, StoreFault> {
        let key = key_in(self.alloc, url)?;
        let text = self.stored_under(&key);
        drop(key);
        text
    }

    // What is stored under a key, as JSON.
    fn stored_under(&self, key: &CacheKey) -> Result<Vec<u8>, StoreFault> {
        let entry = self.entry(key)?;
        let text = stored_text(self.alloc, key, &entry, self.moment());
        drop(entry);
        octets_of(text)
    }

    // Takes the object of a percent-encoded URL out of the store, and off the shelf even if it is no longer stored. Shows nothing.
    fn remove(&self, url: &str) -> Result<Vec<u8>, StoreFault> {
        let key = key_in(self.alloc, url)?;
        let removed = self.remove_under(&key);
        drop(key);
        removed
    }

    // Takes the object of a key out of the store, and off the shelf even if it is no longer stored. Shows nothing.
    fn remove_under(&self, key: &CacheKey) -> Result<Vec<u8>, StoreFault> {
        withdraw(&self.rt, &*self.proxy, key);
        drop(self.entry(key)?);
        self.purge(key)?;
        match self.entry(key) {
            Err(StoreFault::NotStored) => Ok(Vec::new(self.alloc)),
            Err(fault) => Err(fault),
            Ok(entry) => {
                drop(entry);
                Err(stays(self.alloc, Obstacle::StillStored))
            }
        }
    }

    // Submits the event that takes the object of a key out of the store.
    fn purge(&self, key: &CacheKey) -> Result<(), StoreFault> {
        let moment = self.moment();
        let event = self.purger.event(self.alloc, key, moment)?;
        match self.node.lock(&self.rt).take(event) {
            Some(_) => Ok(()),
            None => Err(StoreFault::NoMemory),
        }
    }

    // The counters of both sockets, as JSON.
    fn socket_figures(&self) -> Result<Vec<u8>, AllocError> {
        let stats = self.proxy.stats(&self.rt);
        line_of(stats_text(self.alloc, stats))
    }

    // The state of each neighbour, as JSON.
    fn neighbour_states(&self) -> Result<Vec<u8>, AllocError> {
        let views = self.views()?;
        let text = neighbours_text(self.alloc, views.as_slice());
        drop(views);
        line_of(text)
    }

    // The state of each neighbour.
    fn views(&self) -> Result<Vec<NeighbourView>, AllocError> {
        self.proxy.neighbours(&self.rt, self.alloc)
    }

    // What is counted of each neighbour.
    fn counts(&self) -> Result<Vec<NeighbourCounts>, AllocError> {
        self.proxy.telling().figures.by_neighbour(self.alloc)
    }

    // The state of each neighbour and what is counted of it, as JSON.
    fn neighbour_figures(&self) -> Result<Vec<u8>, AllocError> {
        let views = self.views()?;
        let text = self.figures_with(views.as_slice());
        drop(views);
        text
    }

    // These states of the neighbours and what is counted of them, as JSON.
    fn figures_with(&self, views: &[NeighbourView]) -> Result<Vec<u8>, AllocError> {
        let counts = self.counts()?;
        let text = neighbour_figures_text(self.alloc, views, counts.as_slice());
        drop(counts);
        line_of(text)
    }

    // The program that is installed in a slot, as text.
    fn shown(&self, slot: Slot) -> Result<Vec<u8>, AllocError> {
        let programs = self.proxy.programs(&self.rt)?;
        let text = shown_in(self.alloc, &programs, slot);
        drop(programs);
        text
    }

    // Begins a capture.
    fn capture_within(
        &self,
        limits: CaptureLimits,
    ) -> Result<mpsc::Receiver<Vec<u8>>, CaptureFault> {
        match self.proxy.tap().begin(&self.rt, self.alloc, limits) {
            Ok(pieces) => Ok(pieces),
            Err(TapFault::Busy) => Err(CaptureFault::Busy),
            Err(TapFault::NoMemory) => Err(CaptureFault::NoMemory),
        }
    }
}

/// The objects that were used last, as JSON, and how much is stored.
fn list_of<R: Wait, S: Overseen>(
    rt: &R,
    alloc: Global,
    proxy: &S,
    most: usize,
    moment: Moment,
) -> Result<Vec<u8>, StoreFault> {
    let Ok(newest) = proxy.newest(rt, alloc, most) else {
        return Err(StoreFault::NoMemory);
    };
    let text = store_text(alloc, proxy.sizes(rt), newest.as_slice(), moment);
    drop(newest);
    octets_of(text)
}

/// The program that is installed in a slot, as text. Errors: out of memory.
fn shown_in(alloc: Global, programs: &Slots, slot: Slot) -> Result<Vec<u8>, AllocError> {
    match programs.installed(slot) {
        Some(program) => Ok(to_text(alloc, program)?.into_bytes()),
        None => b"none\n".to_vec(alloc),
    }
}

/// What says how a capture is asked for.
fn no_limits(alloc: Global) -> CaptureFault {
    match QUERY_LINE.as_bytes().to_vec(alloc) {
        Ok(line) => CaptureFault::NoLimits(line),
        Err(_) => CaptureFault::NoMemory,
    }
}

/// The filters in the files of the configuration.
fn filters_in<R: Files + AllocGlobal>(
    rt: &R,
    alloc: Global,
    files: &[FilterFile],
) -> Result<Vec<Filter>, PutFault> {
    match read_filters(rt, files) {
        Ok(filters) => Ok(filters),
        Err(fault) => {
            let shown = files_fault(alloc, &fault);
            drop(fault);
            Err(shown)
        }
    }
}

/// A fault of the files as one line of text, or out of memory.
fn files_fault(alloc: Global, fault: &FilesFault) -> PutFault {
    if matches!(fault, FilesFault::NoMemory) {
        return PutFault::NoMemory;
    }
    match format!(in alloc; "{fault}\n") {
        Ok(line) => PutFault::NoFilter(line.into_bytes()),
        Err(_) => PutFault::NoMemory,
    }
}

/// The octets of a line. Errors: there is none, for want of memory.
fn line_of(line: Option<String>) -> Result<Vec<u8>, AllocError> {
    match line {
        Some(line) => Ok(line.into_bytes()),
        None => Err(AllocError),
    }
}

/// The octets of a text. Errors: there is none, for want of memory.
fn octets_of(text: Option<String>) -> Result<Vec<u8>, StoreFault> {
    match text {
        Some(text) => Ok(text.into_bytes()),
        None => Err(StoreFault::NoMemory),
    }
}

/// The program that a text is.
fn program_of(alloc: Global, text: &[u8]) -> Result<Arc<Checked>, PutFault> {
    match read_program(alloc, text) {
        Ok(program) => match Arc::new(alloc, program) {
            Ok(program) => Ok(program),
            Err(_) => Err(PutFault::NoMemory),
        },
        Err(fault) => {
            let shown = put_fault(alloc, &fault);
            drop(fault);
            Err(shown)
        }
    }
}

/// A fault as one line of text, or out of memory.
fn put_fault(alloc: Global, fault: &ProgramFault) -> PutFault {
    if fault.is_want_of_memory() {
        return PutFault::NoMemory;
    }
    match format!(in alloc; "{fault}\n") {
        Ok(line) => PutFault::NoFilter(line.into_bytes()),
        Err(_) => PutFault::NoMemory,
    }
}

impl<R: Wait + Clock + Files + AllocGlobal + Drop, S: Overseen, N: TakeEvents> Panel
    for NodePanel<R, S, N> {
    fn admits(&mut self, asked: &Asked) -> bool {
        let port = self.port();
        is_administrator(&asked.head, asked.target.as_bytes(), port)
    }

    fn admits_change(&mut self, asked: &Asked) -> bool {
        match &self.token {
            Some(token) => is_authorized(&asked.head, token.as_bytes()),
            None => true,
        }
    }

    fn has(&mut self, slot: Slot) -> bool {
        match slot {
            Slot::Socket(_) => true,
            Slot::Neighbour(n) => n < self.proxy.outward().peers.len(),
        }
    }

    fn put(&mut self, slot: Slot, text: &[u8]) -> Result<(), PutFault> {
        let program = program_of(self.alloc, text)?;
        match self.swap(slot, Some(program)) {
            Ok(()) => Ok(()),
            Err(_) => Err(PutFault::NoMemory),
        }
    }

    fn clear(&mut self, slot: Slot) -> Result<(), AllocError> {
        self.swap(slot, None)
    }

    fn show(&mut self, slot: Slot) -> Result<Vec<u8>, AllocError> {
        self.shown(slot)
    }

    fn figures(&mut self, figures: Figures) -> Result<Vec<u8>, AllocError> {
        match figures {
            Figures::Sockets => self.socket_figures(),
            Figures::Neighbours => self.neighbour_states(),
            Figures::NeighbourFigures => self.neighbour_figures(),
            Figures::Clients => self.client_figures(),
            Figures::Metrics => self.metrics(),
        }
    }

    fn store(&mut self, asked: &str, order: StoreOrder) -> Result<Vec<u8>, StoreFault> {
        match (asked.strip_prefix('/'), order) {
            (Some(url), StoreOrder::Show) => self.stored(url),
            (Some(url), StoreOrder::Remove) => self.remove(url),
            (None, _) => self.list(asked),
        }
    }

    fn reload(&mut self) -> Result<(), PutFault> {
        let filters = filters_in(&self.rt, self.alloc, self.files.as_slice())?;
        let swapped = self.swap_all(filters.as_slice());
        drop(filters);
        swapped
    }

    fn reopen_log(&mut self) -> bool {
        match &self.proxy.telling().log {
            Some(log) => {
                log.desk.reopen(&self.rt);
                true
            }
            None => false,
        }
    }

    fn stop(&mut self) {
        self.proxy.stopping().stop(&self.rt);
    }

    fn capture(&mut self, query: Option<&str>) -> Result<mpsc::Receiver<Vec<u8>>, CaptureFault> {
        match CaptureLimits::of(query) {
            Some(limits) => self.capture_within(limits),
            None => Err(no_limits(self.alloc)),
        }
    }
}
