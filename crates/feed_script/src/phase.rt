//! The two phases of a script: settings before `go`, events after it.
ghost use Rattle.std.specs.Prelude.{◌≡◌, ◌≤◌, true, length, is_some, None, Err, OnOk, OnErr, IfOk};
ghost use Rattle.bpf_run.specs.Packet.{most_payload};
ghost use Rattle.plain_node.specs.Settings.{setup_fault, setup_of};
ghost use Rattle.node_core.specs.State.{opening};
ghost use Rattle.node_core.specs.Happening.{happening};
ghost use Rattle.script_lines.specs.Item.{script_line_of, IsShort};
ghost use Rattle.script_lines.specs.ScriptLine.{sets, goes, happens, refuses, inquires, receives, takes, owns, allows, denies_fetches, uses_origins, limits, has_key, has_neighbour};
ghost use Rattle.feed_script.specs.Script.{is_misplaced, set_by, usual, fixed_by};
ghost use Rattle.feed_script.specs.Ahead.{stage_of, script_phase_of, fixed_of, preparing, Moves, Obeys};

use super::station::Station;
use bpf_check::CheckFault;
use filter_slots::{End, Moment, Slot, Socket};
use neighbours::{Key, Neighbour};
use node_core::{Config, Event, Network, Node, NodeFault};
use script_lines::Item;
use std::alloc::{AllocError, Global};
use std::mem;

/// The node's address if the script sets none.
const OWN_ADDRESS: [u8; 4] = [10, 0, 0, 1];

/// The phase of a script: settings before the start, a running node after it.
#[derive(Drop)]
pub(crate) enum Phase {
    Before(Config),
    Running(Station),
}

/// Why a line is not executed: it is wrong where it stands, or there is no memory.
#[derive(Clone, Copy)]
pub(crate) enum Unobeyed {
    Wrong,
    Memory,
}

impl From<AllocError> for Unobeyed {
    ghost use Rattle.feed_script.specs.declared.phase.Unobeyed.TheVariants as unobeyed;

    ghost from_gives = { λ _ e. e ≡ unobeyed.Memory };

    fn from(_: AllocError) -> Unobeyed {
        Unobeyed::Memory
    }
}

// The default settings.
fn usual(alloc: Global) -> Config
    ensures { setup_of result ≡ usual }
{
    Config {
        icp: End {
            addr: OWN_ADDRESS,
            port: 3130,
        },
        htcp: End {
            addr: OWN_ADDRESS,
            port: 4827,
        },
        allowed: Vec::new(alloc),
        miss_nofetch: false,
        origin: true,
        entries: 1_000,
        octets: 1_048_576,
        neighbours: Vec::new(alloc),
        keys: Vec::new(alloc),
    }
}

// Adds a network to the settings.
fn push_network(config: &mut Config, network: Network) -> Result<(), AllocError>
    ensures { OnOk result (setup_of config.new ≡ set_by (setup_of config.old) (allows network)) }
{
    config.allowed.push(network)?;
    Ok(())
}

// Adds a signing key to the settings.
fn push_key(config: &mut Config, key: Key) -> Result<(), AllocError>
    ensures { OnOk result (setup_of config.new ≡ set_by (setup_of config.old) (has_key key)) }
{
    config.keys.push(key)?;
    Ok(())
}

// Adds a neighbour to the settings.
fn push_neighbour(config: &mut Config, neighbour: Neighbour) -> Result<(), AllocError>
    ensures { OnOk result (setup_of config.new ≡ set_by (setup_of config.old) (has_neighbour neighbour)) }
{
    config.neighbours.push(neighbour)?;
    Ok(())
}

// Starts a node with these settings.
fn started(alloc: Global, config: Config) -> Result<Station, Unobeyed>
    ensures node { IfOk result (λ station. station.node ≡ opening (setup_of config)) }
    ensures own { IfOk result (λ station. fixed_of station ≡ fixed_by (setup_of config)) }
    ensures faultless { OnOk result (setup_fault (setup_of config) ≡ None) }
    ensures wrong { result ≡ Err Unobeyed.Wrong → is_some (setup_fault (setup_of config)) ≡ true }
{
    let (icp, htcp) = (config.icp, config.htcp);
    let neighbours = config.neighbours.len();
    match Node::new(alloc, config) {
        Ok(node) => Ok(Station::new(alloc, node, icp, htcp, neighbours)?),
        Err(NodeFault::NoMemory) => Err(Unobeyed::Memory),
        Err(NodeFault::Table(_)) => Err(Unobeyed::Wrong),
        Err(NodeFault::Limits) => Err(Unobeyed::Wrong),
    }
}

impl Phase {
    /// The phase at the beginning of a script: the default settings.
    pub(crate) fn new(alloc: Global) -> Phase
        ensures { script_phase_of result ≡ preparing usual }
    {
        Phase::Before(usual(alloc))
    }

    // Sets the address of both sockets.
    fn own(&mut self, addr: [u8; 4]) -> Result<(), Unobeyed>
        ensures ok { OnOk result (Moves self.old (sets (owns addr)) self.new) }
        ensures wrong { result ≡ Err Unobeyed.Wrong → is_misplaced (stage_of (script_phase_of self.old)) (sets (owns addr)) ≡ true }
    {
        let Phase::Before(config) = self else {
            return Err(Unobeyed::Wrong);
        };
        config.icp.addr = addr;
        config.htcp.addr = addr;
        Ok(())
    }

    // Adds a network whose queries are answered.
    fn allow(&mut self, network: Network) -> Result<(), Unobeyed>
        ensures ok { OnOk result (Moves self.old (sets (allows network)) self.new) }
        ensures wrong { result ≡ Err Unobeyed.Wrong → is_misplaced (stage_of (script_phase_of self.old)) (sets (allows network)) ≡ true }
    {
        let Phase::Before(config) = self else {
            return Err(Unobeyed::Wrong);
        };
        push_network(config, network)?;
        Ok(())
    }

    // Sets whether MISS_NOFETCH is answered instead of MISS.
    fn set_nofetch(&mut self, on: bool) -> Result<(), Unobeyed>
        ensures ok { OnOk result (Moves self.old (sets (denies_fetches on)) self.new) }
        ensures wrong { result ≡ Err Unobeyed.Wrong → is_misplaced (stage_of (script_phase_of self.old)) (sets (denies_fetches on)) ≡ true }
    {
        let Phase::Before(config) = self else {
            return Err(Unobeyed::Wrong);
        };
        config.miss_nofetch = on;
        Ok(())
    }

    // Sets whether the node fetches from origin servers.
    fn set_origin(&mut self, on: bool) -> Result<(), Unobeyed>
        ensures ok { OnOk result (Moves self.old (sets (uses_origins on)) self.new) }
        ensures wrong { result ≡ Err Unobeyed.Wrong → is_misplaced (stage_of (script_phase_of self.old)) (sets (uses_origins on)) ≡ true }
    {
        let Phase::Before(config) = self else {
            return Err(Unobeyed::Wrong);
        };
        config.origin = on;
        Ok(())
    }

    // Sets the capacity of the store, in entries and octets.
    fn limit(&mut self, entries: u32, octets: u32) -> Result<(), Unobeyed>
        ensures ok { OnOk result (Moves self.old (sets (limits entries octets)) self.new) }
        ensures wrong { result ≡ Err Unobeyed.Wrong → is_misplaced (stage_of (script_phase_of self.old)) (sets (limits entries octets)) ≡ true }
    {
        let Phase::Before(config) = self else {
            return Err(Unobeyed::Wrong);
        };
        config.entries = entries;
        config.octets = octets;
        Ok(())
    }

    // Adds a signing key.
    fn add_key(&mut self, key: Key) -> Result<(), Unobeyed>
        ensures ok { OnOk result (Moves self.old (sets (has_key key)) self.new) }
        ensures wrong { result ≡ Err Unobeyed.Wrong → is_misplaced (stage_of (script_phase_of self.old)) (sets (has_key key)) ≡ true }
    {
        let Phase::Before(config) = self else {
            return Err(Unobeyed::Wrong);
        };
        push_key(config, key)?;
        Ok(())
    }

    // Adds a neighbour.
    fn add_neighbour(&mut self, neighbour: Neighbour) -> Result<(), Unobeyed>
        ensures ok { OnOk result (Moves self.old (sets (has_neighbour neighbour)) self.new) }
        ensures wrong { result ≡ Err Unobeyed.Wrong → is_misplaced (stage_of (script_phase_of self.old)) (sets (has_neighbour neighbour)) ≡ true }
    {
        let Phase::Before(config) = self else {
            return Err(Unobeyed::Wrong);
        };
        push_neighbour(config, neighbour)?;
        Ok(())
    }

    // Starts the node.
    fn go(&mut self, alloc: Global) -> Result<(), Unobeyed>
        ensures ok { OnOk result (Moves self.old goes self.new) }
        ensures wrong { result ≡ Err Unobeyed.Wrong → is_misplaced (stage_of (script_phase_of self.old)) goes ≡ true }
    {
        let Phase::Before(config) = self else {
            return Err(Unobeyed::Wrong);
        };
        let config = mem::replace(config, usual(alloc));
        let station = started(alloc, config)?;
        *self = Phase::Running(station);
        Ok(())
    }

    // Delivers a datagram to the node.
    fn receive(
        &mut self,
        alloc: Global,
        socket: Socket,
        from: End,
        payload: Vec<u8>,
        now: Moment,
        out: &mut Vec<u8>,
    ) -> Result<(), Unobeyed>
        requires { length payload.items ≤ most_payload }
        ensures ok { OnOk result (Obeys self.old (happens (receives socket from payload.items now)) out.old.items self.new out.new.items) }
        ensures wrong { result ≡ Err Unobeyed.Wrong → is_misplaced (stage_of (script_phase_of self.old)) (happens (receives socket from payload.items now)) ≡ true }
        ensures err { OnErr result (out.new.items ≡ out.old.items) }
    {
        let Phase::Running(station) = self else {
            return Err(Unobeyed::Wrong);
        };
        station.receive(alloc, socket, from, payload, now, out)?;
        Ok(())
    }

    // Delivers any other event to the node. An event that names a slot the node lacks is a wrong line.
    fn take(&mut self, alloc: Global, event: &Event, out: &mut Vec<u8>) -> Result<(), Unobeyed>
        ensures ok { OnOk result (Obeys self.old (happens (takes (happening event.now))) out.old.items self.new out.new.items) }
        ensures wrong { result ≡ Err Unobeyed.Wrong → is_misplaced (stage_of (script_phase_of self.old)) (happens (takes (happening event.now))) ≡ true }
        ensures err { OnErr result (out.new.items ≡ out.old.items) }
    {
        let Phase::Running(station) = self else {
            return Err(Unobeyed::Wrong);
        };
        if station.lacks(event) {
            return Err(Unobeyed::Wrong);
        }
        station.take(alloc, event, out)?;
        Ok(())
    }

    // Reports a program that the checker rejected. If the node lacks the slot, the line is wrong.
    fn refuse(&mut self, slot: Slot, fault: CheckFault, out: &mut Vec<u8>) -> Result<(), Unobeyed>
        ensures ok { OnOk result (Obeys self.old (refuses slot fault) out.old.items self.new out.new.items) }
        ensures wrong { result ≡ Err Unobeyed.Wrong → is_misplaced (stage_of (script_phase_of self.old)) (refuses slot fault) ≡ true }
        ensures err { OnErr result (out.new.items ≡ out.old.items) }
    {
        let Phase::Running(station) = self else {
            return Err(Unobeyed::Wrong);
        };
        if !station.has(slot) {
            return Err(Unobeyed::Wrong);
        }
        station.refuse(fault, out)?;
        Ok(())
    }

    // Prints the counters.
    fn tell(&mut self, out: &mut Vec<u8>) -> Result<(), Unobeyed>
        ensures ok { OnOk result (Obeys self.old inquires out.old.items self.new out.new.items) }
        ensures wrong { result ≡ Err Unobeyed.Wrong → is_misplaced (stage_of (script_phase_of self.old)) inquires ≡ true }
        ensures err { OnErr result (out.new.items ≡ out.old.items) }
    {
        let Phase::Running(station) = self else {
            return Err(Unobeyed::Wrong);
        };
        station.tell(out)?;
        Ok(())
    }

    /// Executes a parsed line. On an error nothing is appended to `out`.
    pub(crate) fn obey(
        &mut self,
        alloc: Global,
        item: Item,
        out: &mut Vec<u8>,
    ) -> Result<(), Unobeyed>
        requires { IsShort item }
        ensures ok { OnOk result (Obeys self.old (script_line_of item) out.old.items self.new out.new.items) }
        ensures wrong { result ≡ Err Unobeyed.Wrong → is_misplaced (stage_of (script_phase_of self.old)) (script_line_of item) ≡ true }
        ensures err { OnErr result (out.new.items ≡ out.old.items) }
    {
        match item {
            Item::Own(addr) => self.own(addr),
            Item::Allow(network) => self.allow(network),
            Item::NoFetch(on) => self.set_nofetch(on),
            Item::Origin(on) => self.set_origin(on),
            Item::Limits { entries, octets } => self.limit(entries, octets),
            Item::AddKey(key) => self.add_key(key),
            Item::AddNeighbour(neighbour) => self.add_neighbour(neighbour),
            Item::Go => self.go(alloc),
            Item::Receive {
                socket,
                from,
                payload,
                now,
            } => self.receive(alloc, socket, from, payload, now, out),
            Item::Take(event) => self.take(alloc, &event, out),
            Item::Refuse { slot, fault } => self.refuse(slot, fault, out),
            Item::Ask => self.tell(out),
            Item::Blank => Ok(()),
            Item::Wrong => Err(Unobeyed::Wrong),
        }
    }
}
