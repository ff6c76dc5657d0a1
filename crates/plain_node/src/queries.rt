//! The queries that a shared fetch sends to the neighbours.
ghost use Rattle.std.specs.Prelude.{◌≡◌, ◌≤◌, [], length, slice_get, option_copied, None, IfOk, OnOk, OnErr};
ghost use Rattle.icp_packet.specs.Message.{spelling};
ghost use Rattle.pending_fetch.specs.Fetches.{next_number};
ghost use Rattle.plain_node.specs.Requests.{queries, query_by, icp_query, htcp_query, key_named};
ghost use Rattle.htcp_packet.specs.Writing.{message_text, without_auth};
ghost use Rattle.plain_node.specs.QueryOctets.{AreQueryOctets};
ghost use Rattle.plain_node.specs.Fitting.{asking};
ghost use Rattle.plain_node.specs.PlainNode.{at_clock};
ghost use Rattle.plain_node.specs.Signatures.{text_to};
ghost use Rattle.htcp_packet.specs.View.{shown as shown_htcp};

use crate::NoMemory;
use crate::action::Out;
use crate::core_node::Core;
use crate::signatures::unsigned;
use filter_slots::Moment;
use htcp_packet::codes::TST;
use htcp_packet::{HtcpAuth, HtcpBody, HtcpView, Specifier};
use icp_packet::{EncodeFault, IcpBody, IcpView, Opcode, encode};
use neighbours::{Neighbour, Socket};
use node_words::{Action, Payload, SharedOctets};
use object_store::CacheKey;
use std::alloc::Global;

impl Core {
    /// Adds the queries for the fetch that is about to be opened, and returns its number. An error leaves no action.
    pub(crate) fn ask(
        &self,
        alloc: Global,
        key: &CacheKey,
        shared: bool,
        now: Moment,
        out: &mut Out,
    ) -> Result<u32, NoMemory>
        requires { out.old ≡ [] }
        ensures number { IfOk result (λ number. number ≡ next_number self.now.fetches) }
        ensures ok { OnOk result (out.new ≡ asking (at_clock self.now now) (next_number self.now.fetches) key.now shared) }
        ensures err { OnErr result (out.new ≡ []) }
    {
        let number = self.next_number();
        if shared {
            self.ask_all(alloc, number, key, self.clock.later(now), out)?;
        }
        Ok(number)
    }

    /// The number that the next fetch gets.
    fn next_number(&self) -> u32
        ensures { result ≡ next_number self.now.fetches }
    {
        self.pending.next_number()
    }

    /// Adds a query to each neighbour at a moment, in order. An error leaves no action.
    #[tactic(auto, unfolding(crate::specs::Requests::queries))]
    fn ask_all(
        &self,
        alloc: Global,
        number: u32,
        key: &CacheKey,
        clock: Moment,
        out: &mut Out,
    ) -> Result<(), NoMemory>
        requires { out.old ≡ [] }
        ensures ok { OnOk result (out.new ≡ queries (record self.now { clock = clock }) number key.now) }
        ensures err { OnErr result (out.new ≡ []) }
    {
        self.few();
        let mut common = QueryOctets::new();
        let mut n = 0;
        while let Some(neighbour) = self.neighbour(n) {
            match self.query_to(alloc, neighbour, number, key, clock, &mut common) {
                Ok(action) => out.push(action),
                Err(e) => {
                    out.clear();
                    return Err(e);
                }
            }
            n += 1;
        }
        Ok(())
    }

    /// States for callers that there are at most 64 neighbours; does nothing at run time.
    pub(crate) fn few(&self)
        ensures { length self.now.rows.neighbours ≤ 64 }
    {
        self.table.facts();
    }

    /// The neighbour with index `n`.
    fn neighbour(&self, n: usize) -> Option<&Neighbour>
        ensures { option_copied result ≡ slice_get self.now.rows.neighbours n }
    {
        self.table.get(n)
    }

    /// The query to a neighbour at a moment, in its protocol.
    fn query_to(
        &self,
        alloc: Global,
        neighbour: &Neighbour,
        number: u32,
        key: &CacheKey,
        clock: Moment,
        common: &mut QueryOctets,
    ) -> Result<Action, NoMemory>
        requires { AreQueryOctets self.now number key.now common.old }
        ensures action { IfOk result (λ action. action ≡ query_by (record self.now { clock = clock }) number key.now neighbour.now neighbour.now.protocol) }
        ensures common { AreQueryOctets self.now number key.now common.new }
    {
        match neighbour.protocol {
            Socket::Icp => Ok(Action::Send {
                socket: Socket::Icp,
                to: neighbour.end,
                payload: self.icp_query(alloc, number, key, common)?,
            }),
            Socket::Htcp => Ok(Action::Send {
                socket: Socket::Htcp,
                to: neighbour.end,
                payload: self.htcp_query(alloc, neighbour, number, key, clock, common)?,
            }),
        }
    }

    /// The HTCP query (RFC 2756): a TST, signed if the neighbour has a key.
    fn htcp_query(
        &self,
        alloc: Global,
        neighbour: &Neighbour,
        number: u32,
        key: &CacheKey,
        clock: Moment,
        common: &mut QueryOctets,
    ) -> Result<Payload, NoMemory>
        requires { AreQueryOctets self.now number key.now common.old }
        ensures payload { IfOk result (λ payload. payload ≡ text_to (record self.now { clock = clock }) neighbour.now.end (htcp_query number key.now) (key_named self.now neighbour.now.key)) }
        ensures common { AreQueryOctets self.now number key.now common.new }
    {
        let signer = self.key_named(&neighbour.key);
        if signer.is_none() {
            return self.unsigned_query(alloc, number, key, common);
        }
        let view = tested(number, key.as_slice());
        self.text_to(alloc, clock, neighbour.end, &view, signer)
    }

    /// The unsigned HTCP query, encoded once and shared by all neighbours without a key.
    fn unsigned_query(
        &self,
        alloc: Global,
        number: u32,
        key: &CacheKey,
        common: &mut QueryOctets,
    ) -> Result<Payload, NoMemory>
        requires { AreQueryOctets self.now number key.now common.old }
        ensures payload { IfOk result (λ payload. payload ≡ message_text (without_auth (htcp_query number key.now))) }
        ensures common { AreQueryOctets self.now number key.now common.new }
    {
        if let Some(octets) = &common.htcp {
            return Payload::of(octets);
        }
        let octets = unsigned(alloc, &tested(number, key.as_slice()))?;
        let octets = SharedOctets::new(alloc, octets)?;
        let payload = Payload::of(&octets)?;
        common.htcp = Some(octets);
        Ok(payload)
    }

    /// The ICP query (RFC 2186), encoded once and shared by all ICP neighbours.
    fn icp_query(
        &self,
        alloc: Global,
        number: u32,
        key: &CacheKey,
        common: &mut QueryOctets,
    ) -> Result<Payload, NoMemory>
        requires { AreQueryOctets self.now number key.now common.old }
        ensures payload { IfOk result (λ payload. payload ≡ spelling (icp_query self.now number key.now)) }
        ensures common { AreQueryOctets self.now number key.now common.new }
    {
        if let Some(octets) = &common.icp {
            return Payload::of(octets);
        }
        let octets = self.icp_octets(alloc, number, key)?;
        let octets = SharedOctets::new(alloc, octets)?;
        let payload = Payload::of(&octets)?;
        common.icp = Some(octets);
        Ok(payload)
    }

    /// Encodes the ICP query. Errors: out of memory.
    fn icp_octets(&self, alloc: Global, number: u32, key: &CacheKey) -> Result<Vec<u8>, NoMemory>
        ensures { IfOk result (λ octets. octets.items ≡ spelling (icp_query self.now number key.now)) }
    {
        let url = key.as_slice();
        let view = IcpView {
            op: Opcode::Query,
            number,
            options: 0,
            option_data: 0,
            sender: self.rules.sender(),
            body: IcpBody::Query {
                requester: [0; 4],
                url,
            },
        };
        match encode(alloc, &view) {
            Ok(octets) => Ok(octets),
            Err(EncodeFault::NoMemory) => Err(NoMemory),
            Err(EncodeFault::TooLong) => unreachable!(),
        }
    }
}

/// Encoded queries that several neighbours of one fetch share; each is encoded when the first neighbour needs it.
#[derive(Drop)]
pub struct QueryOctets {
    icp: Option<SharedOctets>,
    htcp: Option<SharedOctets>,
}

impl QueryOctets {
    /// Nothing encoded yet.
    fn new() -> QueryOctets
        ensures icp { result.icp ≡ None }
        ensures htcp { result.htcp ≡ None }
    {
        QueryOctets {
            icp: None,
            htcp: None,
        }
    }
}

/// The TST for a key: method GET, version HTTP/1.1, response requested (RD).
fn tested(number: u32, key: &[u8]) -> HtcpView<'_>
    ensures { shown_htcp result ≡ htcp_query number key.now }
{
    HtcpView {
        minor: 0,
        opcode: TST,
        response: 0,
        f1: true,
        rr: false,
        trans: number,
        body: HtcpBody::Specifier(Specifier {
            method: b"GET",
            uri: key,
            version: b"HTTP/1.1",
            headers: b"",
        }),
        raw: b"",
        auth: HtcpAuth::Unsigned,
    }
}
