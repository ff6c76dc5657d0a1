//! Tallies of an event's actions: the count of each kind, and a digest of them all.
ghost use Rattle.std.specs.Prelude.{◌≡◌, ◌++◌, ◌∷◌, [], ℕ, List, Bool};
ghost use Rattle.std.specs.List.{flat_map};
ghost use Rattle.md5.specs.Md5.{Holds, md5};
ghost use Rattle.object_store.specs.Object.{spelled_number, spelled_octets};
ghost use Rattle.node_words.specs.declared.action.Action.TheVariants as action;
ghost use Rattle.plain_node.specs.Tally.{how_many, action_kind, spelled, spelled_end, spelled_flag, spelled_owner, spelled_socket, spelled_source, tally_of};

use crate::{Action, Answer, Out};
use filter_slots::{End, Socket};
use md5::{Digest, Md5};
use object_store::SharedObject;
use peer_select::Source;

/// The count of an event's actions of each kind, and a digest of them all.
#[derive(Clone, Copy, PartialEq, Eq)]
pub struct Tally {
    /// Datagrams to send.
    pub sends: u64,
    /// Attempts of fetches.
    pub fetches: u64,
    /// Answers with a stored object.
    pub hits: u64,
    /// Answers with a fetched object.
    pub gots: u64,
    /// Answers with a status only.
    pub fails: u64,
    /// MD5 (RFC 1321) of the actions, encoded one after the other as specs/Tally.antt says.
    pub digest: [u8; 16],
}

impl Tally {
    /// The tally of these actions. Does not allocate.
    pub fn of(actions: &[Action]) -> Tally
        ensures { result ≡ tally_of actions.now }
    {
        Tally {
            sends: how_many(0, actions),
            fetches: how_many(1, actions),
            hits: how_many(2, actions),
            gots: how_many(3, actions),
            fails: how_many(4, actions),
            digest: digest_of(actions),
        }
    }
}

impl Out {
    /// The tally of the actions. Does not allocate.
    pub fn tally(&self) -> Tally
        ensures { result ≡ tally_of self.now }
    {
        Tally::of(self.actions())
    }
}

// The kind of an action, by which it is counted and encoded.
fn action_kind(action: &Action) -> u8
    ensures { result ≡ action_kind action.now }
{
    match action {
        Action::Send { .. } => 0,
        Action::Fetch { .. } => 1,
        Action::Serve {
            answer: Answer::Hit { .. },
            ..
        } => 2,
        Action::Serve {
            answer: Answer::Got(_),
            ..
        } => 3,
        Action::Serve {
            answer: Answer::Fail(_),
            ..
        } => 4,
    }
}

// The number of actions of a kind.
fn how_many(kind: u8, actions: &[Action]) -> u64
    ensures { result ≡ how_many kind actions.now }
{
    actions
        .iter()
        .filter(|action| action_kind(action) == kind)
        .count() as u64
}

// MD5 of the actions, spelled one after the other.
fn digest_of(actions: &[Action]) -> [u8; 16]
    ensures { result ≡ md5 (flat_map spelled actions.now) }
{
    let mut hasher = Md5::new();
    for action in actions {
        add_action(&mut hasher, action);
    }
    hasher.finalize()
}

// Adds an action to the digest.
fn add_action(hasher: &mut Md5, action: &Action)
    ensures { (m : List ℕ) → Holds hasher.old m → Holds hasher.new (m ++ spelled action.now) }
{
    match action {
        Action::Send {
            socket,
            to,
            payload,
        } => {
            let octets = payload.as_slice();
            hasher.update(&send_head(*socket, *to, octets.len() as u64));
            hasher.update(octets);
        }
        Action::Fetch {
            fetch,
            attempt,
            source,
            only_if_cached,
            owner,
        } => {
            hasher.update(&tagged_number(1, u64::from(*fetch)));
            add_number(hasher, u64::from(*attempt));
            add_source(hasher, *source);
            add_flag(hasher, *only_if_cached);
            add_owner(hasher, *owner);
        }
        Action::Serve { client, answer } => add_answer(hasher, *client, answer),
    }
}

// Adds an answer to the digest.
fn add_answer(hasher: &mut Md5, client: u64, answer: &Answer)
    ensures { (m : List ℕ) → Holds hasher.old m → Holds hasher.new (m ++ spelled (action.Serve client answer.now)) }
{
    match answer {
        Answer::Hit { object, age } => {
            hasher.update(&tagged_number(2, client));
            hasher.update(&object.get().digest());
            add_number(hasher, u64::from(*age));
        }
        Answer::Got(object) => {
            hasher.update(&tagged_number(3, client));
            hasher.update(&object.get().digest());
        }
        Answer::Fail(status) => {
            hasher.update(&tagged_number(4, client));
            add_number(hasher, u64::from(*status));
        }
    }
}

// Adds a source to the digest.
fn add_source(hasher: &mut Md5, source: Source)
    ensures { (m : List ℕ) → Holds hasher.old m → Holds hasher.new (m ++ spelled_source source) }
{
    match source {
        Source::Peer(place) => hasher.update(&tagged_number(0, place as u64)),
        Source::Origin => hasher.update(&[1]),
    }
}

// Adds the owner of a fetch, or its absence, to the digest.
fn add_owner(hasher: &mut Md5, owner: Option<u64>)
    ensures { (m : List ℕ) → Holds hasher.old m → Holds hasher.new (m ++ spelled_owner owner) }
{
    match owner {
        None => hasher.update(&[0]),
        Some(client) => hasher.update(&tagged_number(1, client)),
    }
}

// A tag octet, then a number.
#[tactic(auto, unfolding(object_store::specs::Object::spelled_number))]
fn tagged_number(choice: u8, number: u64) -> [u8; 9]
    ensures { result ≡ choice ∷ spelled_number number }
{
    let octets = number.to_be_bytes();
    [
        choice, octets[0], octets[1], octets[2], octets[3], octets[4], octets[5], octets[6],
        octets[7],
    ]
}

// The encoding before a datagram's octets: the kind, the socket, the address and port, and the length.
fn send_head(socket: Socket, to: End, octets: u64) -> [u8; 22]
    ensures { result ≡ 0 ∷ spelled_socket socket ++ spelled_end to ++ spelled_number octets }
{
    let choice = socket_octet(socket);
    let port = u64::from(to.port).to_be_bytes();
    let length = octets.to_be_bytes();
    [
        0, choice, to.addr[0], to.addr[1], to.addr[2], to.addr[3], port[0], port[1], port[2],
        port[3], port[4], port[5], port[6], port[7], length[0], length[1], length[2], length[3],
        length[4], length[5], length[6], length[7],
    ]
}

// The tag of a socket.
fn socket_octet(socket: Socket) -> u8
    ensures { spelled_socket socket ≡ result ∷ [] }
{
    match socket {
        Socket::Icp => 0,
        Socket::Htcp => 1,
    }
}

// Adds a number to the digest.
#[tactic(auto, unfolding(object_store::specs::Object::spelled_number))]
fn add_number(hasher: &mut Md5, number: u64)
    ensures { (m : List ℕ) → Holds hasher.old m → Holds hasher.new (m ++ spelled_number number) }
{
    hasher.update(&number.to_be_bytes());
}

// Adds a flag to the digest.
fn add_flag(hasher: &mut Md5, flag: bool)
    ensures { (m : List ℕ) → Holds hasher.old m → Holds hasher.new (m ++ spelled_flag flag) }
{
    hasher.update(&[u8::from(flag)]);
}
