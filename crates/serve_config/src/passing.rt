//! What is passed on beside the node: requests with other methods, tunnels, and answers that are too long for the store.
ghost use Rattle.std.specs.Prelude.{◌≡◌, [], ◌∷◌, ◌++◌, IfOk, IfSome, Some, bytes_eq, false, map};
ghost use Rattle.std.specs.List.{IsDistinct, list_any};
ghost use Rattle.serde_json.specs.View.{view};
ghost use Rattle.http_traffic.specs.Methods.{method_name};
ghost use Rattle.serve_config.specs.Parts.{ArePaceKeys, ArePassingKeys};
ghost use Rattle.serve_config.specs.Passing.{AreConnectPorts, AreMethods, large_said, name_of};

use crate::fault::Fault;
use crate::place::Place;
use crate::value::{number_or, optional, ports_in, word};
use http_traffic::PassedMethod;
use serde_json::Value;
use std::alloc::{AllocError, Global};

// The most ports of `connect_ports`.
const MOST_PORTS: usize = 64;

/// What becomes of an answer that is too long for the store.
#[derive(Clone, Copy, PartialEq, Eq)]
pub enum Large {
    /// It is a failed fetch. It is the usual one.
    Refuse,
    /// It is passed on to its client as it comes.
    Stream,
}

/// What a configuration says about all of it.
#[derive(Drop)]
pub(crate) struct PassingKeys {
    pub(crate) methods: Vec<PassedMethod>,
    pub(crate) connect_ports: Vec<u16>,
    pub(crate) large: Large,
    pub(crate) pace: PaceKeys,
}

/// What it says about how much is passed on at a time, and for how long.
#[derive(Clone, Copy)]
pub(crate) struct PaceKeys {
    pub(crate) streams: u32,
    pub(crate) tunnels: u32,
    pub(crate) fetch_seconds: u32,
    pub(crate) fetch_idle: Option<u32>,
    pub(crate) fetch_speed: u32,
    pub(crate) quick_abort_octets: Option<u32>,
    pub(crate) keep_alive: u32,
}

/// Parses what a configuration says about all of it.
pub(crate) fn passing_keys(alloc: Global, value: &Value) -> Result<PassingKeys, Fault>
    ensures { IfOk result (ArePassingKeys (view value.now)) }
{
    Ok(PassingKeys {
        methods: methods(alloc, value)?,
        connect_ports: connect_ports(alloc, value)?,
        large: large_of(alloc, value)?,
        pace: pace_keys(alloc, value)?,
    })
}

// Parses how much is passed on at a time, and for how long.
fn pace_keys(alloc: Global, value: &Value) -> Result<PaceKeys, Fault>
    ensures said { IfOk result (ArePaceKeys (view value.now)) }
{
    Ok(PaceKeys {
        streams: number_or(alloc, value, "streams", 1, 4096, 256)?,
        tunnels: number_or(alloc, value, "tunnels", 1, 4096, 1024)?,
        fetch_seconds: number_or(alloc, value, "fetch_seconds", 1, 86_400, 30)?,
        fetch_idle: optional(alloc, value, "fetch_idle", 1, 86_400)?,
        fetch_speed: number_or(alloc, value, "fetch_speed", 0, 1_000_000, 0)?,
        quick_abort_octets: optional(alloc, value, "quick_abort_octets", 1, 1_073_741_824)?,
        keep_alive: number_or(alloc, value, "keep_alive", 0, 3600, 0)?,
    })
}

// Parses the methods, in their order. Errors: another word, or one that is there twice.
#[tactic(auto, using(crate::proofs::Methods::said_methods))]
fn methods(alloc: Global, value: &Value) -> Result<Vec<PassedMethod>, Fault>
    ensures { IfOk result (λ methods. AreMethods (view value.now) methods.items) }
{
    let Some(listed) = value.get("methods") else {
        return Ok(Vec::new(alloc));
    };
    let Some(words) = listed.as_array() else {
        return Err(Fault::shape(alloc, Place::whole().key("methods"), "not a list"));
    };
    methods_of(alloc, words.as_slice())
}

// The methods that these words name.
#[tactic(auto, using(crate::proofs::Methods::none_twice))]
fn methods_of(alloc: Global, words: &[Value]) -> Result<Vec<PassedMethod>, Fault>
    ensures said { IfOk result (λ methods. map view words.now ≡ map name_of methods.items) }
    ensures once { IfOk result (λ methods. IsDistinct bytes_eq (map method_name methods.items)) }
{
    let mut methods = Vec::new(alloc);
    for word in words {
        let method = method(alloc, word, Place::item("methods", methods.len()))?;
        methods = with_method(alloc, methods, method)?;
    }
    Ok(methods)
}

// These methods and this one. Errors: it is one of them.
fn with_method(
    alloc: Global,
    methods: Vec<PassedMethod>,
    method: PassedMethod,
) -> Result<Vec<PassedMethod>, Fault>
    requires { IsDistinct bytes_eq (map method_name methods.items) }
    ensures all { IfOk result (λ after. after.items ≡ methods.items ++ method ∷ []) }
    ensures once { IfOk result (λ after. IsDistinct bytes_eq (map method_name after.items)) }
{
    if has_method(methods.as_slice(), method) {
        let place = Place::item("methods", methods.len());
        return Err(Fault::text(alloc, place, method.name(), "is there twice"));
    }
    Ok(with_new(methods, method)?)
}

// These methods and this one, which is none of them.
fn with_new(
    methods: Vec<PassedMethod>,
    method: PassedMethod,
) -> Result<Vec<PassedMethod>, AllocError>
    requires once { IsDistinct bytes_eq (map method_name methods.items) }
    requires new { list_any (λ other. bytes_eq (method_name method) (method_name other)) methods.items ≡ false }
    ensures all { IfOk result (λ after. after.items ≡ methods.items ++ method ∷ []) }
    ensures once { IfOk result (λ after. IsDistinct bytes_eq (map method_name after.items)) }
{
    let mut methods = methods;
    methods.push(method)?;
    Ok(methods)
}

// Parses one method.
fn method(alloc: Global, word: &Value, place: Place<'_>) -> Result<PassedMethod, Fault>
    ensures { IfOk result (λ method. view word.now ≡ name_of method) }
{
    let Some(name) = word.as_str() else {
        return Err(Fault::shape(alloc, place, "not a text"));
    };
    match PassedMethod::of(name) {
        Some(method) => Ok(method),
        None => {
            let what = "is none of HEAD, POST, PUT, DELETE, OPTIONS and PATCH";
            Err(Fault::text(alloc, place, name, what))
        }
    }
}

// Whether a method is one of these.
fn has_method(methods: &[PassedMethod], method: PassedMethod) -> bool
    ensures { result ≡ list_any (λ other. bytes_eq (method_name method) (method_name other)) methods.now }
{
    methods.iter().any(|other| method.name() == other.name())
}

// Parses the ports that a tunnel may lead to. Errors: over 64 of them, or one that is none.
fn connect_ports(alloc: Global, value: &Value) -> Result<Vec<u16>, Fault>
    ensures said { IfOk result (λ ports. AreConnectPorts (view value.now) ports.items) }
{
    let Some(given) = value.get("connect_ports") else {
        return Ok(Vec::new(alloc));
    };
    let ports = ports_in(alloc, given, "connect_ports")?;
    if ports.len() > MOST_PORTS {
        let place = Place::whole().key("connect_ports");
        return Err(Fault::value(alloc, place, "over 64 of them"));
    }
    Ok(ports)
}

// Parses what becomes of a long answer.
fn large_of(alloc: Global, value: &Value) -> Result<Large, Fault>
    ensures { IfOk result (λ large. large_said (view value.now) ≡ Some large) }
{
    match word(alloc, value, "large", "refuse")? {
        "refuse" => Ok(Large::Refuse),
        "stream" => Ok(Large::Stream),
        given => {
            let place = Place::whole().key("large");
            Err(Fault::text(alloc, place, given, "is neither refuse nor stream"))
        }
    }
}
