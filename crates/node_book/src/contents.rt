//! The octets that an event holds, which limit how much of a log is kept.
ghost use Rattle.std.specs.Prelude.{◌≡◌, ◌+◌, ◌-◌, ◌^◌, ◌≤◌, length, min, sum_by, map};
ghost use Rattle.std.specs.Option.{option_map};
ghost use Rattle.std.specs.Arc.{arc_value};
ghost use Rattle.object_store.specs.Object.{head_of};
ghost use Rattle.node_core.specs.Happening.{happening};
ghost use Rattle.node_book.specs.Contents.{contents_of, held_octets, object_octets, outcome_octets, program_octets};

use bpf_check::Checked;
use node_core::{Event, Outcome};
use object_store::Object;
use std::sync::Arc;

/// Octets of a datagram's payload, of the key asked for, of what a fetch brought (names and values of its head, and its body), or
/// of a filter (8 for each instruction). More than 4,294,967,295 count as 4,294,967,295.
pub(crate) fn contents_of(event: &Event) -> u64
    ensures value { result ≡ contents_of (happening event.now) }
    ensures few { result ≤ 4294967295 }
{
    held_octets(event).min(u64::from(u32::MAX))
}

// The same without that limit. Saturates at the maximum of `u64`.
fn held_octets(event: &Event) -> u64
    ensures { result ≡ min (held_octets (happening event.now)) (2 ^ 64 - 1) }
{
    match event {
        Event::Datagram { datagram, .. } => datagram.payload().len() as u64,
        Event::Request { key, .. } => key.as_slice().len() as u64,
        Event::Fetched { result, .. } => outcome_octets(result),
        Event::Swap { program, .. } => program_octets(program),
        Event::Timer { .. } => 0,
        Event::Gone { .. } => 0,
    }
}

fn outcome_octets(outcome: &Outcome) -> u64
    ensures { result ≡ min (outcome_octets outcome.now) (2 ^ 64 - 1) }
{
    match outcome {
        Outcome::Object(object) => object_octets(object.get()),
        Outcome::Failed => 0,
    }
}

fn program_octets(program: &Option<Arc<Checked>>) -> u64
    ensures { result ≡ program_octets (option_map (λ arc. arc_value arc) program.now) }
{
    match program {
        Some(program) => 8 * program.len() as u64,
        None => 0,
    }
}

fn object_octets(object: &Object) -> u64
    ensures { result ≡ min (object_octets object.now) (2 ^ 64 - 1) }
{
    head_octets(object.head()).saturating_add(object.body().len() as u64)
}

// Octets in the names and values of a head. Saturates at the maximum of `u64`.
fn head_octets(head: &[(Vec<u8>, Vec<u8>)]) -> u64
    ensures { result ≡ min (sum_by (λ field. length field.0 + length field.1) (head_of head.now)) (2 ^ 64 - 1) }
{
    let mut octets = 0u64;
    for field in head {
        octets = octets
            .saturating_add(field.0.len() as u64)
            .saturating_add(field.1.len() as u64);
    }
    octets
}
