//! The filter programs in force.

ghost use Rattle.std.specs.Prelude.{◌≡◌, ◌↔◌, ◌<◌, ◌≤◌, length, map, replicate, slice_get, slice_set, true, Some, None, IsSome, IsOk, IfOk, OnErr, OnOk, IfSome};
ghost use Rattle.std.specs.Option.{option_map, option_copied};
ghost use Rattle.std.specs.Arc.{arc_value};
ghost use Rattle.bpf_check.specs.Accepted.{IsAccepted};
ghost use Rattle.filter_slots.specs.Filters.{AreNeighbours, no_filters, has_slot, slot, with_slot, program_at, program_for, AreAccepted};
ghost use Rattle.filter_slots.specs.Verdict.{sockets_program, neighbours_program, verdict_in_force, steps_in_force};

use crate::datagram::Datagram;
use crate::judging::judge_by;
use crate::senders::Senders;
use crate::slot::{NoSlot, Slot};
use arrayvec::ArrayVec;
use bpf_check::Checked;
use bpf_run::{End, Socket, Verdict};
use std::alloc::AllocError;
use std::marker::Model;
use std::mem;
use std::sync::Arc;

/// An optional filter program for each socket and each configured neighbour. Programs are reference-counted. Contracts
/// see each program as a list of instructions, and each neighbour with its socket and end.
#[derive(Drop)]
pub struct Slots {
    icp: Option<Arc<Checked>>,
    htcp: Option<Arc<Checked>>,
    senders: Senders,
    programs: ArrayVec<Option<Arc<Checked>>, 64>,
}

impl Model for Slots {
    ghost use Rattle.std.specs.Prelude.{◌≡◌, length, map};
    ghost use Rattle.std.specs.Option.{option_map};
    ghost use Rattle.std.specs.Arc.{arc_value};
    ghost use Rattle.filter_slots.specs.Filters.{Filters};
    ghost use Rattle.filter_slots.specs.Senders.{seated};

    ghost Value = { Filters };

    ghost view = { λ s. record {
      icp = option_map (λ arc. arc_value arc) s.icp;
      htcp = option_map (λ arc. arc_value arc) s.htcp;
      neighbours = seated s.senders (map (option_map (λ arc. arc_value arc)) s.programs.items);
    } };

    ghost invariant = { λ s. length s.programs.items ≡ length s.senders };
}

impl Slots {
    /// Empty slots for these neighbours, each given by the socket that receives its datagrams and their source. Returns
    /// `None` if there are more than 64, or two equal ones. Allocates nothing.
    pub fn new(neighbours: &[(Socket, End)]) -> Option<Slots>
        ensures made { IsSome result ↔ AreNeighbours neighbours.now }
        ensures empty { IfSome result (λ slots. slots ≡ no_filters neighbours.now) }
    {
        let senders = senders_of(neighbours)?;
        Some(Slots {
            icp: None,
            htcp: None,
            senders,
            programs: no_programs(neighbours.len()),
        })
    }

    /// Whether the slot exists.
    pub fn has(&self, place: Slot) -> bool
        ensures { result ≡ has_slot self.now place }
    {
        match place {
            Slot::Socket(_) => true,
            Slot::Neighbour(n) => n < self.programs.len(),
        }
    }

    /// Installs a program in a slot, and returns the previous one. Allocates nothing. Errors: `NoSlot` if the slot does not
    /// exist; nothing changes.
    pub fn install(
        &mut self,
        place: Slot,
        program: Arc<Checked>,
    ) -> Result<Option<Arc<Checked>>, NoSlot>
        ensures there { IsOk result ↔ (has_slot self.old place ≡ true) }
        ensures after { self.new ≡ with_slot self.old place (Some program.value) }
        ensures before { IfOk result (λ before. option_map (λ arc. arc_value arc) before ≡ slot self.old place) }
        ensures refused { OnErr result (self.new ≡ self.old) }
    {
        self.exchange(place, Some(program))
    }

    /// Empties a slot, and returns the previous program. Allocates nothing. Errors: `NoSlot` if the slot does not exist;
    /// nothing changes.
    pub fn clear(&mut self, place: Slot) -> Result<Option<Arc<Checked>>, NoSlot>
        ensures there { IsOk result ↔ (has_slot self.old place ≡ true) }
        ensures after { self.new ≡ with_slot self.old place None }
        ensures before { IfOk result (λ before. option_map (λ arc. arc_value arc) before ≡ slot self.old place) }
        ensures refused { OnErr result (self.new ≡ self.old) }
    {
        self.exchange(place, None)
    }

    // Puts a program or none into a slot, and returns the previous program.
    fn exchange(
        &mut self,
        place: Slot,
        program: Option<Arc<Checked>>,
    ) -> Result<Option<Arc<Checked>>, NoSlot>
        ensures there { IsOk result ↔ (has_slot self.old place ≡ true) }
        ensures after { self.new ≡ with_slot self.old place (option_map (λ arc. arc_value arc) program) }
        ensures before { IfOk result (λ before. option_map (λ arc. arc_value arc) before ≡ slot self.old place) }
        ensures refused { OnErr result (self.new ≡ self.old) }
    {
        match place {
            Slot::Socket(Socket::Icp) => Ok(mem::replace(&mut self.icp, program)),
            Slot::Socket(Socket::Htcp) => Ok(mem::replace(&mut self.htcp, program)),
            Slot::Neighbour(n) => replace_at(&mut self.programs, n, program),
        }
    }

    /// The program in a slot. `None` if the slot is empty or does not exist.
    pub fn installed(&self, place: Slot) -> Option<&Arc<Checked>>
        ensures { option_map (λ arc. arc_value arc) (option_copied result) ≡ slot self.now place }
    {
        match place {
            Slot::Socket(socket) => self.of_socket(socket),
            Slot::Neighbour(n) => self.of_neighbour(n),
        }
    }

    /// The two programs that judge a datagram: that of its socket's slot, and that of its sender's slot.
    #[inline(always)]
    pub fn pair(&self, datagram: &Datagram) -> (Option<&Arc<Checked>>, Option<&Arc<Checked>>)
        ensures first { option_map (λ arc. arc_value arc) (option_copied result.0) ≡ sockets_program self.now datagram.now }
        ensures second { option_map (λ arc. arc_value arc) (option_copied result.1) ≡ neighbours_program self.now datagram.now }
    {
        let socket = datagram.socket();
        (
            self.of_socket(socket),
            self.of_sender(socket, datagram.from()),
        )
    }

    #[inline(always)]
    fn of_socket(&self, socket: Socket) -> Option<&Arc<Checked>>
        ensures { option_map (λ arc. arc_value arc) (option_copied result) ≡ slot self.now (Slot.Socket socket) }
    {
        match socket {
            Socket::Icp => self.icp.as_ref(),
            Socket::Htcp => self.htcp.as_ref(),
        }
    }

    #[inline(always)]
    fn of_sender(&self, socket: Socket, from: End) -> Option<&Arc<Checked>>
        ensures { option_map (λ arc. arc_value arc) (option_copied result) ≡ program_for self.now.neighbours socket from }
    {
        self.senders.facts();
        match self.senders.find(socket, from) {
            None => None,
            Some(n) => self.of_neighbour(n),
        }
    }

    fn of_neighbour(&self, n: usize) -> Option<&Arc<Checked>>
        ensures { option_map (λ arc. arc_value arc) (option_copied result) ≡ program_at self.now.neighbours n }
    {
        if n >= self.programs.len() {
            return None;
        }
        self.programs.as_slice()[n].as_ref()
    }

    /// Publishes that the checker accepts each installed program. Does nothing at run time.
    #[inline(always)]
    pub fn facts(&self)
        ensures accepted { AreAccepted self.now }
    {
        is_accepted(&self.icp);
        is_accepted(&self.htcp);
        for program in self.programs.as_slice() {
            is_accepted(program);
        }
    }

    /// The verdict in force on a datagram: that of its socket's program on the packet, combined with that of its sender's
    /// program on the packet as truncated by the first. The value is the smaller of both, hence 0 if either is 0; the steps
    /// are the sum. An empty slot, or a sender that is not a neighbour, lets everything through in 0 steps.
    #[inline(always)]
    pub fn force(&self, datagram: &Datagram) -> Verdict
        ensures value { result.value ≡ verdict_in_force self.now datagram.now }
        ensures steps { result.steps ≡ steps_in_force self.now datagram.now }
    {
        let (first, second) = self.pair(datagram);
        judge_by(datagram, first, second)
    }

    /// A copy that shares the programs. Errors: a reference count would overflow.
    pub fn copy(&self) -> Result<Slots, AllocError>
        ensures { IfOk result (λ copy. copy ≡ self.now) }
    {
        Ok(Slots {
            icp: shared(&self.icp)?,
            htcp: shared(&self.htcp)?,
            senders: self.senders.copy(),
            programs: all_shared(&self.programs)?,
        })
    }
}

// The index of the neighbours. `None` if there are too many, or two equal ones.
fn senders_of(neighbours: &[(Socket, End)]) -> Option<Senders>
    ensures made { IsSome result ↔ AreNeighbours neighbours.now }
    ensures same { IfSome result (λ senders. senders ≡ neighbours.now) }
{
    let mut senders = Senders::new();
    for neighbour in neighbours {
        if !senders.add(neighbour.0, neighbour.1) {
            return None;
        }
    }
    senders.facts();
    Some(senders)
}

// `count` empty slots.
fn no_programs(count: usize) -> ArrayVec<Option<Arc<Checked>>, 64>
    requires { count ≤ 64 }
    ensures { result.items ≡ replicate count None }
{
    let mut programs = ArrayVec::new();
    for made in 0..count {
        programs.push(None);
    }
    programs
}

// Publishes that the checker accepts the program, if any.
#[inline(always)]
fn is_accepted(program: &Option<Arc<Checked>>)
    ensures { IfSome (option_map (λ arc. arc_value arc) program.now) IsAccepted }
{
    if let Some(program) = program {
        let _ = program.insns();
    }
}

// References to the same programs.
fn all_shared(
    programs: &ArrayVec<Option<Arc<Checked>>, 64>,
) -> Result<ArrayVec<Option<Arc<Checked>>, 64>, AllocError>
    ensures { IfOk result (λ copies. map (option_map (λ arc. arc_value arc)) copies.items ≡ map (option_map (λ arc. arc_value arc)) programs.now.items) }
{
    let mut copies = ArrayVec::new();
    for program in programs.as_slice() {
        copies.push(shared(program)?);
    }
    Ok(copies)
}

// Replaces an element and returns the previous one. Errors: the index is out of range.
fn replace_at(
    programs: &mut ArrayVec<Option<Arc<Checked>>, 64>,
    n: usize,
    program: Option<Arc<Checked>>,
) -> Result<Option<Arc<Checked>>, NoSlot>
    ensures there { IsOk result ↔ (n < length programs.old.items) }
    ensures items { OnOk result (programs.new.items ≡ slice_set programs.old.items n program) }
    ensures before { IfOk result (λ before. slice_get programs.old.items n ≡ Some before) }
    ensures refused { OnErr result (programs.new ≡ programs.old) }
{
    match programs.get_mut(n) {
        None => Err(NoSlot),
        Some(there) => Ok(mem::replace(there, program)),
    }
}

// Another reference to the program, if any.
fn shared(program: &Option<Arc<Checked>>) -> Result<Option<Arc<Checked>>, AllocError>
    ensures { IfOk result (λ copy. option_map (λ arc. arc_value arc) copy ≡ option_map (λ arc. arc_value arc) program.now) }
{
    match program {
        None => Ok(None),
        Some(program) => Ok(Some(Arc::try_clone(program)?)),
    }
}
