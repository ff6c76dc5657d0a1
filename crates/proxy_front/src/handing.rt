//! How a front is handed to what serves it: as a type that has only its calls, each of which it takes by one function. The prover
//! looks at all methods of a trait for all of the type that has them, which is too much for a front with the whole node behind it.
ghost use Rattle.std.specs.Prelude.{◌≡◌, IfSome};

use crate::front::ServeFront;
use http_header::HeaderMap;
use http_rules::AdmittedOrigin;
use http_traffic::{
    Asked, Asking, Coming, FollowUp, Front, PassOn, Passing, Road, Shape, Told, TunnelEnd,
};
use object_store::Object;
use std::io;
use std::net::{IpAddr, SocketAddr};

/// One call of a front, with its arguments.
#[derive(Drop)]
pub enum Call<'a> {
    /// `Front::allows`.
    Allows(IpAddr),
    /// `Front::road`.
    Road(&'a str),
    /// `Front::ask`.
    Ask(&'a Asked),
    /// `Front::ask_alone`.
    AskAlone(&'a Asked),
    /// `FollowUp::shape`.
    Shape(&'a Asked, &'a Object),
    /// `FollowUp::gone`.
    Gone(u64),
    /// `FollowUp::answered`.
    Answered,
    /// `FollowUp::tell`.
    Tell(&'a Told<'a>),
    /// `PassOn::is_large`.
    IsLarge(&'a Asked),
    /// `PassOn::pass_on`.
    PassOn(&'a Asked, Option<Coming>),
    /// `PassOn::passed`.
    Passed(&'a Asked, u16, &'a HeaderMap),
    /// `PassOn::tunnel`.
    Tunnel(&'a Asked),
}

/// What such a call returns.
#[derive(Drop)]
pub enum Returned {
    Nothing,
    Whether(bool),
    Road(Road),
    Asking(Result<Asking, u16>),
    Shape(Shape),
    Passing(Result<Passing, u16>),
    Tunnel(Result<TunnelEnd, u16>),
}

/// Takes the calls of a front.
pub trait TakeCalls: Drop {
    /// Takes one.
    fn take_call(&mut self, call: Call<'_>) -> Returned;

    /// Takes `PassOn::admitted`: a call of its own, since its contract says which server is admitted.
    fn admitted(&mut self, server: SocketAddr) -> Option<AdmittedOrigin>
        ensures same { IfSome result (λ it. it.server ≡ server) };
}

/// A front whose calls another type takes.
#[derive(Drop)]
pub struct Handed<T> {
    to: T,
    has_passages: bool,
}

impl<T: TakeCalls> Handed<T> {
    // A call that returns whether something is so.
    fn whether(&mut self, call: Call<'_>) -> bool {
        let returned = self.to.take_call(call);
        let whether = matches!(&returned, Returned::Whether(true));
        drop(returned);
        whether
    }

    // A call that accepts a request.
    fn asking(&mut self, call: Call<'_>) -> Result<Asking, u16> {
        match self.to.take_call(call) {
            Returned::Asking(asking) => asking,
            other => {
                drop(other);
                Err(503)
            }
        }
    }
}

impl<T: TakeCalls> Front for Handed<T> {
    fn allows(&mut self, address: IpAddr) -> bool {
        self.whether(Call::Allows(address))
    }

    fn road(&mut self, method: &str) -> Road {
        let returned = self.to.take_call(Call::Road(method));
        let road = match &returned {
            Returned::Road(road) => *road,
            _ => Road::Refused,
        };
        drop(returned);
        road
    }

    fn ask(&mut self, asked: &Asked) -> Result<Asking, u16> {
        self.asking(Call::Ask(asked))
    }

    fn ask_alone(&mut self, asked: &Asked) -> Result<Asking, u16> {
        self.asking(Call::AskAlone(asked))
    }
}

impl<T: TakeCalls> FollowUp for Handed<T> {
    fn shape(&mut self, asked: &Asked, object: &Object) -> Shape {
        match self.to.take_call(Call::Shape(asked, object)) {
            Returned::Shape(shape) => shape,
            other => {
                drop(other);
                Shape::Whole
            }
        }
    }

    fn gone(&mut self, client: u64) {
        drop(self.to.take_call(Call::Gone(client)));
    }

    fn answered(&mut self) {
        drop(self.to.take_call(Call::Answered));
    }

    fn tell(&mut self, told: &Told<'_>) {
        drop(self.to.take_call(Call::Tell(told)));
    }
}

impl<T: TakeCalls> PassOn for Handed<T> {
    fn has_passages(&self) -> bool {
        self.has_passages
    }

    fn is_large(&mut self, asked: &Asked) -> bool {
        self.whether(Call::IsLarge(asked))
    }

    fn pass_on(&mut self, asked: &Asked, content: Option<Coming>) -> Result<Passing, u16> {
        match self.to.take_call(Call::PassOn(asked, content)) {
            Returned::Passing(passing) => passing,
            other => {
                drop(other);
                Err(501)
            }
        }
    }

    fn passed(&mut self, asked: &Asked, status: u16, head: &HeaderMap) {
        drop(self.to.take_call(Call::Passed(asked, status, head)));
    }

    fn tunnel(&mut self, asked: &Asked) -> Result<TunnelEnd, u16> {
        match self.to.take_call(Call::Tunnel(asked)) {
            Returned::Tunnel(tunnel) => tunnel,
            other => {
                drop(other);
                Err(501)
            }
        }
    }

    fn admitted(&mut self, server: SocketAddr) -> Option<AdmittedOrigin> {
        self.to.admitted(server)
    }
}

/// Has a front served whose calls `to` takes, and which passes requests on or opens tunnels only if `has_passages`.
pub(crate) fn hand_over<T: TakeCalls, S: ServeFront>(
    to: T,
    has_passages: bool,
    server: S,
) -> io::Result<()> {
    server.serve(Handed { to, has_passages })
}
