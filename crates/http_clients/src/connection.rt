//! The HTTP connection of a client, as hyper has it.

use crate::account::Telling;
use crate::copying::HandOver;
use crate::door::Door;
use crate::reply::Reply;
use crate::requests::Serves;
use crate::tunnel::KeepTunnel;
use crate::upload::Upload;
use bytes::{Bytes, BytesMut};
use client_streams::{Patient, SharedStage, StreamTimeouts};
use futures::Future;
use http_body::Body;
use hyper::body::Incoming;
use hyper::rt::Timer;
use hyper::server::conn::http1::{Builder, Connection, Parts};
use hyper::service::Service;
use hyper::{Request, Response};
use std::time::Clock;
use tokio::io::{AsyncRead, AsyncWrite};
use tokio::net::TcpStream;
use tokio::runtime::Handle;

/// The socket of a client. What serves clients is generic over it, since the prover does not look behind a type parameter (docs/GATE.md).
pub(crate) trait OfClient<R>: AsyncRead + AsyncWrite {
    /// The socket over this connection, which ends where the client is silent for too long. Returns `None` if out of memory.
    fn over(
        rt: R,
        handle: &Handle,
        client: TcpStream,
        still: StreamTimeouts,
        stage: SharedStage,
    ) -> Option<Self>;
}

impl<R: Clock + Copy> OfClient<R> for Patient<R> {
    fn over(
        rt: R,
        handle: &Handle,
        client: TcpStream,
        still: StreamTimeouts,
        stage: SharedStage,
    ) -> Option<Patient<R>> {
        Patient::new(rt, handle.time(), client, still, stage).ok()
    }
}

/// Makes the HTTP connections of clients. What has such a connection is generic over this, since what the library asks of the types of its
/// parts is laid out anew for the prover by each function that names them, and not behind a type parameter (docs/GATE.md).
pub(crate) trait Connections<I, H, K>: Drop {
    /// The connection of a client.
    type Connection: Future<Output = hyper::Result<()>> + HandOver;

    /// Serves the client at this socket by the service behind this door.
    fn serve(&self, socket: I, door: Door<H, K>) -> Self::Connection
        ensures { Self.Connection.can_poll result };
}

// What the library makes of a client's socket and its service.
type Spoken<I, H, K, T> = Connection<I, Door<H, K>, Reply<Telling<H, K>, Upload<I>>, T>;

impl<I, H, K, T> Connections<I, H, K> for Builder<T>
where
    I: AsyncRead + AsyncWrite,
    H: Serves<K>,
    K: KeepTunnel,
    T: Timer,
{
    type Connection = Spoken<I, H, K, T>;

    fn serve(&self, socket: I, door: Door<H, K>) -> Spoken<I, H, K, T>
        ensures { ⟦<Spoken<I, H, K, T> as Future>⟧.can_poll result }
    {
        self.serve_connection(socket, door)
    }
}

impl<I, S, B, T> HandOver for Connection<I, S, B, T>
where
    I: AsyncRead + AsyncWrite,
    S: Service<Request<Incoming<I>>, Response = Response<B>>,
    S::Error: Into<anyhow::Error>,
    B: Body,
    B::Data: Into<Bytes>,
    B::Error: Into<anyhow::Error>,
    T: Timer,
{
    type Socket = I;

    fn hand_over(self) -> (I, BytesMut) {
        let Parts {
            io,
            read_buf,
            service,
        } = self.into_parts();
        drop(service);
        (io, read_buf)
    }
}
