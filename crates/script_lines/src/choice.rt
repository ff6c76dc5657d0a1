//! Words that are one of a few keywords.
ghost use Rattle.std.specs.Prelude.{◌≡◌};
ghost use Rattle.script_lines.specs.Words.{either, switch, socket, role, mode};

use filter_slots::Socket;
use neighbours::Role;
use node_words::Mode;

// Returns `a` for the word `first`, `b` for the word `second`, and `None` for any other text.
fn either<T: Copy>(text: &[u8], first: &[u8], a: T, second: &[u8], b: T) -> Option<T>
    ensures { result ≡ either text.now first.now a second.now b }
{
    if text == first {
        Some(a)
    } else if text == second {
        Some(b)
    } else {
        None
    }
}

/// Parses `on` or `off`.
pub(crate) fn switch(text: &[u8]) -> Option<bool>
    ensures { result ≡ switch text.now }
{
    either(text, b"on", true, b"off", false)
}

/// Parses `icp` or `htcp`.
pub(crate) fn socket(text: &[u8]) -> Option<Socket>
    ensures { result ≡ socket text.now }
{
    either(text, b"icp", Socket::Icp, b"htcp", Socket::Htcp)
}

/// Parses `sibling` or `parent`.
pub(crate) fn role(text: &[u8]) -> Option<Role>
    ensures { result ≡ role text.now }
{
    either(text, b"sibling", Role::Sibling, b"parent", Role::Parent)
}

/// Parses `shared`, `cached` or `private`.
pub(crate) fn mode(text: &[u8]) -> Option<Mode>
    ensures { result ≡ mode text.now }
{
    if text == b"shared".as_slice() {
        Some(Mode::Shared)
    } else if text == b"cached".as_slice() {
        Some(Mode::Cached)
    } else if text == b"private".as_slice() {
        Some(Mode::Private)
    } else {
        None
    }
}
