//! Answers to all waiters of a fetch.
ghost use Rattle.std.specs.Prelude.{◌≡◌, ◌≤◌, ◌+◌, ◌++◌, [], length, true, IsOk, OnOk, OnErr};
ghost use Rattle.node_words.specs.declared.action.Answer.TheVariants.{Got, Fail};
ghost use Rattle.plain_node.specs.PlainNode.{serves};
ghost use Rattle.plain_node.specs.Memory.{is_nobody};
ghost use Rattle.plain_node.specs.Bounds.{most_actions};

use crate::NoMemory;
use crate::action::Out;
use node_words::{Action, Answer};
use object_store::SharedObject;

/// Answers each of these clients with the status, in order.
pub fn serve_fail(clients: &[u64], status: u16, out: &mut Out)
    requires { length out.old + length clients.now ≤ most_actions }
    ensures { out.new ≡ out.old ++ serves (Fail status) clients.now }
{
    for client in clients {
        out.push(Action::Serve {
            client: *client,
            answer: Answer::Fail(status),
        });
    }
}

/// Answers each of these clients with the object, in order. An error (too many owners of the object) leaves no action.
pub fn serve_object(clients: &[u64], object: &SharedObject, out: &mut Out) -> Result<(), NoMemory>
    requires empty { out.old ≡ [] }
    requires room { length clients.now ≤ most_actions }
    ensures ok { OnOk result (out.new ≡ serves (Got object.now) clients.now) }
    ensures err { OnErr result (out.new ≡ []) }
    ensures silent { is_nobody clients.now ≡ true → IsOk result }
{
    for client in clients {
        match object.share() {
            Ok(object) => out.push(Action::Serve {
                client: *client,
                answer: Answer::Got(object),
            }),
            Err(e) => {
                out.clear();
                return Err(e);
            }
        }
    }
    Ok(())
}
