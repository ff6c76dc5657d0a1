//! The options of the commands.

use clap::builder::ValueParser;
use clap::{Arg, ArgAction};
use std::alloc::{AllocError, Global};

/// An option of a command.
#[derive(Clone, Copy)]
pub(crate) struct Flag {
    /// Its word without the dashes in front.
    name: &'static str,
    /// What its value is; `None` if it has none.
    value: Option<&'static str>,
    help: &'static str,
}

impl Flag {
    /// The option as `clap` takes it. Errors: out of memory.
    pub(crate) fn arg<'a>(self, alloc: Global) -> Result<Arg<'a>, AllocError> {
        let arg = Arg::new(alloc, self.name).long(self.name).help(self.help);
        let arg = match self.value {
            Some(value) => arg.value_name(value).action(action_of(self.name)),
            None => arg.action(ArgAction::SetTrue),
        };
        let arg = match most_of(self.name) {
            Some(most) => arg.value_parser(ValueParser::unsigned(0, most)),
            None => arg,
        };
        arg.conflicts_with_all(apart(self.name))?
            .requires_all(needed(self.name))
    }
}

// What one more use of an option does that has a value.
fn action_of(name: &str) -> ArgAction {
    match name {
        "allow" => ArgAction::Append,
        _ => ArgAction::Set,
    }
}

// The largest number that an option takes, if it takes numbers.
fn most_of(name: &str) -> Option<u64> {
    match name {
        "icp-port" | "htcp-port" => Some(65_535),
        "fail-if-rejected" => Some(100),
        _ => None,
    }
}

/// What an option or a word of `replay` does not stand beside.
pub(crate) fn apart(name: &str) -> &'static [&'static str] {
    match name {
        "show" => &["script"],
        "from" | "fail-if-rejected" => &["compare", "script", "expect"],
        "compare" => &["show", "script", "expect"],
        "json" | "filter" | "capture" => &["script", "expect"],
        "script" => &["expect"],
        "fail-if-different" => &["script", "filter", "capture"],
        _ => &[],
    }
}

// What an option needs beside it. One that stands apart from what it needs has to stand apart, too, from all that does: `clap` asks for
// nothing that may not stand beside what is there.
fn needed(name: &str) -> &'static [&'static str] {
    match name {
        "script" | "expect" => &["own"],
        "allow" | "nofetch" | "clock" => &["node"],
        "fail-if-different" => &["expect"],
        _ => &[],
    }
}

/// That of `serve`.
pub(crate) const SERVE: Flag = Flag {
    name: "check",
    value: None,
    help: "Only reads the configuration: prints ok, or its fault, and binds no socket",
};

/// Those of `replay` with a filter and with a node.
pub(crate) const SHARED: [Flag; 4] = [
    Flag {
        name: "icp-port",
        value: Some("port"),
        help: "The port of the ICP socket; 3130 if left out",
    },
    Flag {
        name: "htcp-port",
        value: Some("port"),
        help: "The port of the HTCP socket; 4827 if left out",
    },
    Flag {
        name: "own",
        value: Some("address"),
        help: "Only datagrams to this address; of a node its own",
    },
    Flag {
        name: "show",
        value: None,
        help: "Also prints the first ten of each kind; not with --script",
    },
];

/// Those of `replay` with a filter.
pub(crate) const FILTER: [Flag; 4] = [
    Flag {
        name: "from",
        value: Some("network"),
        help: "The senders that the limit is about; all if left out",
    },
    Flag {
        name: "fail-if-rejected",
        value: Some("percent"),
        help: "Status 3 if more of these senders' datagrams are rejected",
    },
    Flag {
        name: "compare",
        value: Some("other filter"),
        help: "Prints only where this filter differs",
    },
    Flag {
        name: "json",
        value: None,
        help: "Prints the results as one line of JSON",
    },
];

/// Those of `replay` with a node.
pub(crate) const NODE: [Flag; 6] = [
    Flag {
        name: "script",
        value: Some("capture"),
        help: "Writes the script of this capture, for feed",
    },
    Flag {
        name: "expect",
        value: Some("capture"),
        help: "Compares a node's answers with those in this capture",
    },
    Flag {
        name: "allow",
        value: Some("network"),
        help: "A network whose queries are answered, again for a further one; all if left out",
    },
    Flag {
        name: "nofetch",
        value: None,
        help: "Misses are answered with MISS_NOFETCH",
    },
    Flag {
        name: "clock",
        value: None,
        help: "Moments count from 1970, not from the first packet",
    },
    Flag {
        name: "fail-if-different",
        value: None,
        help: "Status 3 unless all answers are equal; with --expect",
    },
];
