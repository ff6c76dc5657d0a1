//! The location of a value in a configuration.
ghost use Rattle.std.specs.Prelude.{◌≡◌};

use std::fmt;

/// The location of a value: a key of the configuration, an item of one of its lists, a key of such an item, or a key of one of its
/// objects. It prints as `key`, `list[0]`, `list[0].key` or `object.key`.
#[derive(Clone, Copy)]
pub(crate) struct Place<'a> {
    item: Option<(&'a str, Option<usize>)>,
    key: &'a str,
}

impl<'a> Place<'a> {
    /// The configuration as a whole.
    pub(crate) fn whole() -> Place<'static> {
        Place {
            item: None,
            key: "",
        }
    }

    /// An item of a list.
    pub(crate) fn item(list: &'a str, index: usize) -> Place<'a> {
        Place {
            item: Some((list, Some(index))),
            key: "",
        }
    }

    /// An object, by its keys from that of the configuration on, with dots between them.
    pub(crate) fn object(name: &'a str) -> Place<'a> {
        Place {
            item: Some((name, None)),
            key: "",
        }
    }

    /// A key of the object at this location.
    pub(crate) fn key(self, key: &'a str) -> Place<'a>
        ensures { result.key.now ≡ key.now }
    {
        Place {
            item: self.item,
            key,
        }
    }

    /// The key; empty for the whole configuration, an item of a list or an object.
    pub(crate) fn name(self) -> &'a str
        ensures { result.now ≡ self.entry.key.now }
    {
        self.key
    }
}

impl fmt::Display for Place<'_> {
    fn fmt<W: fmt::Write>(&self, f: &mut fmt::Formatter<W>) -> fmt::Result {
        let key = self.key;
        match self.item {
            None if key.is_empty() => write!(f, "configuration"),
            None => write!(f, "{key}"),
            Some((name, index)) => {
                write_item(f, name, index)?;
                write_key(f, key)
            }
        }
    }
}

// Prints the name of a list with the index of an item, or that of an object.
fn write_item<W: fmt::Write>(
    f: &mut fmt::Formatter<W>,
    name: &str,
    index: Option<usize>,
) -> fmt::Result {
    match index {
        Some(index) => write!(f, "{name}[{index}]"),
        None => write!(f, "{name}"),
    }
}

// Prints a key of an item or an object, if there is one.
fn write_key<W: fmt::Write>(f: &mut fmt::Formatter<W>, key: &str) -> fmt::Result {
    if key.is_empty() {
        Ok(())
    } else {
        write!(f, ".{key}")
    }
}
