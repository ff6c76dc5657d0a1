//! The output of a line is written before the next line is read.

use crate::memory::{Asked, Counted, Due};
use feed_script::feed;
use std::cell::Cell;

// Each line is read after the output of those before it: `fetch 1 0 origin plain - http://a/` and the full stop are 37 octets.
const ASKED: [Due; 5] = [
    Due {
        written: 0,
        line: b"go\n",
    },
    Due {
        written: 0,
        line: b"r 1 shared http://a/ 1000\n",
    },
    Due {
        written: 37,
        line: b"t 1050\n",
    },
    Due {
        written: 39,
        line: b"g 3\n",
    },
    Due {
        written: 41,
        line: b"",
    },
];

#[test]
fn answers_come_in_time(rt: HostRuntime) {
    let written = Cell::new(0);
    let mut input = Asked {
        lines: &ASKED,
        written: &written,
        early: false,
    };
    let mut output = Counted { written: &written };
    let outcome = feed(rt.alloc(), &mut input, &mut output);
    assert!(rt; outcome == Ok(()) && !input.early);
    assert_eq!(rt; written.get(), 41);
}
