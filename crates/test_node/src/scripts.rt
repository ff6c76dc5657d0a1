//! Short scripts and their output.

use crate::runs::{NEVER, run_script};
use feed_script::FeedFault;
use std::alloc::Global;

// Abbreviations in the scripts and texts of this file. `Z`: sixteen zero octets. `U`: the URL http://a/ with its terminating zero
// octet. `Q`: an ICP query for it. `R`: an ICP reply from 10.0.0.1 for it, without the opcode. `N`: an HTCP NOP request. `M`: the
// response to it. `T`: the TST request of the first fetch for that URL. `S`: a TST response that says the URL is stored.
const ZEROS: &[u8] = b"00000000000000000000000000000000";

const URL: &[u8] = b"687474703a2f2f612f00";

const QUERY: &[u8] = b"010200220000000100000000000000000000000000000000687474703a2f2f612f00";

const REPLY: &[u8] = b"02001e0000000100000000000000000a000001687474703a2f2f612f00";

const NOP: &[u8] = b"000e000000080002000000070002";

const NOP_ANSWER: &[u8] = b"000e000000080001000000070002";

const TST: &[u8] =
    b"002a0000002410020000000100034745540009687474703a2f2f612f0008485454502f312e3100000002";

const STORED: &[u8] = b"00140000000e1001000000010000000000000002";

/// A script or a text with its abbreviations expanded.
fn expanded(alloc: Global, text: &[u8]) -> Option<Vec<u8>> {
    let mut whole = Vec::new(alloc);
    for c in text {
        match *c {
            b'Z' => whole.extend_from_slice(ZEROS).ok()?,
            b'U' => whole.extend_from_slice(URL).ok()?,
            b'Q' => whole.extend_from_slice(QUERY).ok()?,
            b'R' => whole.extend_from_slice(REPLY).ok()?,
            b'N' => whole.extend_from_slice(NOP).ok()?,
            b'M' => whole.extend_from_slice(NOP_ANSWER).ok()?,
            b'T' => whole.extend_from_slice(TST).ok()?,
            b'S' => whole.extend_from_slice(STORED).ok()?,
            c => whole.push(c).ok()?,
        }
    }
    Some(whole)
}

const FILTERED: &[u8] =
    b"allow 10.0.0.0/8\ngo\ns icp 6,0,0,0\nd icp 10.0.0.9:3130 Q 5\ns icp off\nd icp 10.0.0.9:3130 Q 5\n?\n";

const FILTERED_TEXT: &[u8] =
    b".\n.\n.\nsend icp 10.0.0.9:3130 03R\n.\nstats icp 2 1 0 0\nstats htcp 0 0 0 0\n";

const CASES: [(&[u8], Result<(), FeedFault>, &[u8]); 28] = [
    (FILTERED, Ok(()), FILTERED_TEXT),
    // A source that is not allowed, and a URL with a scheme other than http.
    (
        b"allow 10.0.0.0/8\ngo\nd icp 192.0.2.7:3130 Q 5\nd icp 10.0.0.9:3130 0102002100000001Z6674703a2f2f612f00 5",
        Ok(()),
        b"send icp 192.0.2.7:3130 16R\n.\nsend icp 10.0.0.9:3130 0402001d0000000100000000000000000a0000016674703a2f2f612f00\n.\n",
    ),
    // A filter that passes queries but not replies.
    (
        b"allow 10.0.0.0/8\r\n\r\n# queries\r\ngo\r\ns icp 48,0,0,28;21,0,1,1;6,0,0,65535;6,0,0,0\r\nd icp 10.0.0.9:3130 Q 5\r\nd icp 10.0.0.9:3130 0302001E0000000100000000000000000A000009U 6\r\n?\r\n",
        Ok(()),
        b".\nsend icp 10.0.0.9:3130 03R\n.\n.\nstats icp 2 1 0 0\nstats htcp 0 0 0 0\n",
    ),
    // Filters that truncate the packet: to a payload of twelve octets, and to an empty payload.
    (
        b"allow 10.0.0.0/8\ngo\ns icp 6,0,0,40\nd icp 10.0.0.9:3130 Q 5\n?\ns icp 6,0,0,28\nd icp 10.0.0.9:3130 Q 5\n?\n",
        Ok(()),
        b".\n.\nstats icp 1 0 1 1\nstats htcp 0 0 0 0\n.\n.\nstats icp 2 0 2 2\nstats htcp 0 0 0 0\n",
    ),
    // Malformed messages are not answered.
    (
        b"allow 10.0.0.0/8\ngo\nd icp 10.0.0.9:3130 Q00 5\nd icp 10.0.0.9:3130 0102002100000001ZU 5\nd icp 10.0.0.9:3130 0102002200000001Z68747470002f2f612f00 5\nd icp 10.0.0.9:3130 0103002200000001ZU 5\nd icp 10.0.0.9:3130 01020022000000010000000000000000000000 5\nd icp 10.0.0.9:3130 0102002200000001Z687474703a2f2f612f 5\nd icp 10.0.0.9:3130 - 5\n?\n",
        Ok(()),
        b".\n.\n.\n.\n.\n.\n.\nstats icp 7 0 0 7\nstats htcp 0 0 0 0\n",
    ),
    // Programs that the checker rejects.
    (
        b"go\ns icp 52,0,0,0;6,0,0,0\ns icp 6,0,0,0;7,0,0,0\n?\n",
        Ok(()),
        b"refuse 4 0\nrefuse 7 -\nstats icp 0 0 0 0\nstats htcp 0 0 0 0\n",
    ),
    (
        b"go\ns icp off\ns icp 65536,0,0,0\ns icp off\n",
        Err(FeedFault::Line(3)),
        b".\n",
    ),
    // The last `own` address is the sender of a reply, and every `allow` line counts.
    (
        b"allow 192.0.2.7/32\nown 1.2.3.4\nown 10.0.0.1\nallow 10.0.0.0/8\ngo\nd icp 10.0.0.9:3130 Q 4294967295999\nd icp 10.0.0.9:65535 Q 4294967296000\n",
        Err(FeedFault::Line(7)),
        b"send icp 10.0.0.9:3130 03R\n.\n",
    ),
    // A fetch from the origin server whose object is served and then hit, and a fetch that fails.
    (
        b"go\nr 1 shared http://a/ 1000\nf 1 0 60 0 200 6869 1010\nr 2 cached http://a/ 1020\nr 3 private http://a/ 1030\nx 2 0 1040\nt 1050\ng 3\n",
        Ok(()),
        b"fetch 1 0 origin plain - http://a/\n.\nserve 1 got 200 6869\n.\nserve 2 hit 200 0 6869\n.\nfetch 2 0 origin plain 3 http://a/\n.\nserve 3 fail 502\n.\n.\n.\n",
    ),
    // A neighbour is queried by ICP and answers with a miss.
    (
        b"peer parent icp 10.0.0.9:3130 8080 1 k\nkey k 00\ngo\nr 1 shared http://a/ 1000\nd icp 10.0.0.9:3130 0302001e0000000100000000000000000a000009U 1040\n",
        Ok(()),
        b"send icp 10.0.0.9:3130 010200220000000100000000000000000a00000100000000U\n.\nfetch 1 0 peer 0 plain - http://a/\n.\n",
    ),
    // Settings that the node rejects.
    (b"limits 0 1\ngo\n", Err(FeedFault::Line(2)), b""),
    (
        b"peer parent icp 10.0.0.9:3130 8080 1 k\ngo\n",
        Err(FeedFault::Line(2)),
        b"",
    ),
    (b"go\nr 1 shared ftp://a/ 5\n", Err(FeedFault::Line(2)), b""),
    (b"", Ok(()), b""),
    (b"own 10.0.0.2\nallow 0.0.0.0/0\n", Ok(()), b""),
    (b"allow 10.0.0.0/33\ngo\n", Err(FeedFault::Line(1)), b""),
    (b"own 10.0.0.256\ngo\n", Err(FeedFault::Line(1)), b""),
    (b"s icp off\n", Err(FeedFault::Line(1)), b""),
    (
        b"go\n?\nown 10.0.0.2\n",
        Err(FeedFault::Line(3)),
        b"stats icp 0 0 0 0\nstats htcp 0 0 0 0\n",
    ),
    (b"go\ns  icp off\n", Err(FeedFault::Line(2)), b""),
    (b"go\n\ns icp off\r", Err(FeedFault::Line(3)), b""),
    // A datagram is addressed to the node's endpoint for its socket, as the filter sees, and each socket has its own filter.
    (
        b"allow 10.0.0.0/8\ngo\ns htcp 40,0,0,22;21,0,1,4827;6,0,0,65535;6,0,0,0\ns icp 6,0,0,0\nd htcp 10.0.0.9:4827 N 5\nd icp 10.0.0.9:3130 Q 6\ns htcp 6,0,0,40\nd htcp 10.0.0.9:4827 N 7\ns htcp off\nd htcp 10.0.0.9:4827 N 8\n?\n",
        Ok(()),
        b".\n.\nsend htcp 10.0.0.9:4827 M\n.\n.\n.\n.\n.\nsend htcp 10.0.0.9:4827 M\n.\nstats icp 1 1 0 0\nstats htcp 3 0 1 1\n",
    ),
    (
        b"go\ns htcp 52,0,0,0;6,0,0,0\ns htcp 6,0,0,0;7,0,0,0\n?\n",
        Ok(()),
        b"refuse 4 0\nrefuse 7 -\nstats icp 0 0 0 0\nstats htcp 0 0 0 0\n",
    ),
    // A neighbour is queried by HTCP and has the object.
    (
        b"peer sibling htcp 10.0.0.5:4827 3128 1 -\npeer parent icp 10.0.0.9:3130 8080 1 -\ngo\nr 1 shared http://a/ 1000\nd htcp 10.0.0.5:4827 S 1030\n",
        Ok(()),
        b"send htcp 10.0.0.5:4827 T\nsend icp 10.0.0.9:3130 010200220000000100000000000000000a00000100000000U\n.\nfetch 1 0 peer 0 cached - http://a/\n.\n",
    ),
    // Words that are not the name of a socket.
    (
        b"go\nd htc 10.0.0.9:4827 N 5\n",
        Err(FeedFault::Line(2)),
        b"",
    ),
    (b"go\ns udp off\n", Err(FeedFault::Line(2)), b""),
    (
        b"peer sibling udp 10.0.0.5:4827 3128 1 -\ngo\n",
        Err(FeedFault::Line(1)),
        b"",
    ),
    // A number out of range of its field.
    (b"go\ns htcp 65536,0,0,0\n", Err(FeedFault::Line(2)), b""),
];

/// Whether a script has this outcome and writes this text; `None` if memory ran out.
fn ends_so(
    alloc: Global,
    script: &[u8],
    wanted: Result<(), FeedFault>,
    text: &[u8],
) -> Option<bool> {
    let script = expanded(alloc, script)?;
    let text = expanded(alloc, text)?;
    let run = run_script(alloc, script.as_slice(), NEVER);
    Some(run.outcome == wanted && run.held == text)
}

#[test]
fn scripts(rt: HostRuntime) {
    for (i, (script, wanted, text)) in CASES.iter().enumerate() {
        let well = ends_so(rt.alloc(), *script, *wanted, *text);
        assert!(rt; well == Some(true), "script {i}");
    }
}
