//! What the rules of HTTP say where the built program never asks them or shows no difference: by methods and statuses that come from
//! nobody, of objects that it does not keep, and of marks and names that are not its own. All else is rows of tests/serve_rules. The
//! values are worked out by hand from the RFCs that are named.

use crate::heads::{Field, fields_of, head_of};
use crate::rows::{NO_MEMORY, OfHead, Question, all_hold, all_true, heads_hold};
use http_header::HeaderMap;
use http_rules::{
    Changed, PartRequests, Revalidated, Stored, StoredAnswer, accepts, answer_to, authority_of,
    changed_keys, choose, complete_length, has_come_back, has_stale_use, is_about, is_error,
    is_for_server, is_in_not_modified, is_plain_request, is_short_token, is_unsafe, key_of,
    loop_mark, may_keep, may_retry, supersedes, takes_stale, usual_six_denials, written_name,
};
use node_terms::Mode;
use object_store::Object;
use std::alloc::Global;
use std::process::Abort;

// A method, the fields of a request and of an object of 10,000 octets, and the answer (RFC 9110, sections 13.1.1, 13.1.5 and 14.2). An
// object without a Date, which none that is stored lacks, has no strong date (section 8.8.2.2).
type Asked = (&'static str, &'static str, &'static str, StoredAnswer);

const ASKED: [Asked; 4] = [
    (
        "GET",
        "Range: bytes=1-2\nIf-Match: \"b\"",
        "ETag: \"a\"",
        StoredAnswer::Whole,
    ),
    (
        "GET",
        "Range: bytes=1-2\nIf-Range: Sat, 29 Oct 1994 19:43:31 GMT",
        "Last-Modified: Sat, 29 Oct 1994 19:43:31 GMT",
        StoredAnswer::Whole,
    ),
    (
        "PUT",
        "Range: bytes=1-2\nIf-None-Match: *",
        "",
        StoredAnswer::Whole,
    ),
    ("get", "If-None-Match: *", "", StoredAnswer::Whole),
];

struct AnswerOf;

impl Question<Asked> for AnswerOf {
    fn holds<R: Abort>(&self, rt: &R, alloc: Global, row: &Asked) -> bool {
        let head = head_of(rt, alloc, row.1);
        let object = fields_of(rt, alloc, row.2);
        let answer = answer_to(row.0, &head, object.as_slice(), 10_000);
        drop(object);
        drop(head);
        answer == row.3
    }
}

#[test]
fn other_methods_and_objects(rt: HostRuntime) {
    all_hold(&rt, rt.alloc(), &ASKED, &AnswerOf);
}

// Whether a 304 has the fields of these names (RFC 9110, section 15.4.5).
#[test]
fn names_of_not_modified(rt: HostRuntime) {
    let found = [
        is_in_not_modified(b"content-location"),
        !is_in_not_modified(b"content-range"),
        !is_in_not_modified(b"content-length"),
        !is_in_not_modified(b""),
    ];
    all_true(&rt, &found);
}

// What is no entity tag is compared like one (RFC 9111, section 4.3.4), also of an object that is never asked about.
struct IsAbout;

impl Question<(&'static str, &'static str, bool)> for IsAbout {
    fn holds<R: Abort>(
        &self,
        rt: &R,
        alloc: Global,
        row: &(&'static str, &'static str, bool),
    ) -> bool {
        let head = head_of(rt, alloc, row.0);
        let object = Object::new(200, fields_of(rt, alloc, row.1), Vec::new(alloc), 0, 0);
        let is_about = is_about(&head, object.head());
        let is_shown = Revalidated::by(304, &head, &object).is_some();
        let is_shown_by_a_200 = Revalidated::by(200, &head, &object).is_some();
        drop(object);
        drop(head);
        is_about == row.2 && is_shown == row.2 && !is_shown_by_a_200
    }
}

#[test]
fn what_is_no_entity_tag(rt: HostRuntime) {
    let rows = [
        ("ETag: a", "ETag: a\nLast-Modified: x", true),
        ("ETag: \"a\"", "ETag: \"a\"", true),
        ("ETag: \"b\"", "ETag: \"a\"", false),
    ];
    all_hold(&rt, rt.alloc(), &rows, &IsAbout);
}

// How a response comes: the mode of its request, its status, and the times of both. None of these is kept (RFC 9111, sections 3, 4.2.3
// and 1.2.2).
type Coming = (Mode, u16, &'static str, u64, u64);

const COMING: [Coming; 4] = [
    (Mode::Shared, 199, "Server: a", 0, 0),
    (Mode::Cached, 200, "Server: a", 0, 0),
    (Mode::Private, 200, "Server: a", 0, 0),
    (Mode::Shared, 200, "Age: 2147483649", 0, u64::MAX),
];

struct IsNotKept;

impl Question<Coming> for IsNotKept {
    fn holds<R: Abort>(&self, rt: &R, alloc: Global, row: &Coming) -> bool {
        let (mode, status, line, requested, received) = *row;
        let lines = format!(in alloc; "Cache-Control: public, max-age=60\n{line}");
        let lines = lines.expect(rt, NO_MEMORY);
        let head = head_of(rt, alloc, lines.as_str());
        let kept = may_keep(mode, b"http://a/", status, &head, requested, received, &[]);
        drop(head);
        drop(lines);
        kept == None
    }
}

#[test]
fn what_never_comes(rt: HostRuntime) {
    all_hold(&rt, rt.alloc(), &COMING, &IsNotKept);
}

// Fields of a 206, and the length of the whole (RFC 9110, section 14.4), of which the program shows no more than whether it is above a
// limit.
const LENGTHS: [(&str, Option<u32>); 4] = [
    ("Content-Range: bytes 42-1233/1234", Some(1234)),
    ("Content-Range: bytes 0-0/1", Some(1)),
    ("Content-Range: bytes 0-0/2147483648", Some(2_147_483_648)),
    ("Content-Range: bytes 0-0/99999999999", Some(2_147_483_648)),
];

struct WholeLength;

impl OfHead<Option<u32>> for WholeLength {
    fn is_answer(&self, _alloc: Global, head: &HeaderMap, answer: &Option<u32>) -> bool {
        complete_length(head) == *answer
    }
}

#[test]
fn lengths_of_wholes(rt: HostRuntime) {
    heads_hold(&rt, rt.alloc(), &LENGTHS, &WholeLength);
}

// Requests for parts at 39,000, 40,000 and 40,001 are not within the minute before 100,000, of which the program would have fetched the
// whole at the third.
#[test]
fn third_parts(rt: HostRuntime) {
    let before = PartRequests::none()
        .with_request(39_000)
        .with_request(40_000)
        .with_request(40_001)
        .with_length(10);
    assert!(rt; !before.is_third(100_000, 1000));
}

// Whether a method is unsafe (RFC 9110, section 9.2.1), and a request with it isn't sent once more.
const METHODS: [(&str, bool); 12] = [
    ("GET", false),
    ("HEAD", false),
    ("OPTIONS", false),
    ("TRACE", false),
    ("POST", true),
    ("PUT", true),
    ("DELETE", true),
    ("CONNECT", true),
    ("PATCH", true),
    ("M-SEARCH", true),
    ("get", true),
    ("", true),
];

struct IsUnsafe;

impl Question<(&'static str, bool)> for IsUnsafe {
    fn holds<R: Abort>(&self, _rt: &R, _alloc: Global, row: &(&'static str, bool)) -> bool {
        let (method, wanted) = *row;
        is_unsafe(method) == wanted
            && may_retry(method, true, false) != wanted
            && !may_retry(method, true, true)
            && !may_retry(method, false, false)
    }
}

#[test]
fn safe_methods(rt: HostRuntime) {
    all_hold(&rt, rt.alloc(), &METHODS, &IsUnsafe);
}

// A method that no configuration has, and a status that ends no answer: whether the key becomes stale (RFC 9111, section 4.4).
const CHANGES: [(&str, u16, bool); 3] = [
    ("REPORT", 399, true),
    ("POST", 199, false),
    ("GET", 200, false),
];

struct ChangedKeys;

impl Question<(&'static str, u16, bool)> for ChangedKeys {
    fn holds<R: Abort>(&self, rt: &R, alloc: Global, row: &(&'static str, u16, bool)) -> bool {
        let (method, status, wanted) = *row;
        let key = key_of(alloc, "http://a/b/c/d;p?q").expect(rt, "no key");
        let head = head_of(rt, alloc, "Server: a");
        let Changed { own, others } = changed_keys(alloc, &key, method, status, &head);
        let others = others.expect(rt, NO_MEMORY);
        let holds = own == wanted && others.is_empty();
        drop(others);
        drop(head);
        drop(key);
        holds
    }
}

#[test]
fn changes(rt: HostRuntime) {
    all_hold(&rt, rt.alloc(), &CHANGES, &ChangedKeys);
}

// Targets of CONNECT with their hosts and ports (RFC 9110, section 9.3.6; RFC 9112, section 3.2.3; RFC 3986, section 1.1.2).
const TARGETS: [(&str, &str, u16); 7] = [
    ("server.example.com:80", "server.example.com", 80),
    ("www.example.com:80", "www.example.com", 80),
    ("192.0.2.16:80", "192.0.2.16", 80),
    ("a:1", "a", 1),
    ("a:65535", "a", 65535),
    ("a:00443", "a", 443),
    ("-._~!$&'()*+,;=:443", "-._~!$&'()*+,;=", 443),
];

struct AuthorityOf;

impl Question<(&'static str, &'static str, u16)> for AuthorityOf {
    fn holds<R: Abort>(
        &self,
        _rt: &R,
        _alloc: Global,
        row: &(&'static str, &'static str, u16),
    ) -> bool {
        match authority_of(row.0) {
            Some(end) => end.host == row.1 && end.port == row.2,
            None => false,
        }
    }
}

#[test]
fn targets_of_tunnels(rt: HostRuntime) {
    all_hold(&rt, rt.alloc(), &TARGETS, &AuthorityOf);
}

// Requests with a field that decides how they are answered, also where its value says nothing.
const OTHERS: [(&str, bool); 17] = [
    ("Accept: */*", true),
    ("Authorization: Basic YTpi", false),
    ("Cookie: a=b", false),
    ("Cache-Control: no-cache", false),
    ("Cache-Control: max-age=0", false),
    ("Pragma: no-cache", false),
    ("Range: bytes=0-1", false),
    ("If-Match: \"a\"", false),
    ("If-None-Match: \"a\"", false),
    ("If-Modified-Since: Sat, 29 Oct 1994 19:43:31 GMT", false),
    ("If-Unmodified-Since: Sat, 29 Oct 1994 19:43:31 GMT", false),
    ("If-Range: \"a\"", false),
    ("CDN-Loop: a", false),
    ("Host: a\nCOOKIE: a=b\nUser-Agent: b", false),
    ("Host: a\ncache-control: x\nUser-Agent: b", false),
    ("Host: a\nrAnGe: x\nUser-Agent: b", false),
    ("Host: a\npragma: x\nUser-Agent: b", false),
];

struct IsPlain;

impl OfHead<bool> for IsPlain {
    fn is_answer(&self, _alloc: Global, head: &HeaderMap, answer: &bool) -> bool {
        is_plain_request(head) == *answer
    }
}

#[test]
fn plain_requests(rt: HostRuntime) {
    heads_hold(&rt, rt.alloc(), &OTHERS, &IsPlain);
}

// The fields of a request, and whether nothing in it but a limit of the staleness keeps it from what is stale; nothing that is not fresh
// is accepted by the limits of age alone (RFC 9111, sections 5.2.1.1 to 5.2.1.3).
const TAKING: [(&str, bool); 4] = [
    ("Cache-Control: max-stale", true),
    ("Cache-Control: max-stale=5", true),
    ("Host: a", true),
    ("Cache-Control: max-age=600", false),
];

struct TakesStale;

impl OfHead<bool> for TakesStale {
    fn is_answer(&self, _alloc: Global, head: &HeaderMap, answer: &bool) -> bool {
        let stale = Some(Stored { age: 30, life: 0 });
        takes_stale(head) == *answer
            && !accepts(head, 10, 0)
            && choose("GET", head, stale) == Ok(Mode::Private)
    }
}

#[test]
fn requests_that_take_it(rt: HostRuntime) {
    heads_hold(&rt, rt.alloc(), &TAKING, &TakesStale);
}

// The Cache-Control of an object, and whether there is a use for it without the operator's seconds, and with them (RFC 5861, and RFC
// 9111, section 4.2.4).
const USES: [(&str, bool, bool); 9] = [
    ("max-age=10", false, true),
    ("stale-if-error=5", true, true),
    ("stale-while-revalidate=5", true, true),
    ("stale-if-error=x", false, true),
    ("stale-if-error=5, must-revalidate", false, false),
    ("proxy-revalidate", false, false),
    ("s-maxage=5", false, false),
    ("no-cache", false, false),
    ("x=\"", false, false),
];

// An object with this Cache-Control.
fn object_with<R: Abort>(rt: &R, alloc: Global, control: &str) -> Vec<Field> {
    let line = format!(in alloc; "Cache-Control: {control}").expect(rt, NO_MEMORY);
    let object = fields_of(rt, alloc, line.as_str());
    drop(line);
    object
}

struct HasUse;

impl Question<(&'static str, bool, bool)> for HasUse {
    fn holds<R: Abort>(&self, rt: &R, alloc: Global, row: &(&'static str, bool, bool)) -> bool {
        let object = object_with(rt, alloc, row.0);
        let without = has_stale_use(object.as_slice(), 0);
        let with = has_stale_use(object.as_slice(), 1);
        drop(object);
        without == row.1 && with == row.2
    }
}

#[test]
fn objects_with_a_use(rt: HostRuntime) {
    all_hold(&rt, rt.alloc(), &USES, &HasUse);
}

// Statuses that end no answer to what is asked, none of which is an error or supersedes what is stored.
#[test]
fn statuses_that_come_from_nobody(rt: HostRuntime) {
    let found = [
        !is_error(0),
        !is_error(199),
        !is_error(304),
        !supersedes(0),
        !supersedes(199),
        !supersedes(304),
    ];
    all_true(&rt, &found);
}

// A name, a number, and the mark of the cache that has both (RFC 8586, section 2). The program has a name written as a token before.
const MARKS: [(&str, u64, &str); 5] = [
    (
        "cache.example",
        0x0123_4567_89ab_cdef,
        "cache.example;id=0123456789abcdef",
    ),
    (
        "!#$%&'*+-.^_`|~09azAZ",
        15,
        "!#$%&'*+-.^_`|~09azAZ;id=000000000000000f",
    ),
    ("cache:3128", u64::MAX, "wabretos;id=ffffffffffffffff"),
    ("a,b", 0, "wabretos;id=0000000000000000"),
    ("", 1, "wabretos;id=0000000000000001"),
];

struct MarkOf;

impl Question<(&'static str, u64, &'static str)> for MarkOf {
    fn holds<R: Abort>(
        &self,
        rt: &R,
        alloc: Global,
        row: &(&'static str, u64, &'static str),
    ) -> bool {
        let mark = loop_mark(alloc, row.0.as_bytes(), row.1).expect(rt, NO_MEMORY);
        let is_mark = mark.as_slice() == row.2.as_bytes();
        drop(mark);
        is_mark
    }
}

#[test]
fn marks(rt: HostRuntime) {
    all_hold(&rt, rt.alloc(), &MARKS, &MarkOf);
}

// The fields of the example of RFC 8586, section 2.
const EXAMPLE: &str =
    "CDN-Loop: foo123.foocdn.example, barcdn.example; trace=\"abcdef\"\nCDN-Loop: AnotherCDN; abc=123; def=\"456\"";

// The fields of a request, a mark, and whether the request has come back to the cache with that mark.
type Back = (&'static str, &'static str, bool);

const BACK: [Back; 7] = [
    (EXAMPLE, "foo123.foocdn.example", true),
    (EXAMPLE, "barcdn.example;trace=\"abcdef\"", true),
    (EXAMPLE, "AnotherCDN;abc=123;def=\"456\"", true),
    (EXAMPLE, "barcdn.example", false),
    (EXAMPLE, "foo123.foocdn", false),
    (EXAMPLE, "anotherCDN;abc=123;def=\"456\"", false),
    ("CDN-Loop: a;x=\"b c\"", "a;x=\"bc\"", false),
];

struct ComesBack;

impl Question<Back> for ComesBack {
    fn holds<R: Abort>(&self, rt: &R, alloc: Global, row: &Back) -> bool {
        let head = head_of(rt, alloc, row.0);
        let has_come_back = has_come_back(&head, row.1.as_bytes());
        drop(head);
        has_come_back == row.2
    }
}

#[test]
fn marks_of_others(rt: HostRuntime) {
    all_hold(&rt, rt.alloc(), &BACK, &ComesBack);
}

// A name, whether it is a token of at most 64 octets (RFC 9110, section 5.6.2), and how it is written.
const NAMES: [(&str, bool, &str); 4] = [
    ("wabretos", true, "wabretos"),
    ("!#$%&'*+-.^_`|~", true, "!#$%&'*+-.^_`|~"),
    ("a:3128", false, "a-3128"),
    ("b\u{fc}", false, "b--"),
];

struct WrittenName;

impl Question<(&'static str, bool, &'static str)> for WrittenName {
    fn holds<R: Abort>(
        &self,
        rt: &R,
        alloc: Global,
        row: &(&'static str, bool, &'static str),
    ) -> bool {
        let written = written_name(alloc, row.0.as_bytes()).expect(rt, NO_MEMORY);
        let is_written = written.as_slice() == row.2.as_bytes();
        drop(written);
        is_written && is_short_token(row.0.as_bytes()) == row.1
    }
}

#[test]
fn names_in_fields(rt: HostRuntime) {
    all_hold(&rt, rt.alloc(), &NAMES, &WrittenName);
}

// A method, a target, and whether the server as a whole is asked (RFC 9112, section 3.2.4), which the program asks of `http` URLs alone.
const SERVERS: [(&str, &str, bool); 12] = [
    ("OPTIONS", "http://h", true),
    ("OPTIONS", "http://h:8080", true),
    ("OPTIONS", "HTTP://h", true),
    ("OPTIONS", "http://[::1]:80", true),
    ("OPTIONS", "http://h/", false),
    ("OPTIONS", "http://h?a", false),
    ("OPTIONS", "http://h/a", false),
    ("OPTIONS", "*", false),
    ("OPTIONS", "/abcdefgh", false),
    ("OPTIONS", "", false),
    ("GET", "http://h", false),
    ("options", "http://h", false),
];

struct IsForServer;

impl Question<(&'static str, &'static str, bool)> for IsForServer {
    fn holds<R: Abort>(
        &self,
        _rt: &R,
        _alloc: Global,
        row: &(&'static str, &'static str, bool),
    ) -> bool {
        is_for_server(row.0, row.1) == row.2
    }
}

#[test]
fn questions_about_servers(rt: HostRuntime) {
    all_hold(&rt, rt.alloc(), &SERVERS, &IsForServer);
}

// Three networks are denied where nothing is said, and no more.
#[test]
fn metadata_of_clouds(rt: HostRuntime) {
    let denied = usual_six_denials(rt.alloc()).expect(&rt, NO_MEMORY);
    let count = denied.len();
    drop(denied);
    assert!(rt; count == 3);
}
