//! Buckets, classes and kinds, and counters near their end (`traffic_figures`).
use crate::rows::{Question, all_hold};
use std::alloc::{AllocError, Global};
use std::test::Fail;
use traffic_figures::{
    AnswerNote, Course, Figures, ReplyKind, Snapshot, StatusClass, bucket_of, class_of, htcp_reply,
    icp_reply,
};

/// Times in microseconds, and the places of their buckets.
const PLACES: [(u64, usize); 12] = [
    (0, 0),
    (1_000, 0),
    (1_001, 1),
    (2_500, 1),
    (2_501, 2),
    (249_999, 7),
    (250_000, 7),
    (1_000_000, 9),
    (1_000_001, 10),
    (30_000_000, 13),
    (30_000_001, 14),
    (18_446_744_073_709_551_615, 14),
];

// A time is in the bucket of its row.
struct BucketOf;

impl Question<(u64, usize)> for BucketOf {
    fn holds(&self, _alloc: Global, row: &(u64, usize)) -> Result<bool, Fail> {
        Ok(bucket_of(row.0) == row.1)
    }
}

#[test]
fn a_bound_belongs_to_its_bucket(rt: HostRuntime) -> Result<(), Fail> {
    all_hold(rt.alloc(), &PLACES, &BucketOf)
}

/// Statuses and their classes.
const CLASSES: [(u16, StatusClass); 9] = [
    (0, StatusClass::NoAnswer),
    (99, StatusClass::ServerError),
    (100, StatusClass::Informational),
    (299, StatusClass::Successful),
    (399, StatusClass::Redirection),
    (400, StatusClass::ClientError),
    (599, StatusClass::ServerError),
    (600, StatusClass::ServerError),
    (65_535, StatusClass::ServerError),
];

// A status has the class of its row.
struct ClassOf;

impl Question<(u16, StatusClass)> for ClassOf {
    fn holds(&self, _alloc: Global, row: &(u16, StatusClass)) -> Result<bool, Fail> {
        Ok(class_of(row.0) == row.1)
    }
}

#[test]
fn the_class_of_a_status(rt: HostRuntime) -> Result<(), Fail> {
    all_hold(rt.alloc(), &CLASSES, &ClassOf)
}

/// Opcodes of ICP (RFC 2186), and the kinds of replies that they are.
const ICP: [(u8, Option<ReplyKind>); 14] = [
    (0, None),
    (1, None),
    (2, Some(ReplyKind::Hit)),
    (3, Some(ReplyKind::Miss)),
    (4, Some(ReplyKind::Error)),
    (5, Some(ReplyKind::Other)),
    (10, Some(ReplyKind::Other)),
    (11, Some(ReplyKind::Other)),
    (20, Some(ReplyKind::Other)),
    (21, Some(ReplyKind::MissNoFetch)),
    (22, Some(ReplyKind::Denied)),
    (23, Some(ReplyKind::Hit)),
    (24, Some(ReplyKind::Other)),
    (255, Some(ReplyKind::Other)),
];

// An opcode is a reply of its row's kind.
struct IcpKind;

impl Question<(u8, Option<ReplyKind>)> for IcpKind {
    fn holds(&self, _alloc: Global, row: &(u8, Option<ReplyKind>)) -> Result<bool, Fail> {
        Ok(icp_reply(row.0) == row.1)
    }
}

#[test]
fn the_kind_of_an_icp_reply(rt: HostRuntime) -> Result<(), Fail> {
    all_hold(rt.alloc(), &ICP, &IcpKind)
}

/// Opcodes of HTCP (RFC 2756), response codes and whether MO is set, and the kinds of responses that they are.
type Response = (u8, u8, bool, ReplyKind);

const HTCP: [Response; 8] = [
    (1, 0, false, ReplyKind::Found),
    (1, 1, false, ReplyKind::NotFound),
    (1, 2, false, ReplyKind::Other),
    (1, 0, true, ReplyKind::Other),
    (1, 1, true, ReplyKind::Other),
    (0, 0, false, ReplyKind::Other),
    (2, 1, false, ReplyKind::Other),
    (4, 0, false, ReplyKind::Other),
];

// A response has the kind of its row.
struct HtcpKind;

impl Question<Response> for HtcpKind {
    fn holds(&self, _alloc: Global, row: &Response) -> Result<bool, Fail> {
        Ok(htcp_reply(row.0, row.1, row.2) == row.3)
    }
}

#[test]
fn the_kind_of_an_htcp_response(rt: HostRuntime) -> Result<(), Fail> {
    all_hold(rt.alloc(), &HTCP, &HtcpKind)
}

// Octets of three answers, which are their microseconds too.
const OCTETS: [u64; 3] = [18_446_744_073_709_551_610, 4, 3];

// What the counters hold after these answers.
fn counted(alloc: Global) -> Result<Snapshot, AllocError> {
    let figures = Figures::new(alloc, 0)?;
    for octets in &OCTETS {
        figures.note_answer(AnswerNote {
            course: Course::Miss,
            status: 200,
            octets: *octets,
            micros: Some(*octets),
        });
    }
    let snapshot = figures.snapshot(alloc);
    drop(figures);
    snapshot
}

#[test]
fn counters_near_their_end(rt: HostRuntime) -> Result<(), Fail> {
    let snapshot = counted(rt.alloc())?;
    let (content, forwarded) = (snapshot.content, snapshot.forwarded);
    drop(snapshot);
    // They go on from 0, each by itself.
    assert!(rt; content == [0, 1, 0, 0, 0]);
    assert!(rt; forwarded.micros == 1);
    // 3 and 4 stand in the first bucket, and the other time in the last.
    assert!(rt; forwarded.counts == [2, 0, 0, 0, 0, 0, 0, 0, 0, 0, 0, 0, 0, 0, 1]);
    Ok(())
}
