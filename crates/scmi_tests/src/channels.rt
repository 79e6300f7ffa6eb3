//! Exchanges over shared words with a close at each gap, and the area that each leaves.

use crate::messages::{HEADER, command, response};
use crate::pair::{Call, Pair, Said};
use scmi_codec::{Answer, Frame};
use scmi_words::WordChannel;
use std::alloc::Global;
use std::process::Abort;
use std::test::Fail;

/// A call, and what it answers.
type Step = (Call, Said);

const POST: Step = (Call::Post, Said::Ok);

const TAKE: Step = (Call::Take, Said::Got);

const TAKE_NOTHING: Step = (Call::Take, Said::Nothing);

const ANSWER: Step = (Call::Answer, Said::Ok);

const COLLECT: Step = (Call::Collect, Said::Got);

const COLLECT_CLOSED: Step = (Call::Collect, Said::Closed);

const POST_CLOSED: Step = (Call::Post, Said::Closed);

const CALLER_IDLE: Step = (Call::CloseCaller, Said::Idle);

const CALLER_IN_SERVICE: Step = (Call::CloseCaller, Said::InService);

const CALLER_WAITS: Step = (Call::CloseCaller, Said::ReplyWaiting);

const CALLER_WITHDRAWS: Step = (Call::CloseCaller, Said::Withdrawn);

const CALLEE: Step = (Call::CloseCallee, Said::Ok);

const CALLEE_IN_SERVICE: Step = (Call::CloseCallee, Said::InService);

/// The first bytes of an area: reserved, status, three reserved words, length, header and two words
/// of payload. All others are zero.
type Left<'a> = &'a [u8];

const FRESH: Left<'static> =
    b"\0\0\0\0\x01\0\0\0\0\0\0\0\0\0\0\0\0\0\0\0\0\0\0\0\0\0\0\0\0\0\0\0\0\0\0\0";

const COMMAND: Left<'static> =
    b"\0\0\0\0\0\0\0\0\0\0\0\0\0\0\0\0\0\0\0\0\x04\0\0\0\0\x40\x14\0\0\0\0\0\0\0\0\0";

const WITHDRAWN: Left<'static> =
    b"\0\0\0\0\x01\0\0\0\0\0\0\0\0\0\0\0\0\0\0\0\x04\0\0\0\0\x40\x14\0\0\0\0\0\0\0\0\0";

const RESPONSE: Left<'static> =
    b"\0\0\0\0\x01\0\0\0\0\0\0\0\0\0\0\0\0\0\0\0\x0c\0\0\0\0\x40\x14\0\0\0\0\0\0\0\x02\0";

const REFUSED: Left<'static> =
    b"\0\0\0\0\x03\0\0\0\0\0\0\0\0\0\0\0\0\0\0\0\x05\0\0\0\0\x40\x14\0\0\0\0\0\0\0\0\0";

/// After a post that was refused as closed, the status alone is promised.
const FREE: Left<'static> = b"\0\0\0\0\x01\0\0\0";

/// Calls with what they answer, and what they leave.
type Row<'a> = (&'a [Step], Left<'a>);

/// Of the command and its response.
const ROWS: [Row<'static>; 15] = [
    (&[POST], COMMAND),
    (&[POST, TAKE, ANSWER], RESPONSE),
    (
        &[
            POST,
            TAKE,
            TAKE_NOTHING,
            CALLEE_IN_SERVICE,
            CALLER_IN_SERVICE,
            ANSWER,
            CALLER_WAITS,
            COLLECT,
            CALLER_IDLE,
            TAKE_NOTHING,
        ],
        RESPONSE,
    ),
    (
        &[
            POST,
            (Call::Post, Said::Outstanding),
            (Call::Collect, Said::Nothing),
        ],
        COMMAND,
    ),
    // The caller closes before the post, and after each call.
    (
        &[
            CALLER_IDLE,
            POST_CLOSED,
            TAKE_NOTHING,
            COLLECT_CLOSED,
            CALLER_IDLE,
        ],
        FRESH,
    ),
    (
        &[POST, CALLER_WITHDRAWS, TAKE_NOTHING, COLLECT_CLOSED],
        WITHDRAWN,
    ),
    (
        &[
            POST,
            TAKE,
            CALLER_IN_SERVICE,
            ANSWER,
            CALLER_WAITS,
            COLLECT,
            CALLER_IDLE,
        ],
        RESPONSE,
    ),
    (
        &[POST, TAKE, ANSWER, CALLER_WAITS, COLLECT, CALLER_IDLE],
        RESPONSE,
    ),
    (
        &[POST, TAKE, ANSWER, COLLECT, CALLER_IDLE, COLLECT_CLOSED],
        RESPONSE,
    ),
    // The callee closes before the post, and after each call.
    (&[CALLEE, POST_CLOSED, COLLECT_CLOSED], FREE),
    (&[POST, CALLEE, TAKE_NOTHING, COLLECT_CLOSED], COMMAND),
    (
        &[
            POST,
            TAKE,
            CALLEE_IN_SERVICE,
            ANSWER,
            CALLEE,
            COLLECT,
            COLLECT_CLOSED,
        ],
        RESPONSE,
    ),
    (
        &[POST, TAKE, ANSWER, CALLEE, COLLECT, COLLECT_CLOSED],
        RESPONSE,
    ),
    (
        &[POST, TAKE, ANSWER, COLLECT, CALLEE, COLLECT_CLOSED],
        RESPONSE,
    ),
    // The callee closes, and then the caller.
    (&[POST, CALLEE, CALLER_WITHDRAWS], WITHDRAWN),
];

/// Makes the calls of a row on a new channel, which leaves its area.
fn check_row(
    rt: &impl Abort,
    alloc: Global,
    frame: Frame,
    answer: Answer,
    row: &Row<'_>,
) -> Result<(), Fail> {
    let (steps, left) = row;
    let mut pair = Pair::<WordChannel>::make(alloc, frame, answer)?;
    for (call, wanted) in *steps {
        let said = pair.call(*call);
        assert_eq!(rt; said, *wanted, "{call:?} in {steps:?}");
    }
    let area = pair.gather().area();
    assert!(rt;
        area.starts_with(left) && area[36..] == [0; 248],
        "{steps:?}"
    );
    Ok(())
}

#[test]
fn words_close_at_each_gap(rt: HostRuntime) -> Result<(), Fail> {
    for row in &ROWS {
        check_row(
            &rt,
            rt.alloc(),
            Frame::Good(command()),
            response(HEADER),
            row,
        )?;
    }
    Ok(())
}

#[test]
fn a_malformed_frame_leaves_the_error_bit(rt: HostRuntime) -> Result<(), Fail> {
    let frame = Frame::Malformed {
        length: 5,
        header: HEADER,
    };
    let row: Row<'_> = (&[POST, TAKE, ANSWER, COLLECT], REFUSED);
    check_row(&rt, rt.alloc(), frame, Answer::ChannelError, &row)
}
