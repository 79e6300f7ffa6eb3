//! One command again and again, for `tools/bench` to count what an exchange takes.

use crate::probe::channels::open;
use crate::probe::lines::Lines;
use scmi_codec::{Answer, PAYLOAD_WORDS, Payload, payload_of};
use scmi_link::{Channel, RingChannel};
use scmi_words::WordChannel;
use std::alloc::Global;
use std::io::Write;

/// What the arguments `exchange words COUNT WORDS` ask for; with `rings` it goes over rings.
#[derive(Drop)]
pub struct Exchanges {
    over_rings: bool,
    count: u32,
    words: usize,
}

impl Exchanges {
    /// What is asked for by the words of the command line. `None` for others.
    pub fn asked_for(words: &[String]) -> Option<Exchanges> {
        let [_program, task, kind, count, size] = words else {
            return None;
        };
        if task.as_str() != "exchange" {
            return None;
        }
        Some(Exchanges {
            over_rings: kind.as_str() == "rings",
            count: count.parse().ok()?,
            words: size.parse().ok()?,
        })
    }

    /// Makes them. The lines are of the board, the last reply, and the length of the history.
    pub fn make<W: Write>(&self, alloc: Global, lines: &mut Lines<'_, W>) {
        let zeros = [0; PAYLOAD_WORDS];
        let payload = payload_of(&zeros[..self.words.min(PAYLOAD_WORDS)]);
        if self.over_rings {
            repeat::<RingChannel, W>(alloc, lines, self.count, &payload);
        } else {
            repeat::<WordChannel, W>(alloc, lines, self.count, &payload);
        }
    }
}

fn repeat<C: Channel, W: Write>(
    alloc: Global,
    lines: &mut Lines<'_, W>,
    count: u32,
    payload: &Payload,
) {
    let Some(mut session) = open::<C, W>(alloc, lines) else {
        return;
    };
    let mut answer = Answer::Released;
    'exchanges: for _ in 0..count {
        session.exchange(payload, &mut answer);
    }
    if let Answer::Reply(reply) = &answer {
        lines.message("reply", reply);
    }
    lines.number("trace", session.retire());
}
