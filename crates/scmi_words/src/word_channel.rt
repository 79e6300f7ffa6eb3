//! The channel whose endpoints share words.

use crate::callee_steps::{hand_back, set_callee_closed, take_over};
use crate::caller_steps::{hand_over, look, set_caller_closed, store_frame_word, withdraw};
use crate::frames::{read_answer, read_frame, write_command, write_response};
use crate::layout::{HEADER, LENGTH, TABLE_WORDS};
use crate::phase::Phase;
use crate::shared_table::SharedTable;
use crate::shared_table::channel_steps::{close_table, join_callee, make_table, split_callee};
use crate::status_word::{
    CHANNEL_ERROR, CLOSED, FREE, POSTED, RELEASED, TAKEN, is_free, told_after, without_closed,
};
use crate::word_callee::WordCallee;
use crate::word_caller::WordCaller;
use crate::word_image::{WordImage, words_of};
use scmi_codec::{Answer, Frame, Header, Message, Payload, is_well_formed};
use scmi_link::{Channel, CloseError, Closing, Collected, LinkError, Looked, PostError};
use std::alloc::Global;

/// A channel of shared words: the area of a mailbox (DEN0056B, shared memory transport), a word for
/// each of its fields, in one table.
///
/// The words of a frame or an answer are stored one at a time. One exchange of the status hands them
/// over, and it is tried once: no call waits, and none but `make` takes memory.
///
/// A step is one load, store or exchange of a shared word, and every one is counted. To post or to
/// take a frame of k payload words makes k + 3 steps, and so does to answer or to collect a reply
/// of k payload words. To answer otherwise or to collect that answer makes 1, and so does a poll
/// that finds nothing. What an endpoint knew before may refuse a call, which then makes none. A
/// close makes 1, or 2 if it withdraws, and none once the endpoint has closed.
///
/// Beyond what every channel promises (own):
///
/// - No post answers `Full`.
/// - A `collect` that gives `Nothing` has loaded the status, and saw no closed mark and, with a post
///   outstanding, no free channel.
/// - A `take` that gives `None` while no answer is owed and no close is known has tried its
///   exchange, and saw another status than posted.
/// - A `close_caller` that withdraws leaves the phase `Withdrawn`, for which the area has status 1
///   and the frame; one that is refused shows that the post was taken and not answered, or that it
///   was answered.
/// - What `gather` leaves encodes the last answer, or the last frame if it was left untaken.
#[derive(Drop)]
pub struct WordChannel {
    pub(crate) table: SharedTable,
}

impl WordChannel {
    ghost use Rattle.scmi_words.specs.Mailbox.{Rule};
    ghost use Rattle.scmi_words.specs.SharedTable.{IsSeatAt};
    ghost use Rattle.scmi_words.specs.View.{caller_of, callee_of};

    /// The last words. The rule holds of them and of what the two endpoints have done.
    fn take_apart(self, caller: WordCaller, callee: WordCallee) -> [u64; TABLE_WORDS]
        requires caller { IsSeatAt self.table caller.seat }
        requires callee { IsSeatAt self.table callee.seat }
        ensures { Rule result (caller_of caller.seat) (callee_of callee.seat) }
    {
        let WordChannel { table } = self;
        let WordCaller { mut seat, .. } = caller;
        let WordCallee { seat: other, .. } = callee;
        join_callee(&table, &mut seat, other);
        let closed = close_table(table, seat);
        let words = words_of(&closed);
        closed.free();
        words
    }
}

#[tactic(auto, using(crate::proofs::TableIdentities::same_table))]
impl Channel for WordChannel {
    type Caller = WordCaller;

    type Callee = WordCallee;

    type Rest = WordImage;

    ghost use Rattle.std.specs.Prelude.{◌≡◌, ◌≢◌, ◌↔◌, true, false, IfOk};
    ghost use Rattle.scmi_codec.specs.Area.{is_well_formed};
    ghost use Rattle.scmi_codec.specs.declared.frame.Frame.TheVariants.{Good, Malformed};
    ghost use Rattle.scmi_codec.specs.declared.message.Message.{Message};
    ghost use Rattle.scmi_link.specs.View.{IsOutstanding, knows_close, new_caller, new_callee};
    ghost use Rattle.scmi_link.specs.Calls.{Posts, Collects, Takes, ClosesCaller, frame_if, collected_by};
    ghost use Rattle.scmi_link.specs.Steps.{call_post, call_collect, call_close, call_take};
    ghost use Rattle.scmi_link.specs.Gathered.{Agree, Closed};
    ghost use Rattle.scmi_words.specs.Mailbox.{Rule};
    ghost use Rattle.scmi_words.specs.View.{first_caller, first_callee};
    ghost use Rattle.scmi_words.specs.WordCaller.{word_caller_view, word_caller_identity, caller_half, word_caller_steps, WhyNothing, CloseShows, HasNoDraft, IsWithdrawn};
    ghost use Rattle.scmi_words.specs.WordCallee.{word_callee_view, word_callee_identity, callee_half, word_callee_steps, WhyNone};
    ghost use Rattle.scmi_words.specs.WordChannel.{word_channel_identity};
    ghost use Rattle.scmi_words.specs.WordImage.{StandsAtEnd, image_words, image_area};

    ghost FULL = { false };

    const FULL: bool = false;

    ghost identity = { word_channel_identity };

    ghost caller_identity = { word_caller_identity };

    ghost callee_identity = { word_callee_identity };

    ghost caller_view = { word_caller_view };

    ghost callee_view = { word_callee_view };

    ghost close_shows = { CloseShows };

    ghost caller_steps = { word_caller_steps };

    ghost callee_steps = { word_callee_steps };

    fn make(alloc: Global) -> Result<(WordChannel, WordCaller, WordCallee), LinkError>
        ensures made { IfOk result (λ r.
            (word_caller_identity r.1 ≡ word_channel_identity r.0) ×
            (word_callee_identity r.2 ≡ word_channel_identity r.0)) }
        ensures fresh { IfOk result (λ r.
            (word_caller_view r.1 ≡ new_caller) × (word_callee_view r.2 ≡ new_callee)) }
        ensures halves { IfOk result (λ r.
            (caller_half r.1 ≡ first_caller) × (callee_half r.2 ≡ first_callee)) }
        ensures draft { IfOk result (λ r. HasNoDraft r.1) }
    {
        let Ok((table, mut seat)) = make_table(alloc) else {
            return Err(LinkError::Memory);
        };
        let other = split_callee(&table, &mut seat);
        let caller = WordCaller {
            seat,
            phase: Phase::Idle,
            closed: false,
            told: false,
            free: FREE,
            posts: 0,
            collects: 0,
        };
        let callee = WordCallee {
            seat: other,
            owes: false,
            closed: false,
            told: false,
            takes: 0,
        };
        Ok((WordChannel { table }, caller, callee))
    }

    fn post(&self, caller: &mut WordCaller, message: &Message) -> Result<(), PostError>
        requires identity { word_caller_identity caller.old ≡ word_channel_identity self.now }
        ensures identity { word_caller_identity caller.new ≡ word_caller_identity caller.old }
        ensures posts { Posts false (word_caller_view caller.old) (Good message.now) result
            (word_caller_view caller.new) }
        ensures never_full { result ≢ Err PostError.Full }
        ensures withdrawn_stays { IsWithdrawn caller.old → IsWithdrawn caller.new }
        ensures draft { HasNoDraft caller.old →
            (result ≡ Err PostError.Closed → knows_close (word_caller_view caller.old) ≡ true) →
            HasNoDraft caller.new }
        ensures steps { word_caller_steps caller.old (call_post (Good message.now) result)
            caller.new }
    {
        self.post_parts(caller, message.header, &message.payload)
    }

    fn post_parts(
        &self,
        caller: &mut WordCaller,
        header: Header,
        payload: &Payload,
    ) -> Result<(), PostError>
        requires identity { word_caller_identity caller.old ≡ word_channel_identity self.now }
        ensures identity { word_caller_identity caller.new ≡ word_caller_identity caller.old }
        ensures posts { let message : Message = record { header = header; payload = payload.now } in
            Posts false (word_caller_view caller.old) (Good message) result
            (word_caller_view caller.new) }
        ensures never_full { result ≢ Err PostError.Full }
        ensures withdrawn_stays { IsWithdrawn caller.old → IsWithdrawn caller.new }
        ensures draft { HasNoDraft caller.old →
            (result ≡ Err PostError.Closed → knows_close (word_caller_view caller.old) ≡ true) →
            HasNoDraft caller.new }
        ensures steps { let message : Message = record { header = header; payload = payload.now } in
            word_caller_steps caller.old (call_post (Good message) result) caller.new }
    {
        caller.posts = caller.posts.wrapping_add(1);
        caller.may_post()?;
        write_command(&self.table, &mut caller.seat, header, payload);
        if hand_over(&self.table, &mut caller.seat, caller.free) {
            caller.phase = Phase::Waiting;
            Ok(())
        } else {
            caller.told = true;
            Err(PostError::Closed)
        }
    }

    fn post_malformed(
        &self,
        caller: &mut WordCaller,
        length: u32,
        header: u32,
    ) -> Result<(), PostError>
        requires identity { word_caller_identity caller.old ≡ word_channel_identity self.now }
        ensures identity { word_caller_identity caller.new ≡ word_caller_identity caller.old }
        ensures well_formed { (result ≡ Err PostError.WellFormed) ↔ (is_well_formed length ≡ true) }
        ensures unchanged { is_well_formed length ≡ true →
            word_caller_view caller.new ≡ word_caller_view caller.old }
        ensures posts { is_well_formed length ≡ false
            → Posts false (word_caller_view caller.old) (Malformed length header) result
            (word_caller_view caller.new) }
        ensures never_full { result ≢ Err PostError.Full }
        ensures withdrawn_stays { IsWithdrawn caller.old → IsWithdrawn caller.new }
        ensures draft { HasNoDraft caller.old →
            (result ≡ Err PostError.Closed → knows_close (word_caller_view caller.old) ≡ true) →
            HasNoDraft caller.new }
        ensures steps { word_caller_steps caller.old (call_post (Malformed length header) result)
            caller.new }
    {
        if is_well_formed(length) {
            return Err(PostError::WellFormed);
        }
        caller.posts = caller.posts.wrapping_add(1);
        caller.may_post()?;
        store_frame_word(&self.table, &mut caller.seat, LENGTH, length);
        store_frame_word(&self.table, &mut caller.seat, HEADER, header);
        if hand_over(&self.table, &mut caller.seat, caller.free) {
            caller.phase = Phase::Waiting;
            Ok(())
        } else {
            caller.told = true;
            Err(PostError::Closed)
        }
    }

    fn outstanding(caller: &WordCaller) -> bool {
        matches!(caller.phase, Phase::Waiting)
    }

    fn collect(&self, caller: &mut WordCaller) -> Collected
        requires identity { word_caller_identity caller.old ≡ word_channel_identity self.now }
        ensures identity { word_caller_identity caller.new ≡ word_caller_identity caller.old }
        ensures collects { Collects (word_caller_view caller.old) result
            (word_caller_view caller.new) }
        ensures known { knows_close (word_caller_view caller.old) ≡ true →
            ¬ IsOutstanding (word_caller_view caller.old) → result ≡ Collected.Closed }
        ensures nothing { WhyNothing caller.old result caller.new }
        ensures withdrawn_stays { IsWithdrawn caller.old → IsWithdrawn caller.new }
        ensures draft { HasNoDraft caller.old → HasNoDraft caller.new }
        ensures steps { word_caller_steps caller.old (call_collect result) caller.new }
    {
        let mut answer = Answer::Released;
        let looked = self.collect_into(caller, &mut answer);
        Collected::of(looked, answer)
    }

    fn collect_into(&self, caller: &mut WordCaller, answer: &mut Answer) -> Looked
        requires identity { word_caller_identity caller.old ≡ word_channel_identity self.now }
        ensures identity { word_caller_identity caller.new ≡ word_caller_identity caller.old }
        ensures collects { Collects (word_caller_view caller.old) (collected_by result answer.new)
            (word_caller_view caller.new) }
        ensures stays { ¬ (result ≡ Looked.Got) → answer.new ≡ answer.old }
        ensures known { knows_close (word_caller_view caller.old) ≡ true →
            ¬ IsOutstanding (word_caller_view caller.old) → result ≡ Looked.Closed }
        ensures nothing { WhyNothing caller.old (collected_by result answer.new) caller.new }
        ensures withdrawn_stays { IsWithdrawn caller.old → IsWithdrawn caller.new }
        ensures draft { HasNoDraft caller.old → HasNoDraft caller.new }
        ensures steps { word_caller_steps caller.old
            (call_collect (collected_by result answer.new)) caller.new }
    {
        caller.collects = caller.collects.wrapping_add(1);
        let Phase::Waiting = caller.phase else {
            if caller.closed || caller.told {
                return Looked::Closed;
            }
            let seen = look(&self.table, &mut caller.seat);
            caller.told = told_after(caller.closed, caller.told, seen);
            return if caller.told {
                Looked::Closed
            } else {
                Looked::Nothing
            };
        };
        let status = look(&self.table, &mut caller.seat);
        if is_free(status) {
            caller.phase = Phase::Idle;
            caller.free = without_closed(status);
            read_answer(&self.table, &mut caller.seat, caller.free, answer);
            Looked::Got
        } else if status == CLOSED + POSTED {
            caller.told = told_after(caller.closed, caller.told, status);
            caller.phase = Phase::GivenUp;
            Looked::Closed
        } else {
            Looked::Nothing
        }
    }

    fn take(&self, callee: &mut WordCallee) -> Option<Frame>
        requires identity { word_callee_identity callee.old ≡ word_channel_identity self.now }
        ensures identity { word_callee_identity callee.new ≡ word_callee_identity callee.old }
        ensures takes { Takes (word_callee_view callee.old) result (word_callee_view callee.new) }
        ensures none { WhyNone callee.old result callee.new }
        ensures steps { word_callee_steps callee.old (call_take result) callee.new }
    {
        let mut frame = Frame::Malformed {
            length: 0,
            header: 0,
        };
        self.take_into(callee, &mut frame).then_some(frame)
    }

    fn take_into(&self, callee: &mut WordCallee, frame: &mut Frame) -> bool
        requires identity { word_callee_identity callee.old ≡ word_channel_identity self.now }
        ensures identity { word_callee_identity callee.new ≡ word_callee_identity callee.old }
        ensures takes { Takes (word_callee_view callee.old) (frame_if result frame.new)
            (word_callee_view callee.new) }
        ensures stays { result ≡ false → frame.new ≡ frame.old }
        ensures none { WhyNone callee.old (frame_if result frame.new) callee.new }
        ensures steps { word_callee_steps callee.old (call_take (frame_if result frame.new))
            callee.new }
    {
        callee.takes = callee.takes.wrapping_add(1);
        if callee.owes | callee.closed | callee.told {
            return false;
        }
        let found = take_over(&self.table, &mut callee.seat);
        if found != POSTED {
            callee.told = told_after(callee.closed, callee.told, found);
            return false;
        }
        callee.owes = true;
        read_frame(&self.table, &mut callee.seat, frame);
        true
    }

    fn owes(callee: &WordCallee) -> bool {
        callee.owes
    }

    fn answer(&self, callee: &mut WordCallee, answer: &Answer) {
        let status = match answer {
            Answer::Reply(message) => return self.reply(callee, message),
            Answer::Released => RELEASED,
            Answer::ChannelError => CHANNEL_ERROR,
        };
        hand_back(&self.table, &mut callee.seat, status);
        callee.owes = false;
    }

    fn reply(&self, callee: &mut WordCallee, message: &Message) {
        write_response(&self.table, &mut callee.seat, message);
        hand_back(&self.table, &mut callee.seat, FREE);
        callee.owes = false;
    }

    fn close_caller(&self, caller: &mut WordCaller) -> Result<Closing, CloseError>
        requires identity { word_caller_identity caller.old ≡ word_channel_identity self.now }
        ensures identity { word_caller_identity caller.new ≡ word_caller_identity caller.old }
        ensures closes { ClosesCaller (word_caller_view caller.old) result
            (word_caller_view caller.new) }
        ensures shows { CloseShows caller.new result }
        ensures withdrawn_stays { IsWithdrawn caller.old → IsWithdrawn caller.new }
        ensures draft { HasNoDraft caller.old → HasNoDraft caller.new }
        ensures steps { word_caller_steps caller.old (call_close result) caller.new }
    {
        let Phase::Waiting = caller.phase else {
            if !caller.closed {
                set_caller_closed(&self.table, &mut caller.seat, CLOSED);
                caller.closed = true;
            }
            return Ok(Closing::Idle);
        };
        let found = withdraw(&self.table, &mut caller.seat);
        if found == TAKEN {
            return Err(CloseError::InService);
        }
        if is_free(found) {
            return Err(CloseError::ReplyWaiting);
        }
        if found != POSTED {
            set_caller_closed(&self.table, &mut caller.seat, CLOSED + FREE);
        }
        caller.phase = Phase::Withdrawn;
        caller.closed = true;
        Ok(Closing::Withdrawn)
    }

    fn close_callee(&self, callee: &mut WordCallee) -> Result<(), CloseError> {
        if callee.owes {
            return Err(CloseError::InService);
        }
        if !callee.closed {
            set_callee_closed(&self.table, &mut callee.seat);
            callee.closed = true;
        }
        Ok(())
    }

    fn gather(self, caller: WordCaller, callee: WordCallee) -> WordImage
        requires caller { word_caller_identity caller ≡ word_channel_identity self }
        requires callee { word_callee_identity callee ≡ word_channel_identity self }
        ensures agree { Agree (word_caller_view caller) (word_callee_view callee) }
        ensures closed { Closed (word_caller_view caller) (word_callee_view callee) }
        ensures rule { Rule (image_words result) (caller_half caller) (callee_half callee) }
        ensures area { StandsAtEnd (caller_half caller).state (callee_half callee).state
            (image_area result) }
    {
        let words = self.take_apart(caller, callee);
        WordImage { words }
    }
}
