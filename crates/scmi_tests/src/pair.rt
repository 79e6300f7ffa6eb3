//! A channel of any kind with its two endpoints, on one thread.
ghost use Rattle.std.specs.Prelude.{◌≡◌};

use scmi_codec::{Answer, Frame};
use scmi_link::{Channel, CloseError, Closing, Collected, LinkError, PostError};
use std::alloc::Global;

/// A call of a channel.
#[derive(Clone, Copy, Debug)]
pub enum Call {
    Post,
    Take,
    Answer,
    Collect,
    CloseCaller,
    CloseCallee,
}

/// What a call answered.
#[derive(Clone, Copy, PartialEq, Debug)]
pub enum Said {
    /// It did what it does.
    Ok,
    /// What was posted, or its answer.
    Got,
    /// Another frame, answer or error.
    Other,
    /// Nothing was taken or collected.
    Nothing,
    Closed,
    Outstanding,
    Idle,
    Withdrawn,
    InService,
    ReplyWaiting,
}

/// A channel, its two endpoints, what is posted and how it is answered.
#[derive(Drop)]
pub struct Pair<C: Channel> {
    channel: C,
    caller: C::Caller,
    callee: C::Callee,
    frame: Frame,
    answer: Answer,
    ghost of_caller: { C.caller_identity caller ≡ C.identity channel },
    ghost of_callee: { C.callee_identity callee ≡ C.identity channel },
}

impl<C: Channel> Pair<C> {
    pub fn make(alloc: Global, frame: Frame, answer: Answer) -> Result<Pair<C>, LinkError> {
        let (channel, caller, callee) = C::make(alloc)?;
        Ok(Pair {
            channel,
            caller,
            callee,
            frame,
            answer,
        })
    }

    pub fn call(&mut self, call: Call) -> Said {
        match call {
            Call::Post => said_of_post(self.post()),
            Call::Take => self.take(),
            Call::Answer => self.answer(),
            Call::Collect => self.collect(),
            Call::CloseCaller => said_of_close(self.channel.close_caller(&mut self.caller)),
            Call::CloseCallee => said_of_end(self.channel.close_callee(&mut self.callee)),
        }
    }

    pub fn gather(self) -> C::Rest {
        let Pair {
            channel,
            caller,
            callee,
            ..
        } = self;
        channel.gather(caller, callee)
    }

    fn post(&mut self) -> Result<(), PostError> {
        match &self.frame {
            Frame::Good(message) => self.channel.post(&mut self.caller, message),
            Frame::Malformed { length, header } => {
                self.channel
                    .post_malformed(&mut self.caller, *length, *header)
            }
        }
    }

    fn take(&mut self) -> Said {
        match self.channel.take(&mut self.callee) {
            Some(frame) if frame == self.frame => Said::Got,
            Some(_) => Said::Other,
            None => Said::Nothing,
        }
    }

    fn answer(&mut self) -> Said {
        if !C::owes(&self.callee) {
            return Said::Nothing;
        }
        self.channel.answer(&mut self.callee, &self.answer);
        Said::Ok
    }

    fn collect(&mut self) -> Said {
        match self.channel.collect(&mut self.caller) {
            Collected::Got(answer) if answer == self.answer => Said::Got,
            Collected::Got(_) => Said::Other,
            Collected::Nothing => Said::Nothing,
            Collected::Closed => Said::Closed,
        }
    }
}

fn said_of_post(posted: Result<(), PostError>) -> Said {
    match posted {
        Ok(()) => Said::Ok,
        Err(PostError::Outstanding) => Said::Outstanding,
        Err(PostError::Closed) => Said::Closed,
        Err(_) => Said::Other,
    }
}

fn said_of_close(closed: Result<Closing, CloseError>) -> Said {
    match closed {
        Ok(Closing::Idle) => Said::Idle,
        Ok(Closing::Withdrawn) => Said::Withdrawn,
        Err(CloseError::InService) => Said::InService,
        Err(CloseError::ReplyWaiting) => Said::ReplyWaiting,
    }
}

fn said_of_end(closed: Result<(), CloseError>) -> Said {
    match closed {
        Ok(()) => Said::Ok,
        Err(CloseError::InService) => Said::InService,
        Err(CloseError::ReplyWaiting) => Said::ReplyWaiting,
    }
}
