//! What agents got, as lines of a run's output have it.
ghost use Rattle.scmi_board.specs.Items.{items_left};
ghost use Rattle.scmi_board.specs.LineError.{Gives};
ghost use Rattle.scmi_check.specs.Shown.{first_words, seen_at, seen_behind};

use crate::area_shown::{a2p_shown, p2a_shown, read_area};
use crate::shown::Shown;
use scmi_board::{Items, LineError};
use scmi_codec::{Answer, Header, Message};
use scmi_text::{HeldRow, WordRow, form_in, read_agent, read_payload};

/// The form of a line of what an agent got.
#[derive(Clone, Copy)]
pub(crate) enum SeenForm {
    Reply,
    Released,
    Error,
    P2a,
    Area,
    P2aArea,
}

macro_rules! rows {
    ($($word:literal $form:ident;)*) => {
        [$(WordRow { word: $word, form: SeenForm::$form }),*]
    };
}

/// The words after the agent's number in such lines.
pub(crate) const SEEN_FORMS: [HeldRow<SeenForm>; 6] = rows![
    b"reply" Reply;
    b"released" Released;
    b"error" Error;
    b"p2a" P2a;
    b"area" Area;
    b"p2a-area" P2aArea;
];

/// What an agent of the board, which has this many, got.
#[tactic(auto, unfolding(crate::specs::Shown::seen_at))]
pub(crate) fn read_seen(items: &mut Items<'_>, agents: u32) -> Result<Shown, LineError>
    ensures { Gives (λ shown. shown) result (seen_at agents (items_left items.old)) }
{
    let agent = read_agent(items, agents)?;
    let form = form_in(&SEEN_FORMS, items.next_item()?)?;
    read_seen_of(form, agent, items)
}

/// What follows the word.
#[tactic(auto, unfolding(crate::specs::Shown::seen_behind))]
fn read_seen_of(form: SeenForm, agent: u32, items: &mut Items<'_>) -> Result<Shown, LineError>
    ensures { Gives (λ shown. shown) result (seen_behind form agent (items_left items.old)) }
{
    match form {
        SeenForm::Reply => {
            let answer = Answer::Reply(read_words(items)?);
            Ok(Shown::Got { agent, answer })
        }
        SeenForm::Released => {
            items.finish()?;
            Ok(Shown::Got {
                agent,
                answer: Answer::Released,
            })
        }
        SeenForm::Error => {
            items.finish()?;
            Ok(Shown::Got {
                agent,
                answer: Answer::ChannelError,
            })
        }
        SeenForm::P2a => {
            let message = read_words(items)?;
            Ok(Shown::Took { agent, message })
        }
        SeenForm::Area => a2p_shown(agent, read_area(items)?),
        SeenForm::P2aArea => p2a_shown(agent, read_area(items)?),
    }
}

/// A message as its header word and its payload words.
#[tactic(auto, unfolding(crate::specs::Shown::first_words))]
fn read_words(items: &mut Items<'_>) -> Result<Message, LineError>
    ensures { Gives (λ message. message) result (first_words (items_left items.old)) }
{
    let header = items.next_word()?;
    let payload = read_payload(items)?;
    Ok(Message {
        header: Header::unpack(header),
        payload,
    })
}
