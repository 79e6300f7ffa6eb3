//! The payload words of a message.
ghost use Rattle.std.specs.Prelude.{◌≡◌, ◌≤◌, ◌∷◌, [], length};
ghost use Rattle.scmi_codec.specs.Payload.{begins_with_success};
ghost use Rattle.scmi_codec.specs.Status.{status_word};
ghost use Rattle.scmi_codec.specs.declared.payload.TheConstants.{PAYLOAD_WORDS};

use crate::status::Status;
use arrayvec::ArrayVec;

/// The most words of a payload (own).
pub const PAYLOAD_WORDS: usize = 64;

/// The status word of a successful response.
pub const SUCCESS: u32 = 0;

/// What a payload is filled up with before its words are written. Its bytes differ: clang makes a
/// loop that writes equal bytes a call of `memset`, which firmware does byte by byte.
const FILLER: u32 = 1;

/// The payload words of a message.
pub type Payload = ArrayVec<u32, PAYLOAD_WORDS>;

/// The payload of these words, at most `PAYLOAD_WORDS` of them.
pub fn payload_of(words: &[u32]) -> Payload
    requires { length words.now ≤ PAYLOAD_WORDS }
    ensures { result.items ≡ words.now }
{
    let mut payload = ArrayVec::new();
    let _ = payload.try_extend_from_slice(words);
    payload
}

/// The payload of an error response: the status word alone (own).
pub fn refusal(status: Status) -> Payload
    ensures { result.items ≡ status_word status ∷ [] }
{
    payload_of(&[status.word()])
}

/// Makes a payload these words, at most `PAYLOAD_WORDS` of them, in place.
#[inline]
pub fn set_payload(payload: &mut Payload, words: &[u32])
    requires { length words.now ≤ PAYLOAD_WORDS }
    ensures { payload.new.items ≡ words.now }
{
    resize(payload, words.len());
    copy_words(payload.as_mut_slice(), words);
}

/// Gives a payload this many words, of any value.
#[inline]
pub fn resize(payload: &mut Payload, count: usize)
    requires { count ≤ PAYLOAD_WORDS }
    ensures { length payload.new.items ≡ count }
{
    // A payload is mostly written again with as many words as it has, and none is cleared then.
    if payload.len() != count {
        refit(payload, count);
    }
}

/// Gives a payload another number of words.
#[inline(never)]
fn refit(payload: &mut Payload, count: usize)
    requires { count ≤ PAYLOAD_WORDS }
    ensures { length payload.new.items ≡ count }
{
    // Most are a few words more or less, which take no call that clears.
    while payload.len() > count {
        let _ = payload.pop();
    }
    while payload.len() < count {
        payload.push(FILLER);
    }
}

/// Writes words over as many others.
#[inline]
fn copy_words(own: &mut [u32], words: &[u32])
    requires { length own.old ≡ length words.now }
    ensures { own.new ≡ words.now }
{
    for i in 0..words.len() {
        own[i] = words[i];
    }
}

/// Makes a payload that of an error response, in place: the status word alone (own).
// Out of line, since it is called at many places.
#[inline(never)]
pub fn set_refusal(payload: &mut Payload, status: Status)
    ensures { payload.new.items ≡ status_word status ∷ [] }
{
    set_payload(payload, &[status.word()]);
}

/// Whether a response's payload begins with the status SUCCESS.
pub fn is_success(payload: &Payload) -> bool
    ensures { result ≡ begins_with_success payload.now.items }
{
    match payload.as_slice() {
        [status, ..] => *status == SUCCESS,
        [] => false,
    }
}
