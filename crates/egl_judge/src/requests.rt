//! The words of the program.
ghost use Rattle.std.specs.Prelude.{◌≡◌, ◌≤◌, IfSome};
ghost use Rattle.egl_judge.specs.Requests.{explained_by, explained_only, is_explain, request_of, step_of};

use egl_calls::Text;
use trace_reader::numerals::numeral;

/// How far a component of a pixel may be from ours at most.
const LARGEST_STEP: u64 = 255;

/// What is asked for: by how many steps a component of a pixel may differ, and whether what is found is told to people.
#[derive(Clone, Copy, Debug, PartialEq, Eq, Drop)]
pub struct Request {
    pub delta: u32,
    pub explained: bool,
}

fn step_of(word: &[u8]) -> Option<u32>
    ensures value { result ≡ step_of word.now }
    ensures small { IfSome result (λ n. n ≤ 255) }
{
    match numeral(LARGEST_STEP, word) {
        Some(n) => Some(n as u32),
        None => None,
    }
}

fn is_explain(word: &[u8]) -> bool
    ensures { result ≡ is_explain word.now }
{
    word == b"explain".as_slice()
}

fn explained_only(word: &[u8]) -> Option<Request>
    ensures value { result ≡ explained_only word.now }
    ensures small { IfSome result (λ q. q.delta ≤ 255) }
{
    if is_explain(word) {
        Some(Request {
            delta: 0,
            explained: true,
        })
    } else {
        None
    }
}

fn explained_by(explained: bool, step: Option<u32>) -> Option<Request>
    requires { IfSome step (λ n. n ≤ 255) }
    ensures value { result ≡ explained_by explained step }
    ensures small { IfSome result (λ q. q.delta ≤ 255) }
{
    if !explained {
        return None;
    }
    match step {
        Some(delta) => Some(Request {
            delta,
            explained: true,
        }),
        None => None,
    }
}

/// What words ask for.
#[tactic(auto, unfolding(crate::specs::Requests::request_of))]
pub fn request_of(words: &[Text]) -> Option<Request>
    ensures value { result ≡ request_of words.now }
    ensures small { IfSome result (λ q. q.delta ≤ 255) }
{
    match words {
        [] => Some(Request {
            delta: 0,
            explained: false,
        }),
        [word] => match step_of(word.as_slice()) {
            Some(delta) => Some(Request {
                delta,
                explained: false,
            }),
            None => explained_only(word.as_slice()),
        },
        [step, word] => explained_by(is_explain(word.as_slice()), step_of(step.as_slice())),
        _ => None,
    }
}
