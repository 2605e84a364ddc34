//! The lines of calls.
ghost use Rattle.std.specs.Prelude.{◌≡◌, ◌≤◌, ◌++◌, IfOk, OnOk};
ghost use Rattle.std.specs.List.{flat_map};
ghost use Rattle.trace_reader.specs.Arguments.{place_behind};
ghost use Rattle.scene_trace.specs.Lines as values;

use crate::rows::call_forms;
use call_table::{Form, call_name};
use egl_calls::{Bytes, Call, NoMemory, Payload};
use journal_text::texts::{put_byte, put_number, put_text};
use journal_text::{put_hex, put_list};

#[tactic(auto, unfolding(crate::specs::Lines::payload_text))]
fn put_payload(out: &mut Bytes, bytes: &Option<Payload>) -> Result<(), NoMemory>
    ensures { OnOk result (out.new ≡ out.old ++ values.payload_text bytes.now) }
{
    match bytes {
        Some(payload) => {
            put_byte(out, b'#')?;
            put_hex(out, payload.bytes().as_slice())
        }
        None => put_byte(out, b'-'),
    }
}

/// An argument of this form, whose number has this place, behind a space. It answers the place behind it.
fn put_argument(out: &mut Bytes, place: usize, form: Form, call: &Call) -> Result<usize, NoMemory>
    requires { place_behind place form ≤ 8 }
    ensures text { OnOk result (out.new ≡ out.old ++ values.spaced (values.argument_word place form call.now)) }
    ensures behind { IfOk result (λ p. p ≡ place_behind place form) }
{
    put_byte(out, b' ')?;
    match form {
        Form::Number | Form::Config | Form::NumberOrVariable | Form::PostNumber | Form::Timeout => {
            put_number(out, call.args[place])?;
            Ok(place + 1)
        }
        Form::AttributeList | Form::NumberList | Form::NameList => {
            put_list(out, call.list.as_slice())?;
            Ok(place)
        }
        Form::Payload => {
            put_payload(out, &call.bytes)?;
            Ok(place)
        }
    }
}

/// The arguments of a call that has these forms of them.
fn put_arguments(out: &mut Bytes, forms: &[Form], call: &Call) -> Result<(), NoMemory>
    requires { values.place_behind_all 0 forms.now ≤ 8 }
    ensures { OnOk result (out.new ≡ out.old ++ flat_map values.spaced (values.argument_words 0 forms.now call.now)) }
{
    let mut place = 0;
    'each: for form in forms {
        place = put_argument(out, place, *form, call)?;
    }
    Ok(())
}

/// The line of a call of thread 0.
#[tactic(auto, unfolding(crate::specs::Lines::call_line))]
pub fn put_line(out: &mut Bytes, call: &Call) -> Result<(), NoMemory>
    ensures { OnOk result (out.new ≡ out.old ++ values.call_line call.now) }
{
    put_text(out, "0 ")?;
    put_text(out, call_name(call.kind))?;
    put_arguments(out, call_forms(call.kind), call)?;
    put_byte(out, b'\n')
}
