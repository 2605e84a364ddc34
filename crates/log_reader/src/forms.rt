//! Which calls a log has, and the forms of their arguments.
ghost use Rattle.std.specs.Prelude.{◌≡◌, IfOk};
ghost use Rattle.log_reader.specs.Forms.{is_config, is_in_logs, needs_no_answer, or_variable, takes_config, with_variable};

use call_table::Form;
use egl_calls::{Kind, NoMemory, OwnKind};
use std::alloc::Global;

/// Whether a log may have a call of this kind: none looks into our driver.
pub fn is_in_logs(kind: Kind) -> bool
    ensures { result ≡ is_in_logs kind }
{
    match kind {
        Kind::Own(OwnKind::Census | OwnKind::ReadFront | OwnKind::ReadBuffer) => false,
        _ => true,
    }
}

/// Whether a call only tells other threads something, and needs no answer.
pub fn needs_no_answer(kind: Kind) -> bool
    ensures { result ≡ needs_no_answer kind }
{
    matches!(kind, Kind::Own(OwnKind::Post | OwnKind::Await))
}

fn is_config(form: Form) -> bool
    ensures { result ≡ is_config form }
{
    match form {
        Form::Config => true,
        _ => false,
    }
}

/// Whether a call with these forms names a config behind its display.
pub fn takes_config(forms: &[Form]) -> bool
    ensures { result ≡ takes_config forms.now }
{
    match forms {
        [_, form, ..] => is_config(*form),
        _ => false,
    }
}

fn or_variable(form: Form) -> Form
    ensures { result ≡ or_variable form }
{
    match form {
        Form::Config => Form::NumberOrVariable,
        _ => form,
    }
}

/// These forms, where a variable may stand for a config behind the first.
pub fn with_variable(alloc: Global, forms: &[Form]) -> Result<Vec<Form>, NoMemory>
    ensures { IfOk result (λ v. v.items ≡ with_variable forms.now) }
{
    let Ok(mut own) = Vec::from_slice(alloc, forms) else {
        return Err(NoMemory);
    };
    if forms.len() >= 2 {
        own[1] = or_variable(forms[1]);
    }
    Ok(own)
}
