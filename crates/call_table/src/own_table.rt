//! The calls of this project.
ghost use Rattle.std.specs.Prelude.{◌≡◌};
ghost use Rattle.call_table.specs.Rows.{own_rules};

use crate::forms::Form;
use crate::gl_conditions::{GlCondition, gl_error};
use egl_calls::{GlError, OwnKind};

/// A call: the word that names it, its kind, the forms of its arguments, a word for each, and the conditions that refuse it with their errors in the order in which they are tried.
pub type OwnRow = (
    &'static str,
    OwnKind,
    &'static [Form],
    &'static [&'static str],
    &'static [(GlCondition, GlError)],
);

/// A call: its kind and its name, its arguments, and what refuses it.
macro_rules! calls {
    ($($kind:ident $name:literal [$($word:literal: $form:ident),*] => [$($condition:ident),* $(,)?];)*) => {
        [$((
            $name,
            OwnKind::$kind,
            &[$(Form::$form),*],
            &[$($word),*],
            &[$((GlCondition::$condition, gl_error!($condition))),*],
        )),*]
    };
}

/// The calls that have a name, in the order of their kinds.
pub static OWN_CALLS: [OwnRow; 5] = calls![
    Post "post" ["N": PostNumber] => [];
    Await "await" ["N": PostNumber] => [];
    Census "census" [] => [];
    ReadFront "readFront" ["window": Number] => [];
    ReadBuffer "readBuffer" ["target": Number, "offset": Number, "size": Number] => [
        NoBufferTarget,
        NegativePart,
        NoBufferBound,
        PartBehindEnd,
    ];
];

/// The conditions that refuse a call, with their errors, in the order in which they are tried. The end of a wait and a `Halt` have none.
pub fn own_rules(kind: OwnKind) -> &'static [(GlCondition, GlError)]
    ensures { result.now ≡ own_rules kind }
{
    match OWN_CALLS.get(kind as usize) {
        Some(row) => row.4,
        None => &[],
    }
}
