//! The calls, a row for each: the word that names it, its arguments, what refuses it and with which error, its role, and what it answers.
//!
//! Code and definitions read the same tables: what a row says of a call stands nowhere else. Its tests are in `reader_check`.
//!
//! It knows no state: what a condition is of the state `call_rules` says.
#![tactic(auto)]

mod answers;
mod egl_conditions;
mod egl_table;
mod forms;
mod gl_conditions;
mod gl_table;
pub mod laws;
mod names;
mod own_table;
mod roles;

pub use answers::AnswerSort;
pub use egl_conditions::EglCondition;
pub use egl_table::{EGL_CALLS, EglRow, egl_answers, egl_role, egl_rules};
pub use forms::Form;
pub use gl_conditions::GlCondition;
pub use gl_table::{GL_CALLS, GlRow, gl_answers, gl_role, gl_rules};
pub use names::call_name;
pub use own_table::{OWN_CALLS, OwnRow, own_rules};
pub use roles::Role;
