//! Tests of what is read: the forms of calls, by the reader of traces, scenes and logs, what is refused of them, and every outcome of a short trace. All of it is tests.
#![tactic(auto)]

#[cfg(test)]
mod call_forms;
#[cfg(test)]
mod judged;
#[cfg(test)]
mod log_read;
#[cfg(test)]
mod log_refused;
#[cfg(test)]
mod log_texts;
#[cfg(test)]
mod outcomes;
#[cfg(test)]
mod read;
#[cfg(test)]
mod refused;
#[cfg(test)]
mod texts;
