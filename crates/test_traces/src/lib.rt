//! Tests of traces: what is written of a kernel's journal, which lines tell something, and what the
//! check of a text answers.
#![tactic(auto)]

#[cfg(test)]
mod acts;
#[cfg(test)]
mod checked;
#[cfg(test)]
mod lines;
#[cfg(test)]
mod sink;
#[cfg(test)]
mod written;
