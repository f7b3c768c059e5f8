//! Tests of editor calls, of reports, and of what the two threads of an update share: calls in and out of order, printed lines, reports that are
//! refused, and calls and a refusal that pass over a link and a notice, on one thread and between two.
#![tactic(auto)]

#[cfg(test)]
mod calls;
#[cfg(test)]
mod links;
#[cfg(test)]
mod notices;
#[cfg(test)]
mod order;
#[cfg(test)]
mod printing;
#[cfg(test)]
mod reporting;
#[cfg(test)]
mod threads;
#[cfg(test)]
mod words;
