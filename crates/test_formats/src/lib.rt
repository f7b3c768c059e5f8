//! Tests of formats. Of the protocol: items in pieces of several sizes, recorded and malformed; what servers answer; URLs; what a client asks a server; and the
//! commands that the calls of an edit are, with texts of their own and with texts of a file. Of database files that are written: `images`.
#![tactic(auto)]

#[cfg(test)]
mod answers;
#[cfg(test)]
mod asked;
#[cfg(test)]
mod calls;
#[cfg(test)]
mod images;
#[cfg(test)]
mod items;
#[cfg(test)]
mod large;
#[cfg(test)]
mod stand_ins;
#[cfg(test)]
mod urls;
