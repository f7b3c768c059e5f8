//! What a client asks a server: questions, answers that `svnserve` 1.14.2 gave, and answers that are refused.
mod answers;
mod items;
mod odd;
mod questions;
mod recorded;
mod talks;
mod window;
