// Rows of scripts, by their subjects.
pub(crate) mod drives;
pub(crate) mod forms;
pub(crate) mod links;
pub(crate) mod refusals;
pub(crate) mod stops;
pub(crate) mod updates;
