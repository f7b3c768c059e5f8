//! The names, texts and properties that random histories are made of.

/// Names in byte order, each with its word in a script. Some begin with others, and go on with a byte that comes
/// before the slash.
pub(crate) const NAMES: [(&str, &str); 10] = [
    ("%", "%25"),
    ("a", "a"),
    ("a ", "a%20"),
    ("a-", "a-"),
    ("a.b", "a.b"),
    ("a0", "a0"),
    ("b", "b"),
    ("c", "c"),
    ("d", "d"),
    ("é", "%C3%A9"),
];

/// Texts of files and values of properties, each with its word. The last is too long to lie in a value itself.
const TEXTS: [(&str, &str); 5] = [
    ("", "\"\""),
    ("a", "a"),
    ("abc", "abc"),
    ("a b", "a%20b"),
    (
        "abcdefghijklmnopqrstuvwxyz0123456789",
        "abcdefghijklmnopqrstuvwxyz0123456789",
    ),
];

/// How many texts there are.
pub(crate) const TEXT_COUNT: u64 = 5;

/// Names of properties, in byte order. They are printed as they are.
pub(crate) const PROP_NAMES: [&str; 3] = ["p", "q:x", "svn:eol-style"];

/// A text or a value, by its place in the table.
#[derive(Clone, Copy, PartialEq, Eq)]
pub(crate) struct Word(u8);

/// No bytes: also what a directory has as its text.
pub(crate) const NO_TEXT: Word = Word(0);

impl Word {
    /// The text of a place in the table, which begins again after its last.
    pub(crate) fn nth(place: u64) -> Word {
        Word((place % TEXT_COUNT) as u8)
    }

    /// Its bytes.
    pub(crate) fn raw(self) -> &'static str {
        match TEXTS.get(usize::from(self.0)) {
            Some((raw, _printed)) => raw,
            None => "",
        }
    }

    /// Its word.
    pub(crate) fn printed(self) -> &'static str {
        match TEXTS.get(usize::from(self.0)) {
            Some((_raw, printed)) => printed,
            None => "",
        }
    }
}
