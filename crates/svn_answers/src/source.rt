//! The words that name what is read.
ghost use Rattle.std.specs.Prelude.{◌≡◌, Some};
ghost use Rattle.std.specs.Char.{is_ascii_control};
ghost use Rattle.std.specs.List.{list_any};
ghost use Rattle.svn_answers.specs.Lines.{is_standard, source_text};

use std::fmt;
use svn_editor::Word;

/// The word that names what is read: that of a file, or `-` for standard input.
#[derive(Clone, Copy, Debug)]
pub struct Source<'a>(pub &'a str);

impl Source<'_> {
    /// Whether it is standard input.
    pub fn is_standard(self) -> bool
        ensures { result ≡ is_standard self.entry.0.now }
    {
        self.0 == "-"
    }

    // Whether it has a control character.
    fn has_control(self) -> bool
        ensures { result ≡ list_any is_ascii_control self.entry.0.now }
    {
        self.0.as_bytes().iter().any(|byte| byte.is_ascii_control())
    }
}

/// It is printed on one line: a name with control characters as a word of a script.
impl fmt::Display for Source<'_> {
    ghost output = { λ s. Some (source_text s.0.now) };

    fn fmt<W: fmt::Write>(&self, f: &mut fmt::Formatter<W>) -> fmt::Result {
        if self.is_standard() {
            return f.write_str("standard input");
        }
        if self.has_control() {
            let word = Word(self.0.as_bytes());
            return write!(f, "{word}");
        }
        f.write_str(self.0)
    }
}
