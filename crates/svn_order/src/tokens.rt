//! What is remembered of the tokens of an edit, in the order in which they were given.
ghost use Rattle.std.specs.Prelude.{◌≡◌, ◌++◌, ◌∷◌, [], OnOk};
ghost use Rattle.svn_editor.specs.Calls.{kind_eq};
ghost use Rattle.std.specs.List.{list_any};
ghost use Rattle.svn_order.specs.Tokens.{is_of_kind_at, is_closed_at, has_text_at, is_unclosed_file, token_of, with_closed, with_text};

use std::alloc::AllocError;
use svn_editor::Token;
use svn_types::Kind;

/// What is remembered of a token.
#[derive(Clone, Copy, Debug)]
pub struct GivenToken {
    /// What it was given to.
    pub kind: Kind,
    /// Whether that was closed.
    pub is_closed: bool,
    /// Whether that was given its text.
    pub has_text: bool,
}

fn same_kind(one: Kind, other: Kind) -> bool
    ensures { result ≡ kind_eq one other }
{
    match one {
        Kind::File => matches!(other, Kind::File),
        Kind::Directory => matches!(other, Kind::Directory),
    }
}

/// Whether the token was given, and to a node of this kind.
pub fn is_of_kind(tokens: &[GivenToken], token: Token, kind: Kind) -> bool
    ensures { result ≡ is_of_kind_at tokens.now token kind }
{
    match tokens.get(token.0 as usize) {
        Some(given) => same_kind(given.kind, kind),
        None => false,
    }
}

/// Whether the token was given, and what it was given to was closed.
pub fn is_closed(tokens: &[GivenToken], token: Token) -> bool
    ensures { result ≡ is_closed_at tokens.now token }
{
    match tokens.get(token.0 as usize) {
        Some(given) => given.is_closed,
        None => false,
    }
}

/// Whether the token was given, and what it was given to has its text.
pub fn has_text(tokens: &[GivenToken], token: Token) -> bool
    ensures { result ≡ has_text_at tokens.now token }
{
    match tokens.get(token.0 as usize) {
        Some(given) => given.has_text,
        None => false,
    }
}

// Whether a token was given to a file that isn't closed.
fn is_unclosed_file(token: &GivenToken) -> bool
    ensures { result ≡ is_unclosed_file token.now }
{
    same_kind(token.kind, Kind::File) && !token.is_closed
}

/// Whether one of the tokens was given to a file that isn't closed.
pub fn has_unclosed_file(tokens: &[GivenToken]) -> bool
    ensures { result ≡ list_any is_unclosed_file tokens.now }
{
    tokens.iter().any(is_unclosed_file)
}

/// Gives the next token, to a node of this kind. AllocError if an allocation fails.
pub fn give(tokens: &mut Vec<GivenToken>, kind: Kind) -> Result<(), AllocError>
    ensures { OnOk result (tokens.new.items ≡ tokens.old.items ++ token_of kind ∷ []) }
{
    tokens.push(GivenToken {
        kind,
        is_closed: false,
        has_text: false,
    })?;
    Ok(())
}

/// Notes that what the token was given to was closed.
pub fn close(tokens: &mut Vec<GivenToken>, token: Token)
    ensures { tokens.new.items ≡ with_closed tokens.old.items token }
{
    let place = token.0 as usize;
    if place < tokens.len() {
        tokens[place].is_closed = true;
    }
}

/// Notes that what the token was given to has its text.
pub fn add_text(tokens: &mut Vec<GivenToken>, token: Token)
    ensures { tokens.new.items ≡ with_text tokens.old.items token }
{
    let place = token.0 as usize;
    if place < tokens.len() {
        tokens[place].has_text = true;
    }
}
