//! The fields of `log`.
ghost use Rattle.std.specs.Prelude.{◌≡◌, ◌≤◌, length, option_map};
ghost use Rattle.std.specs.List.{prefix_len};
ghost use Rattle.svn_commands.specs.Asking.{names_as, wanted_as};
ghost use Rattle.svn_commands.specs.LogFields.{is_text_token, text_list, limit_of, names_of, or_usual, wanted_of, log_fields};

use svn_wire::{Token, bool_field, list_field, number_field, optional_number, word_field};

/// The properties of revisions that are wanted.
#[derive(Clone, Copy)]
pub(crate) enum Names<'a> {
    /// Author, date and message.
    Usual,
    /// All.
    Every,
    /// Those of these names.
    Named(&'a [Token]),
}

/// What is wanted of which revisions.
#[derive(Clone, Copy)]
pub(crate) struct Wanted<'a> {
    /// Whether the paths that they changed are.
    pub(crate) changes: bool,
    /// Whether copies aren't followed.
    pub(crate) strict: bool,
    /// How many there are at most; 0: all.
    pub(crate) limit: u64,
    /// Which of their properties are.
    pub(crate) names: Names<'a>,
}

/// The fields of `log`.
#[derive(Clone, Copy)]
pub(crate) struct LogFields<'a> {
    /// Paths, as strings.
    pub(crate) paths: &'a [Token],
    /// The first revision that is wanted.
    pub(crate) start: Option<u64>,
    /// The last.
    pub(crate) end: Option<u64>,
    /// What is wanted.
    pub(crate) wanted: Wanted<'a>,
}

fn is_text_token(token: &Token) -> bool
    ensures { result ≡ is_text_token token.now }
{
    matches!(token, Token::Text(_))
}

// How many tokens at the front are strings.
fn texts_len(tokens: &[Token]) -> usize
    ensures len { result ≡ prefix_len is_text_token tokens.now }
    ensures within { result ≤ length tokens.now }
{
    let mut count = 0;
    let mut rest = tokens;
    'texts: while let Some((token, after)) = rest.split_first() {
        if !is_text_token(token) {
            return count;
        }
        count += 1;
        rest = after;
    }
    count
}

// The strings of the list at the front, which has nothing else, and what is after it.
fn text_list(tokens: &[Token]) -> Option<(&[Token], &[Token])>
    ensures { option_map (λ r. (r.0.now, r.1.now)) result ≡ text_list tokens.now }
{
    let tokens = list_field(tokens)?;
    let (texts, rest) = tokens.split_at(texts_len(tokens));
    match rest {
        [Token::Close, rest @ ..] => Some((texts, rest)),
        _ => None,
    }
}

// The number at the front, or 0, and what is after it.
fn limit_of(fields: &[Token]) -> (u64, &[Token])
    ensures { (result.0, result.1.now) ≡ limit_of fields.now }
{
    match number_field(fields) {
        Some(limit) => limit,
        None => (0, fields),
    }
}

// Which properties of revisions are wanted, if the fields say so.
#[tactic(auto, unfolding(crate::specs::LogFields::names_of))]
fn names_of(fields: &[Token]) -> Option<Names<'_>>
    ensures { option_map names_as result ≡ names_of fields.now }
{
    let (_merged, fields) = bool_field(fields)?;
    let (word, fields) = word_field(fields)?;
    if word == b"all-revprops".as_slice() {
        return Some(Names::Every);
    }
    if word != b"revprops".as_slice() {
        return None;
    }
    let (names, _more) = text_list(fields)?;
    Some(Names::Named(names))
}

fn or_usual(names: Option<Names<'_>>) -> Names<'_>
    ensures { names_as result ≡ or_usual (option_map names_as names.entry) }
{
    match names {
        Some(names) => names,
        None => Names::Usual,
    }
}

// What is wanted of which revisions.
#[tactic(auto, unfolding(crate::specs::LogFields::wanted_of))]
fn wanted_of(fields: &[Token]) -> Option<Wanted<'_>>
    ensures { option_map wanted_as result ≡ wanted_of fields.now }
{
    let (changes, fields) = bool_field(fields)?;
    let (strict, fields) = bool_field(fields)?;
    let (limit, fields) = limit_of(fields);
    Some(Wanted {
        changes,
        strict,
        limit,
        names: or_usual(names_of(fields)),
    })
}

/// The fields of `log`: paths, two revisions or none, and what is wanted.
#[tactic(auto, unfolding(crate::specs::LogFields::log_fields))]
pub(crate) fn log_fields(fields: &[Token]) -> Option<LogFields<'_>>
    ensures { option_map (λ r. (r.paths.now, r.start, r.end, wanted_as r.wanted)) result ≡ log_fields fields.now }
{
    let (paths, fields) = text_list(fields)?;
    let (start, fields) = optional_number(fields)?;
    let (end, fields) = optional_number(fields)?;
    let wanted = wanted_of(fields)?;
    Some(LogFields {
        paths,
        start,
        end,
        wanted,
    })
}
