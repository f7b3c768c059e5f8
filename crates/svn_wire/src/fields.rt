//! The fields of a tuple, in their order.
ghost use Rattle.std.specs.Prelude.{◌≡◌, ◌≤◌, length, option_map};
ghost use Rattle.std.specs.List.{list_any, prefix_len};
ghost use Rattle.svn_wire.specs.Fields.{number_field, text_field, word_field, as_bool, bool_field, optional_number, list_field, is_word_token, word_list, is_the_word, has_word, command_of, fields_of, set_path_of};

use crate::token::Token;

/// The number at the front, and what is after it.
pub fn number_field(tokens: &[Token]) -> Option<(u64, &[Token])>
    ensures { option_map (λ r. (r.0, r.1.now)) result ≡ number_field tokens.now }
{
    match tokens {
        [Token::Number(number), rest @ ..] => Some((*number, rest)),
        _ => None,
    }
}

/// The string at the front, and what is after it.
pub fn text_field(tokens: &[Token]) -> Option<(&[u8], &[Token])>
    ensures { option_map (λ r. (r.0.now, r.1.now)) result ≡ text_field tokens.now }
{
    match tokens {
        [Token::Text(text), rest @ ..] => Some((text.as_slice(), rest)),
        _ => None,
    }
}

/// The word at the front, and what is after it.
pub fn word_field(tokens: &[Token]) -> Option<(&[u8], &[Token])>
    ensures { option_map (λ r. (r.0.now, r.1.now)) result ≡ word_field tokens.now }
{
    match tokens {
        [Token::Word(word), rest @ ..] => Some((word.as_slice(), rest)),
        _ => None,
    }
}

/// `true` or `false` at the front, and what is after it.
pub fn bool_field(tokens: &[Token]) -> Option<(bool, &[Token])>
    ensures { option_map (λ r. (r.0, r.1.now)) result ≡ bool_field tokens.now }
{
    let (word, rest) = word_field(tokens)?;
    if word == b"true".as_slice() {
        Some((true, rest))
    } else if word == b"false".as_slice() {
        Some((false, rest))
    } else {
        None
    }
}

/// The number in a list of one or none at the front, and what is after it.
pub fn optional_number(tokens: &[Token]) -> Option<(Option<u64>, &[Token])>
    ensures { option_map (λ r. (r.0, r.1.now)) result ≡ optional_number tokens.now }
{
    match tokens {
        [Token::Open, Token::Close, rest @ ..] => Some((None, rest)),
        [Token::Open, Token::Number(number), Token::Close, rest @ ..] => Some((
            Some(*number),
            rest,
        )),
        _ => None,
    }
}

/// What is in the list at the front, with what closes it.
pub fn list_field(tokens: &[Token]) -> Option<&[Token]>
    ensures { option_map (λ r. r.now) result ≡ list_field tokens.now }
{
    match tokens {
        [Token::Open, rest @ ..] => Some(rest),
        _ => None,
    }
}

fn is_word_token(token: &Token) -> bool
    ensures { result ≡ is_word_token token.now }
{
    matches!(token, Token::Word(_))
}

// How many tokens at the front are words.
fn words_len(tokens: &[Token]) -> usize
    ensures len { result ≡ prefix_len is_word_token tokens.now }
    ensures within { result ≤ length tokens.now }
{
    let mut count = 0;
    let mut rest = tokens;
    'words: while let Some((token, after)) = rest.split_first() {
        if !is_word_token(token) {
            return count;
        }
        count += 1;
        rest = after;
    }
    count
}

/// The words of the list at the front, which has nothing else, and what is after it.
pub fn word_list(tokens: &[Token]) -> Option<(&[Token], &[Token])>
    ensures { option_map (λ r. (r.0.now, r.1.now)) result ≡ word_list tokens.now }
{
    let tokens = list_field(tokens)?;
    let (words, rest) = tokens.split_at(words_len(tokens));
    match rest {
        [Token::Close, rest @ ..] => Some((words, rest)),
        _ => None,
    }
}

fn is_the_word(token: &Token, name: &[u8]) -> bool
    ensures { result ≡ is_the_word name.now token.now }
{
    match token {
        Token::Word(word) => word.as_slice() == name,
        _ => false,
    }
}

/// Whether one of the words is this.
pub fn has_word(words: &[Token], name: &[u8]) -> bool
    ensures { result ≡ has_word words.now name.now }
{
    words.iter().any(|token| is_the_word(token, name))
}

/// The name of a command or an answer, and its fields.
pub fn command(tokens: &[Token]) -> Option<(&[u8], &[Token])>
    ensures { option_map (λ r. (r.0.now, r.1.now)) result ≡ command_of tokens.now }
{
    match tokens {
        [Token::Open, Token::Word(name), Token::Open, fields @ ..] => Some((
            name.as_slice(),
            fields,
        )),
        _ => None,
    }
}

/// The fields of the command or the answer of this name.
pub fn fields_of<'a>(tokens: &'a [Token], name: &[u8]) -> Option<&'a [Token]>
    ensures { option_map (λ r. r.now) result ≡ fields_of name.now tokens.now }
{
    let (found, fields) = command(tokens)?;
    if found == name { Some(fields) } else { None }
}

/// The fields of `set-path`: the path, the revision, and whether to start empty.
#[tactic(auto, unfolding(crate::specs::Fields::set_path_of))]
pub fn set_path_fields(fields: &[Token]) -> Option<(&[u8], u64, bool)>
    ensures { option_map (λ r. (r.0.now, r.1, r.2)) result ≡ set_path_of fields.now }
{
    let (path, fields) = text_field(fields)?;
    let (rev, fields) = number_field(fields)?;
    let (start_empty, _more) = bool_field(fields)?;
    Some((path, rev, start_empty))
}
