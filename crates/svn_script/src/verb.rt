//! The names of the commands.
ghost use Rattle.std.specs.Prelude.{◌≡◌};
ghost use Rattle.svn_script.specs.Verbs.{other_verb_of, verb_of};

/// The name of a command.
#[derive(Clone, Copy)]
pub(crate) enum Verb {
    Mkdir,
    Put,
    Prop,
    Unprop,
    Remove,
    Copy,
    Commit,
    Checkout,
    Place,
    Switch,
    Forget,
    Report,
    Drive,
    Update,
    SwitchTo,
    Show,
}

// The command of this name, among those that add no change to the next commit.
fn read_other_verb(name: &[u8]) -> Option<Verb>
    ensures { result ≡ other_verb_of name.now }
{
    if name == b"commit".as_slice() {
        Some(Verb::Commit)
    } else if name == b"checkout".as_slice() {
        Some(Verb::Checkout)
    } else if name == b"place".as_slice() {
        Some(Verb::Place)
    } else if name == b"switch".as_slice() {
        Some(Verb::Switch)
    } else if name == b"forget".as_slice() {
        Some(Verb::Forget)
    } else if name == b"report".as_slice() {
        Some(Verb::Report)
    } else if name == b"drive".as_slice() {
        Some(Verb::Drive)
    } else if name == b"update".as_slice() {
        Some(Verb::Update)
    } else if name == b"switch-to".as_slice() {
        Some(Verb::SwitchTo)
    } else if name == b"show".as_slice() {
        Some(Verb::Show)
    } else {
        None
    }
}

/// The command of this name, compared literally: no escapes, and case counts.
pub(crate) fn read_verb(name: &[u8]) -> Option<Verb>
    ensures { result ≡ verb_of name.now }
{
    if name == b"mkdir".as_slice() {
        Some(Verb::Mkdir)
    } else if name == b"put".as_slice() {
        Some(Verb::Put)
    } else if name == b"prop".as_slice() {
        Some(Verb::Prop)
    } else if name == b"unprop".as_slice() {
        Some(Verb::Unprop)
    } else if name == b"remove".as_slice() {
        Some(Verb::Remove)
    } else if name == b"copy".as_slice() {
        Some(Verb::Copy)
    } else {
        read_other_verb(name)
    }
}
