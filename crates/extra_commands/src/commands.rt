//! The command that the words begin with.

ghost use Rattle.std.specs.Prelude.{◌≡◌, codes, map, string_bytes};
ghost use Rattle.mw_text.specs.Text.{same_text};
ghost use Rattle.extra_commands.specs.Commands as commands;

/// The commands of the second program.
#[derive(Clone, Copy)]
pub enum Command {
    /// `advert`: whether routes go out to external peers.
    Advert,
    /// `compare`: whether packets have the same fates in two networks.
    Compare,
    /// `least`: with how few failed links something breaks a question.
    Least,
    /// `trim`: the trimmed form of a log.
    Trim,
    /// None that is built.
    Unknown,
}

fn is_advert(word: &String) -> bool
    ensures { result ≡ same_text (string_bytes word.now) (codes "advert") }
{
    word.as_str() == "advert"
}

fn is_compare(word: &String) -> bool
    ensures { result ≡ same_text (string_bytes word.now) (codes "compare") }
{
    word.as_str() == "compare"
}

fn is_least(word: &String) -> bool
    ensures { result ≡ same_text (string_bytes word.now) (codes "least") }
{
    word.as_str() == "least"
}

fn is_trim(word: &String) -> bool
    ensures { result ≡ same_text (string_bytes word.now) (codes "trim") }
{
    word.as_str() == "trim"
}

/// The command that the words begin with.
#[tactic(auto, unfolding(crate::specs::Commands::command_of))]
pub fn command_of(words: &[String]) -> Command
    ensures { result ≡ commands.command_of (map string_bytes words.now) }
{
    match words {
        [] => Command::Unknown,
        [name, ..] if is_advert(name) => Command::Advert,
        [name, ..] if is_compare(name) => Command::Compare,
        [name, ..] if is_least(name) => Command::Least,
        [name, ..] if is_trim(name) => Command::Trim,
        _ => Command::Unknown,
    }
}
