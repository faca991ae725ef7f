// From words to a command.
ghost use Rattle.std.specs.Prelude.{◌≡◌};
ghost use Rattle.schedule_text.specs.Words.{texts};
ghost use Rattle.schedule_text.specs.Commands.{command_of, pick_of, form_of, read_of, value_of, written_of, upper_of, between_of, bounds_of};

use crate::command::{Between, Bounds, Command, Value, Written};
use crate::reason::Reason;
use kinds::card::Card;
use kinds::item::Item;
use kinds::volume::VolumePage;
use kinds::whole::Whole;
use notation::hex::unhex;
use notation::text::Notation;

// A form's stamp or value, by kind.
fn parse_value(kind: &[u8], word: &[u8]) -> Result<Value, Reason>
    ensures { result ≡ value_of kind.now word.now }
{
    match kind {
        b"whole" => Whole::parse(word)
            .map(Value::OfWhole)
            .ok_or(Reason::WholeStamp),
        b"page" => VolumePage::parse(word)
            .map(Value::OfPage)
            .ok_or(Reason::PageStamp),
        b"card" => Card::parse(word)
            .map(Value::OfCard)
            .ok_or(Reason::CardValue),
        b"item" => Item::parse(word)
            .map(Value::OfItem)
            .ok_or(Reason::ItemValue),
        _ => Err(Reason::Kind),
    }
}

// The bytes of a reading, by kind.
fn parse_written(kind: &[u8], word: &[u8]) -> Result<Written, Reason>
    ensures { result ≡ written_of kind.now word.now }
{
    match kind {
        b"whole" => unhex(word).map(Written::AsWhole).ok_or(Reason::StampForm),
        b"page" => unhex(word).map(Written::AsPage).ok_or(Reason::StampForm),
        b"card" => unhex(word).map(Written::AsCard).ok_or(Reason::ValueForm),
        b"item" => unhex(word).map(Written::AsItem).ok_or(Reason::ValueForm),
        _ => Err(Reason::Kind),
    }
}

// An upper bound: a stamp, or `none`. The inner `None` is that bound, and the outer one a word that is neither; no
// `Result`, since the caller for each stamp kind turns that into the reason of its own kind.
fn parse_upper<S: Notation>(word: &[u8]) -> Option<Option<S>>
    ensures { result ≡ upper_of S.Notation.notes.parsed word.now }
{
    match word {
        b"none" => Some(None),
        _ => S::parse(word).map(Some),
    }
}

// The bounds of a pick.
fn parse_between<S: Notation>(lower: &[u8], upper: &[u8]) -> Option<Between<S>>
    ensures { result ≡ between_of (S.Notation.notes.parsed lower.now) (upper_of S.Notation.notes.parsed upper.now) }
{
    let lower = S::parse(lower)?;
    let upper = parse_upper(upper)?;
    Some(Between { lower, upper })
}

// The bounds of a pick, by stamp kind.
fn parse_bounds(kind: &[u8], lower: &[u8], upper: &[u8]) -> Result<Bounds, Reason>
    ensures { result ≡ bounds_of kind.now lower.now upper.now }
{
    match kind {
        b"whole" => parse_between(lower, upper)
            .map(Bounds::Wholes)
            .ok_or(Reason::WholeStamp),
        b"page" => parse_between(lower, upper)
            .map(Bounds::Pages)
            .ok_or(Reason::PageStamp),
        _ => Err(Reason::StampKind),
    }
}

// `pick KIND LOWER UPPER`, after its first word. Each command has a function of its own: in one match over all
// words the proof of a wrong number of words did not close, in three forms.
fn parse_pick(words: &[&[u8]]) -> Result<Command, Reason>
    ensures { result ≡ pick_of (texts words.now) }
{
    match words {
        [kind, lower, upper] => parse_bounds(kind, lower, upper).map(Command::Pick),
        _ => Err(Reason::PickWords),
    }
}

// `form KIND VALUE`, after its first word.
fn parse_form(words: &[&[u8]]) -> Result<Command, Reason>
    ensures { result ≡ form_of (texts words.now) }
{
    match words {
        [kind, value] => parse_value(kind, value).map(Command::Form),
        _ => Err(Reason::FormWords),
    }
}

// `read KIND DIGITS`, after its first word.
fn parse_read(words: &[&[u8]]) -> Result<Command, Reason>
    ensures { result ≡ read_of (texts words.now) }
{
    match words {
        [kind, digits] => parse_written(kind, digits).map(Command::Read),
        _ => Err(Reason::ReadWords),
    }
}

// The command that words are, or why they are none.
pub fn parse(words: &[&[u8]]) -> Result<Command, Reason>
    ensures { result ≡ command_of (texts words.now) }
{
    let [name, rest @ ..] = words else {
        return Err(Reason::Command);
    };
    match *name {
        b"pick" => parse_pick(rest),
        b"form" => parse_form(rest),
        b"read" => parse_read(rest),
        _ => Err(Reason::Command),
    }
}
