// From words to a command.
ghost use Rattle.std.specs.Prelude.{◌≡◌};
ghost use Rattle.std.specs.Char.{is_ascii_alphanumeric};
ghost use Rattle.std.specs.List.{list_all};
ghost use Rattle.schedule_text.specs.Words.{texts};
ghost use Rattle.schedule_calls.specs.Commands.{is_name, name_of, value_of, form_named, alone, one_name, one_index, one_numeral, name_and_image, image_after, at_of, look_of, put_of, formed, command_of};
ghost use Rattle.schedule_calls.specs.Numbers.{numeral};
ghost use Rattle.schedule_calls.specs.Readings.{read_as};
ghost use Rattle.schedule_calls.specs.Told.{call_told, command_told};

use crate::command::{Archived, Call, Command, View};
use crate::numbers::{Number, parse_index, parse_number};
use crate::reason::{Form, Reason};
use notation::text::Notation;
use notation::words::is_word;

// Whether each byte of a word is a letter or a digit.
fn are_letters(word: &[u8]) -> bool
    ensures { result ≡ list_all is_ascii_alphanumeric word.now }
{
    word.iter().all(|c| c.is_ascii_alphanumeric())
}

// Whether a word is one or more letters and digits.
fn is_name(word: &[u8]) -> bool
    ensures { result ≡ is_name word.now }
{
    !word.is_empty() && are_letters(word)
}

// The name of a job or a ticket, which is letters and digits.
fn parse_name(word: &[u8]) -> Result<&str, Reason>
    ensures { read_as (λ s. s.now) result ≡ name_of word.now }
{
    if !is_name(word) {
        return Err(Reason::Name);
    }
    let Ok(name) = std::str::from_utf8(word) else {
        return Err(Reason::Name);
    };
    Ok(name)
}

// A record's value.
pub fn parse_value<R: Notation>(word: &[u8]) -> Result<R, Reason>
    ensures { result ≡ value_of R.Notation.notes word.now }
{
    R::parse(word).ok_or(Reason::Value)
}

// The form of the command that a first word names.
fn form_of(word: &[u8]) -> Option<Form>
    ensures { result ≡ form_named word.now }
{
    match word {
        b"publish" => Some(Form::Publish),
        b"open" => Some(Form::Open),
        b"look" => Some(Form::Look),
        b"put" => Some(Form::Put),
        b"tune" => Some(Form::Tune),
        b"submit" => Some(Form::Submit),
        b"decide" => Some(Form::Decide),
        b"settle" => Some(Form::Settle),
        b"waive" => Some(Form::Waive),
        b"drop" => Some(Form::LetGo),
        b"row" => Some(Form::Row),
        b"job" => Some(Form::Job),
        b"journal" => Some(Form::Journal),
        b"image" => Some(Form::Image),
        b"archive" => Some(Form::Archive),
        b"inspect" => Some(Form::Inspect),
        b"play" => Some(Form::Play),
        _ => None,
    }
}

// No word follows the first.
fn alone(form: Form, words: &[&[u8]]) -> Result<(), Reason>
    ensures { result ≡ alone form (texts words.now) }
{
    match words {
        [] => Ok(()),
        _ => Err(Reason::Words(form)),
    }
}

// A name alone.
fn one_name<'a>(form: Form, words: &[&'a [u8]]) -> Result<&'a str, Reason>
    ensures { read_as (λ s. s.now) result ≡ one_name form (texts words.now) }
{
    match words {
        [name] => parse_name(name),
        _ => Err(Reason::Words(form)),
    }
}

// A number of the library's alone.
fn one_index(form: Form, words: &[&[u8]]) -> Result<usize, Reason>
    ensures { result ≡ one_index form (texts words.now) }
{
    match words {
        [number] => parse_index(number),
        _ => Err(Reason::Words(form)),
    }
}

// A number with its digits alone.
fn one_number<'a>(form: Form, words: &[&'a [u8]]) -> Result<Number<'a>, Reason>
    ensures { read_as numeral result ≡ one_numeral form (texts words.now) }
{
    match words {
        [number] => parse_number(number),
        _ => Err(Reason::Words(form)),
    }
}

// A name and the number of an image.
fn name_and_image<'a>(form: Form, words: &[&'a [u8]]) -> Result<(&'a str, usize), Reason>
    ensures { read_as (λ p. record { name = p.0.now; image = p.1 }) result ≡ name_and_image form (texts words.now) }
{
    let [name, image] = words else {
        return Err(Reason::Words(form));
    };
    let name = parse_name(name)?;
    let image = parse_index(image)?;
    Ok((name, image))
}

// The image of this number, after the word `at`.
fn image_after(form: Form, at: &[u8], image: &[u8]) -> Result<Option<usize>, Reason>
    ensures { result ≡ image_after form at.now image.now }
{
    if !is_word(at, "at") {
        return Err(Reason::Words(form));
    }
    Ok(Some(parse_index(image)?))
}

// The image that is named after `at`, if any words follow.
fn parse_at(form: Form, words: &[&[u8]]) -> Result<Option<usize>, Reason>
    ensures { result ≡ at_of form (texts words.now) }
{
    match words {
        [] => Ok(None),
        [at, image] => image_after(form, at, image),
        _ => Err(Reason::Words(form)),
    }
}

// A look, at the image that is named or at the job's own.
fn parse_look<'a, R>(words: &[&'a [u8]]) -> Result<Call<'a, R>, Reason>
    ensures { read_as call_told result ≡ look_of (texts words.now) }
{
    let [name, record, at @ ..] = words else {
        return Err(Reason::Words(Form::Look));
    };
    let at = parse_at(Form::Look, at)?;
    let name = parse_name(name)?;
    let record = parse_number(record)?;
    Ok(Call::Look { name, record, at })
}

// A put, at the image that is named or at the job's own.
fn parse_put<'a, R: Notation>(words: &[&'a [u8]]) -> Result<Call<'a, R>, Reason>
    ensures { read_as call_told result ≡ put_of R.Notation.notes (texts words.now) }
{
    let [name, record, value, at @ ..] = words else {
        return Err(Reason::Words(Form::Put));
    };
    let at = parse_at(Form::Put, at)?;
    let name = parse_name(name)?;
    let record = parse_number(record)?;
    let value = parse_value(value)?;
    Ok(Call::Put {
        name,
        record,
        value,
        at,
    })
}

// The command of a form, from the words after the first.
fn parse_form<'a, R: Notation>(form: Form, words: &[&'a [u8]]) -> Result<Command<'a, R>, Reason>
    ensures { read_as command_told result ≡ formed R.Notation.notes form (texts words.now) }
{
    match form {
        Form::Found => Err(Reason::Command),
        Form::Publish => {
            alone(form, words)?;
            Ok(Command::Make(Call::Publish))
        }
        Form::Open => {
            let (name, image) = name_and_image(form, words)?;
            Ok(Command::Make(Call::Open { name, image }))
        }
        Form::Look => Ok(Command::Make(parse_look(words)?)),
        Form::Put => Ok(Command::Make(parse_put(words)?)),
        Form::Tune => {
            let (name, image) = name_and_image(form, words)?;
            Ok(Command::Make(Call::Tune { name, image }))
        }
        Form::Submit => {
            let name = one_name(form, words)?;
            Ok(Command::Make(Call::Submit { name }))
        }
        Form::Decide => {
            alone(form, words)?;
            Ok(Command::Make(Call::Decide))
        }
        Form::Settle => {
            let (name, image) = name_and_image(form, words)?;
            Ok(Command::Make(Call::Settle { name, image }))
        }
        Form::Waive => {
            let name = one_name(form, words)?;
            Ok(Command::Make(Call::Waive { name }))
        }
        Form::LetGo => {
            let name = one_name(form, words)?;
            Ok(Command::LetGo { name })
        }
        Form::Row => {
            let record = one_index(form, words)?;
            Ok(Command::Show(View::Row { record }))
        }
        Form::Job => {
            let name = one_name(form, words)?;
            Ok(Command::Show(View::Job { name }))
        }
        Form::Journal => {
            alone(form, words)?;
            Ok(Command::Show(View::Journal))
        }
        Form::Image => {
            let number = one_index(form, words)?;
            Ok(Command::Show(View::Image { number }))
        }
        Form::Archive => {
            alone(form, words)?;
            Ok(Command::Keep(Archived::Bytes))
        }
        Form::Inspect => {
            alone(form, words)?;
            Ok(Command::Keep(Archived::Inspected))
        }
        Form::Play => {
            let jobs = one_number(form, words)?;
            Ok(Command::Keep(Archived::Played { jobs }))
        }
    }
}

// The command that words are, or why they are none.
pub fn parse<'a, R: Notation>(words: &[&'a [u8]]) -> Result<Command<'a, R>, Reason>
    ensures { read_as command_told result ≡ command_of R.Notation.notes (texts words.now) }
{
    let [first, rest @ ..] = words else {
        return Err(Reason::Command);
    };
    let form = form_of(first).ok_or(Reason::Command)?;
    parse_form(form, rest)
}
