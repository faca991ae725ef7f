// What a command prints: the command itself and its answer.
ghost use Rattle.std.specs.Prelude.{◌≡◌, IfOk, string_bytes};
ghost use Rattle.schedule_text.specs.Answers.{pick_line, written_line, read_line, picked, formed, reading, printed};
ghost use Rattle.schedule_text.specs.Laws.{FormsReadBack};

use crate::command::{Between, Bounds, Command, Value, Written};
use kinds::card::Card;
use kinds::item::Item;
use kinds::stamp::Stamp;
use kinds::value::Record;
use kinds::volume::VolumePage;
use kinds::whole::Whole;
use notation::hex::Hex;
use notation::text::{Notation, Shown, ShownOr};
use std::alloc::{AllocError, Global};

// A pick: the stamp between the bounds, or `none`.
fn pick_text<S: Stamp + Notation>(
    heap: Global,
    kind: &str,
    bounds: Between<S>,
) -> Result<String, AllocError>
    ensures { IfOk result (λ t. string_bytes t ≡ pick_line S.Stamp.kind S.Notation.notes kind.now bounds) }
{
    let lower = Shown(bounds.lower);
    let upper = ShownOr {
        value: bounds.upper,
        none: "none",
    };
    let picked = ShownOr {
        value: bounds.lower.pick(bounds.upper),
        none: "none",
    };
    format!(in heap; "pick {kind} {lower} {upper}: {picked}\n")
}

// A form: the written form in hexadecimal digits.
fn form_text<T: Notation>(
    heap: Global,
    kind: &str,
    value: T,
    form: &[u8],
) -> Result<String, AllocError>
    requires { form.now ≡ T.Notation.notes.form.written value }
    ensures { IfOk result (λ t. string_bytes t ≡ written_line T.Notation.notes kind.now value) }
{
    let value = Shown(value);
    let form = Hex(form);
    format!(in heap; "form {kind} {value}: {form}\n")
}

// A reading: what the bytes are the form of, or `wrong`.
fn read_text<T: Notation>(
    heap: Global,
    kind: &str,
    value: Option<T>,
    form: &[u8],
) -> Result<String, AllocError>
    ensures { IfOk result (λ t. string_bytes t ≡ read_line T.Notation.notes kind.now form.now value) }
{
    let form = Hex(form);
    let value = ShownOr {
        value,
        none: "wrong",
    };
    format!(in heap; "read {kind} {form}: {value}\n")
}

// A pick, by stamp kind.
fn answer_pick(heap: Global, bounds: Bounds) -> Result<String, AllocError>
    ensures { IfOk result (λ t. string_bytes t ≡ picked bounds) }
{
    match bounds {
        Bounds::Wholes(bounds) => pick_text(heap, "whole", bounds),
        Bounds::Pages(bounds) => pick_text(heap, "page", bounds),
    }
}

// A form, by kind.
fn answer_form(heap: Global, value: Value) -> Result<String, AllocError>
    ensures { IfOk result (λ t. string_bytes t ≡ formed value) }
{
    match value {
        Value::OfWhole(stamp) => form_text(heap, "whole", stamp, &stamp.to_bytes()),
        Value::OfPage(stamp) => form_text(heap, "page", stamp, &stamp.to_bytes()),
        Value::OfCard(card) => form_text(heap, "card", card, &card.to_bytes()),
        Value::OfItem(item) => form_text(heap, "item", item, &item.to_bytes()),
    }
}

// A reading, by kind.
fn answer_read(heap: Global, form: Written) -> Result<String, AllocError>
    ensures { IfOk result (λ t. string_bytes t ≡ reading form) }
{
    match form {
        Written::AsWhole(form) => read_text(heap, "whole", Whole::from_bytes(form), &form),
        Written::AsPage(form) => read_text(heap, "page", VolumePage::from_bytes(form), &form),
        Written::AsCard(form) => read_text(heap, "card", Card::from_bytes(form), &form),
        Written::AsItem(form) => read_text(heap, "item", Item::from_bytes(form), &form),
    }
}

// The line that a command prints.
pub fn answer(heap: Global, command: Command) -> Result<String, AllocError>
    ensures { IfOk result (λ t. string_bytes t ≡ printed command) }
{
    match command {
        Command::Pick(bounds) => answer_pick(heap, bounds),
        Command::Form(value) => answer_form(heap, value),
        Command::Read(form) => answer_read(heap, form),
    }
}

// A reading of what a form printed answers with what the form was given.
pub fn forms_read_back()
    ensures { FormsReadBack }
{}
