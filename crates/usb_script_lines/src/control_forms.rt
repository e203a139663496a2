//! Lines of control transfers.
#![tactic(auto, unfolding(crate::specs::Forms::forms, usb_script_words::specs::Fields::one_field, usb_script_words::specs::Fields::two_fields, usb_script_words::specs::Fields::three_fields, crate::specs::Shapes::field_and_steps))]

ghost use Rattle.std.specs.Prelude.{◌≤◌, length, IfOk, codes};
ghost use Rattle.usb_script_words.specs.Fields.{texts};
ghost use Rattle.usb_script_words.specs.Outcome.{Gives};
ghost use Rattle.usb_script_words.specs.Tables.{read_by};
ghost use Rattle.usb_script_lines.specs.Forms.{forms};
ghost use Rattle.usb_script_lines.specs.ItemKinds.{places_in};

use crate::form::{exactly, field, form, letter};
use crate::item::Item;
use std::alloc::Global;
use usb_script_words::LineError;

/// `ctlin X CTL N TIME : STEP ; ..`.
#[tactic(auto, unfolding(crate::specs::Forms::forms))]
pub fn ctlin_line(alloc: Global, words: &[&[u8]]) -> Result<Item, LineError>
    ensures value { Gives (λ i. i) result (read_by forms (codes "ctlin") (texts words.now)) }
    ensures few { IfOk result (λ item. places_in item ≤ length words.now) }
{
    form!(alloc, words, ControlIn { target: X; setup: CTL; length: CONTROL_N, timeout: TIME; steps })
}

/// `ctlout X CTL BYTES TIME : STEP ; ..`.
#[tactic(auto, unfolding(crate::specs::Forms::forms))]
pub fn ctlout_line(alloc: Global, words: &[&[u8]]) -> Result<Item, LineError>
    ensures value { Gives (λ i. i) result (read_by forms (codes "ctlout") (texts words.now)) }
    ensures few { IfOk result (λ item. places_in item ≤ length words.now) }
{
    form!(alloc, words, ControlOut { target: X; setup: CTL; bytes: CONTROL_BYTES, timeout: TIME; steps })
}

/// `fin f X CTL N TIME`.
pub fn fin_line(alloc: Global, words: &[&[u8]]) -> Result<Item, LineError>
    ensures value { Gives (λ i. i) result (read_by forms (codes "fin") (texts words.now)) }
    ensures few { IfOk result (λ item. places_in item ≤ length words.now) }
{
    form!(alloc, words, StartControlIn { future: f, target: X; setup: CTL; length: CONTROL_N, timeout: TIME })
}

/// `fout f X CTL BYTES TIME`.
pub fn fout_line(alloc: Global, words: &[&[u8]]) -> Result<Item, LineError>
    ensures value { Gives (λ i. i) result (read_by forms (codes "fout") (texts words.now)) }
    ensures few { IfOk result (λ item. places_in item ≤ length words.now) }
{
    form!(alloc, words, StartControlOut { future: f, target: X; setup: CTL; bytes: CONTROL_BYTES, timeout: TIME })
}

/// `getdesc d B B HHHH TIME : STEP ; ..`.
pub fn getdesc_line(alloc: Global, words: &[&[u8]]) -> Result<Item, LineError>
    ensures value { Gives (λ i. i) result (read_by forms (codes "getdesc") (texts words.now)) }
    ensures few { IfOk result (λ item. places_in item ≤ length words.now) }
{
    form!(alloc, words, GetDescriptor { device: d, descriptor_type: B, index: B, language: HHHH, timeout: TIME; steps })
}

/// `string d B HHHH TIME : STEP ; ..`.
pub fn string_line(alloc: Global, words: &[&[u8]]) -> Result<Item, LineError>
    ensures value { Gives (λ i. i) result (read_by forms (codes "string") (texts words.now)) }
    ensures few { IfOk result (λ item. places_in item ≤ length words.now) }
{
    form!(alloc, words, StringDescriptor { device: d, index: INDEX, language: HHHH, timeout: TIME; steps })
}
