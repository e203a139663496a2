//! The item of a line by its first word. Its first letter decides, so words that begin with other letters aren't looked at.
#![tactic(auto, unfolding(crate::specs::Forms::forms))]

ghost use Rattle.std.specs.Prelude.{◌≤◌, ◌+◌, length, IfOk, codes};
ghost use Rattle.usb_script_words.specs.Fields.{texts};
ghost use Rattle.usb_script_words.specs.Outcome.{Gives};
ghost use Rattle.usb_script_words.specs.Tables.{read_by, beginning};
ghost use Rattle.usb_script_lines.specs.Forms.{forms, named_of};
ghost use Rattle.usb_script_lines.specs.ItemKinds.{places_in};

use crate::control_forms::{
    ctlin_line, ctlout_line, fin_line, fout_line, getdesc_line, string_line,
};
use crate::form::{exactly, field, form, letter, rows};
use crate::item::Item;
use crate::other_forms::{
    device_line, dsubmitin_line, dsubmitout_line, mreq_line, msg_line, open_line, write_line,
    xferout_line,
};
use crate::several_forms::{
    cancel_line, clone_line, close_line, halt_line, inner_line, num_line, timeout_line,
};
use crate::tree_forms::{
    attr_line, child_line, deny_line, entry_line, link_line, match_line, openpath_line, probe_line,
    root_line, uevent_line,
};
use std::alloc::Global;
use usb_script_words::LineError;

/// A line whose first word begins with `!`, `a` or `b`.
fn line_ab(alloc: Global, name: &[u8], words: &[&[u8]]) -> Result<Item, LineError>
    ensures value { Gives (λ i. i) result
        (read_by (beginning (codes "!ab") forms) name.now (texts words.now)) }
    ensures few { IfOk result (λ item. places_in item ≤ length words.now + 1) }
{
    rows! {
        alloc, name, words;
        b"!" => Steps { STEPS }
        b"active" => ActiveConfiguration { device: d }
        b"alt" => SetAltSetting { interface: i, setting: B }
        b"attach" => AttachDriver { device: d, number: B }
        b"attr" => attr_line(alloc, words)
        b"buses" => Buses {}
    }
}

/// A line whose first word begins with `c`.
fn line_c(alloc: Global, name: &[u8], words: &[&[u8]]) -> Result<Item, LineError>
    ensures value { Gives (λ i. i) result
        (read_by (beginning (codes "c") forms) name.now (texts words.now)) }
    ensures few { IfOk result (λ item. places_in item ≤ length words.now) }
{
    rows! {
        alloc, name, words;
        b"cancel" => cancel_line(words)
        b"child" => child_line(alloc, words)
        b"claim" => Claim { device: d, number: B, interface: i }
        b"clone" => clone_line(words)
        b"close" => close_line(words)
        b"consume" => Consume(Plain) { reader: r, count: N }
        b"ctlin" => ctlin_line(alloc, words)
        b"ctlout" => ctlout_line(alloc, words)
    }
}

/// A line whose first word begins with `d`.
fn line_d(alloc: Global, name: &[u8], words: &[&[u8]]) -> Result<Item, LineError>
    ensures value { Gives (λ i. i) result
        (read_by (beginning (codes "d") forms) name.now (texts words.now)) }
    ensures few { IfOk result (λ item. places_in item ≤ length words.now) }
{
    rows! {
        alloc, name, words;
        b"deny" => deny_line(alloc, words)
        b"descriptors" => Descriptors { device: d }
        b"detach" => DetachDriver { device: d, number: B }
        b"detachclaim" => DetachAndClaim { device: d, number: B, interface: i }
        b"devdesc" => DeviceDescriptor { device: d }
        b"device" => device_line(alloc, words)
        b"driver" => Driver { device: k, number: B }
        b"dsubmitin" => dsubmitin_line(words)
        b"dsubmitout" => dsubmitout_line(alloc, words)
    }
}

/// A line whose first word begins with `e`.
fn line_e(alloc: Global, name: &[u8], words: &[&[u8]]) -> Result<Item, LineError>
    ensures value { Gives (λ i. i) result
        (read_by (beginning (codes "e") forms) name.now (texts words.now)) }
    ensures few { IfOk result (λ item. places_in item ≤ length words.now) }
{
    rows! {
        alloc, name, words;
        b"endmsg" => ConsumeEnd { reader: r }
        b"endpoint" => Endpoint { endpoint: e, interface: i, address: HH, kind: KIND }
        b"entry" => entry_line(alloc, words)
    }
}

/// A line whose first word begins with `f`.
fn line_f(alloc: Global, name: &[u8], words: &[&[u8]]) -> Result<Item, LineError>
    ensures value { Gives (λ i. i) result
        (read_by (beginning (codes "f") forms) name.now (texts words.now)) }
    ensures few { IfOk result (λ item. places_in item ≤ length words.now) }
{
    rows! {
        alloc, name, words;
        b"fill" => FillBuf(Plain) { reader: r; steps }
        b"fin" => fin_line(alloc, words)
        b"flush" => Flush { writer: w; steps }
        b"flushend" => FlushEnd { writer: w; steps }
        b"fout" => fout_line(alloc, words)
        b"fpoll" => PollFuture { future: f }
        b"fwait" => WaitFuture { future: f; steps }
    }
}

/// A line whose first word begins with `g` or `h`.
fn line_gh(alloc: Global, name: &[u8], words: &[&[u8]]) -> Result<Item, LineError>
    ensures value { Gives (λ i. i) result
        (read_by (beginning (codes "gh") forms) name.now (texts words.now)) }
    ensures few { IfOk result (λ item. places_in item ≤ length words.now) }
{
    rows! {
        alloc, name, words;
        b"getalt" => GetAltSetting { interface: i }
        b"getdesc" => getdesc_line(alloc, words)
        b"halt" => halt_line(words)
        b"hotplug" => Hotplug {}
    }
}

/// A line whose first word begins with `i`.
fn line_i(alloc: Global, name: &[u8], words: &[&[u8]]) -> Result<Item, LineError>
    ensures value { Gives (λ i. i) result
        (read_by (beginning (codes "i") forms) name.now (texts words.now)) }
    ensures few { IfOk result (λ item. places_in item ≤ length words.now) }
{
    rows! {
        alloc, name, words;
        b"ifdesc" => InterfaceDescriptor { interface: i }
        b"inner" => inner_line(words)
        b"isend" => IsEnd { reader: r }
    }
}

/// A line whose first word begins with `l` or `m`.
fn line_lm(alloc: Global, name: &[u8], words: &[&[u8]]) -> Result<Item, LineError>
    ensures value { Gives (λ i. i) result
        (read_by (beginning (codes "lm") forms) name.now (texts words.now)) }
    ensures few { IfOk result (λ item. places_in item ≤ length words.now) }
{
    rows! {
        alloc, name, words;
        b"langs" => SupportedLanguages { device: d, timeout: TIME; steps }
        b"link" => link_line(alloc, words)
        b"list" => List {}
        b"match" => match_line(alloc, words)
        b"mcount" => Outstanding { client: m }
        b"mreq" => mreq_line(alloc, words)
        b"mresp" => Response { client: m; steps }
        b"msg" => msg_line(words)
    }
}

/// A line whose first word begins with `n` or `o`.
fn line_no(alloc: Global, name: &[u8], words: &[&[u8]]) -> Result<Item, LineError>
    ensures value { Gives (λ i. i) result
        (read_by (beginning (codes "no") forms) name.now (texts words.now)) }
    ensures few { IfOk result (λ item. places_in item ≤ length words.now) }
{
    rows! {
        alloc, name, words;
        b"now" => Now {}
        b"num" => num_line(words)
        b"open" => open_line(words)
        b"openpath" => openpath_line(alloc, words)
    }
}

/// A line whose first word begins with `p`.
fn line_p(alloc: Global, name: &[u8], words: &[&[u8]]) -> Result<Item, LineError>
    ensures value { Gives (λ i. i) result
        (read_by (beginning (codes "p") forms) name.now (texts words.now)) }
    ensures few { IfOk result (λ item. places_in item ≤ length words.now) }
{
    rows! {
        alloc, name, words;
        b"pending" => Pending { endpoint: e }
        b"poll" => Poll { endpoint: e }
        b"pollfill" => PollFillBuf(Plain) { reader: r }
        b"pollflush" => PollFlush { writer: w }
        b"pollflushend" => PollFlushEnd { writer: w }
        b"pollread" => PollRead(Plain) { reader: r, length: R }
        b"pollsfill" => PollFillBuf(UntilShort) { reader: r }
        b"pollsread" => PollRead(UntilShort) { reader: r, length: R }
        b"pollwrite" => PollWrite { writer: w, bytes: BYTES }
        b"probe" => probe_line(alloc, words)
    }
}

/// A line whose first word begins with `r`.
fn line_r(alloc: Global, name: &[u8], words: &[&[u8]]) -> Result<Item, LineError>
    ensures value { Gives (λ i. i) result
        (read_by (beginning (codes "r") forms) name.now (texts words.now)) }
    ensures few { IfOk result (λ item. places_in item ≤ length words.now) }
{
    rows! {
        alloc, name, words;
        b"read" => Read(Plain) { reader: r, length: R; steps }
        b"reader" => Reader { reader: r, endpoint: e, transfer_size: N }
        b"release" => Release { interface: i }
        b"reset" => Reset { device: d }
        b"root" => root_line(words)
    }
}

/// A line whose first word begins with `s`.
fn line_s(alloc: Global, name: &[u8], words: &[&[u8]]) -> Result<Item, LineError>
    ensures value { Gives (λ i. i) result
        (read_by (beginning (codes "s") forms) name.now (texts words.now)) }
    ensures few { IfOk result (λ item. places_in item ≤ length words.now) }
{
    rows! {
        alloc, name, words;
        b"sconsume" => Consume(UntilShort) { reader: r, count: N }
        b"setconfig" => SetConfiguration { device: d, value: B }
        b"sfill" => FillBuf(UntilShort) { reader: r; steps }
        b"speed" => Speed { device: d }
        b"sread" => Read(UntilShort) { reader: r, length: R; steps }
        b"string" => string_line(alloc, words)
        b"submitin" => SubmitIn { endpoint: e, length: N }
        b"submitout" => SubmitOut { endpoint: e, bytes: BYTES }
    }
}

/// A line whose first word begins with `t` or `u`.
fn line_tu(alloc: Global, name: &[u8], words: &[&[u8]]) -> Result<Item, LineError>
    ensures value { Gives (λ i. i) result
        (read_by (beginning (codes "tu") forms) name.now (texts words.now)) }
    ensures few { IfOk result (λ item. places_in item ≤ length words.now) }
{
    rows! {
        alloc, name, words;
        b"timeout" => timeout_line(words)
        b"uevent" => uevent_line(alloc, words)
    }
}

/// A line whose first word begins with `w`.
fn line_w(alloc: Global, name: &[u8], words: &[&[u8]]) -> Result<Item, LineError>
    ensures value { Gives (λ i. i) result
        (read_by (beginning (codes "w") forms) name.now (texts words.now)) }
    ensures few { IfOk result (λ item. places_in item ≤ length words.now) }
{
    rows! {
        alloc, name, words;
        b"wait" => Wait { endpoint: e, timeout: TIME; steps }
        b"wend" => SubmitEnd { writer: w }
        b"write" => write_line(alloc, words)
        b"writer" => Writer { writer: w, endpoint: e, transfer_size: N }
        b"wsubmit" => Submit { writer: w }
    }
}

/// A line whose first word begins with `x`.
fn line_x(alloc: Global, name: &[u8], words: &[&[u8]]) -> Result<Item, LineError>
    ensures value { Gives (λ i. i) result
        (read_by (beginning (codes "x") forms) name.now (texts words.now)) }
    ensures few { IfOk result (λ item. places_in item ≤ length words.now) }
{
    rows! {
        alloc, name, words;
        b"xferin" => TransferIn { endpoint: e, length: N, timeout: TIME; steps }
        b"xferout" => xferout_line(alloc, words)
    }
}

/// The item of a line with this first word.
#[tactic(auto, using(usb_script_words::proofs::TableLemmas::read_begins), unfolding(crate::specs::Forms::named_of))]
pub fn with_first_word(alloc: Global, name: &[u8], words: &[&[u8]]) -> Result<Item, LineError>
    ensures value { Gives (λ i. i) result (named_of name.now (texts words.now)) }
    ensures few { IfOk result (λ item. places_in item ≤ length words.now + 1) }
{
    let [letter, ..] = name else {
        return Err(LineError::Malformed);
    };
    match *letter {
        b'!' | b'a' | b'b' => line_ab(alloc, name, words),
        b'c' => line_c(alloc, name, words),
        b'd' => line_d(alloc, name, words),
        b'e' => line_e(alloc, name, words),
        b'f' => line_f(alloc, name, words),
        b'g' | b'h' => line_gh(alloc, name, words),
        b'i' => line_i(alloc, name, words),
        b'l' | b'm' => line_lm(alloc, name, words),
        b'n' | b'o' => line_no(alloc, name, words),
        b'p' => line_p(alloc, name, words),
        b'r' => line_r(alloc, name, words),
        b's' => line_s(alloc, name, words),
        b't' | b'u' => line_tu(alloc, name, words),
        b'w' => line_w(alloc, name, words),
        b'x' => line_x(alloc, name, words),
        _ => Err(LineError::Malformed),
    }
}
