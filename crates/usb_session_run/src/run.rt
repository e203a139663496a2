//! A whole session.

ghost use Rattle.std.specs.Prelude.{◌≡◌, ◌⊎◌, ◌≤◌, ◌<◌, ◌+◌, ℕ, List, length, IfOk, IfErr, OnOk, OnErr, IsErrOf, Some, None, false};
ghost use Rattle.std.specs.List.{All, count_by};
ghost use Rattle.std.specs.Option.{ForSome};
ghost use Rattle.std.specs.Io.KnownBytes.{Appends, Keeps};
ghost use Rattle.usb_script_lines.specs.declared.item.Item.{Item};
ghost use Rattle.usb_script_lines.specs.ItemKinds.{is_call, place_count};
ghost use Rattle.usb_script.specs.ScriptFacts.{IsBounded};
ghost use Rattle.usb_kernel.specs.ClaimLaws.{is_claimed};
ghost use Rattle.usb_kernel.specs.Legal.{IsLawful};
ghost use Rattle.usb_device_host.specs.Finishes.{HasEnds, HasCompletions, KeepsNothing};
ghost use Rattle.usb_session.specs.Fates.{fate_lines};
ghost use Rattle.usb_session.specs.Output.{output, start, final_host};
ghost use Rattle.usb_session.specs.Sums.{counts_of, sum_of};
ghost use Rattle.usb_session.specs.Served.{IsCounted, EndpointsAreServed};
ghost use Rattle.usb_session.specs.Printed.{CompletionsArePrinted};
ghost use Rattle.usb_session.specs.ControlsServed.{ControlsAreServed};
ghost use Rattle.usb_session.specs.FinalFates.{HasFinalFates};
ghost use Rattle.usb_session.specs.Places.{PollsAnswer};
ghost use Rattle.usb_session.specs.Framed.{FramedReadersFollow};
ghost use Rattle.usb_session.specs.Handed.{BytesAreHandedOver};
ghost use Rattle.usb_session.specs.WrittenScripts.{WritersAreTold};
ghost use Rattle.usb_session.specs.ClientsServed.{ClientsAreServed};
ghost use Rattle.usb_session_calls.specs.Relation.{Represents};
ghost use Rattle.usb_session_run.specs.Exchanges.{MessagesAlwaysArrive, MessagesKeepArriving};
ghost use Rattle.usb_session_run.specs.Running.{AllAnswered};
ghost use Rattle.usb_session_run.specs.Causes.{Rose, RoseByOne, Wrote, WrotePrefix, FailedLast, TookAtMost, EndsReading, IsWritingError};
ghost use Rattle.usb_session_run.specs.Stops.{StoppedBehind, KeepsAnswered};
ghost use Rattle.usb_session_run.specs.Session.{streams, IsAnswered, HasReason, FaultsNeverFall, IsSmooth, IsQuiet, IsExact, GaveTooMany, AnswersBytes};

use crate::outside::{Failed, Sink, Source};
use crate::reading::read_whole;
use crate::writing::offer;
use std::alloc::Global;
use usb_kernel::Kernel;
use usb_script::{MAX_SCRIPT, Script, SessionError, parse_script};
use usb_script_lines::Item;
use usb_session::{Host, Session, Summary, tickets, write_fate};

/// What a run of a script leaves behind.
#[derive(Drop)]
pub struct Ran {
    /// The summary of the whole run, or why it was stopped.
    pub result: Result<Summary, SessionError>,
    /// The kernel at the end of the run, with the journal of what was answered. There is none where
    /// memory was lacking before the first answer.
    pub kernel: Option<Kernel>,
}

/// Writes these bytes to the sink, in as many writes as it takes.
fn write_piece<K: Sink>(sink: &mut K, bytes: &[u8]) -> Result<(), SessionError>
    ensures ok { OnOk result (Appends (K.written sink.old) (K.written sink.new) bytes.now) }
    ensures err { OnErr result (WrotePrefix (K.written sink.old) (K.written sink.new) bytes.now) }
    ensures cause { OnErr result (Rose (K.faults sink.old) (K.faults sink.new)) }
    ensures stops { OnErr result
        (FailedLast (K.faults sink.old) (K.faults sink.new) (K.has_failed sink.new)) }
    ensures quiet { OnOk result (K.faults sink.new ≡ K.faults sink.old) }
    ensures only { IfErr result (λ e. e ≡ SessionError.WriteFault) }
    ensures later { K.faults sink.old ≤ K.faults sink.new }
{
    match offer(sink, bytes) {
        Ok(()) => Ok(()),
        Err(Failed) => Err(SessionError::WriteFault),
    }
}

/// Writes the fate line of each ticket of a host, by number. Each line is printed into `line` and
/// then written.
fn write_fates<K: Sink>(line: &mut String, host: &Host, sink: &mut K) -> Result<(), SessionError>
    ensures ok { OnOk result
        (Appends (K.written sink.old) (K.written sink.new) (fate_lines host.now)) }
    ensures err { OnErr result
        (WrotePrefix (K.written sink.old) (K.written sink.new) (fate_lines host.now)) }
    ensures cause { IsErrOf result SessionError.WriteFault →
        Rose (K.faults sink.old) (K.faults sink.new) }
    ensures stops { IsErrOf result SessionError.WriteFault →
        FailedLast (K.faults sink.old) (K.faults sink.new) (K.has_failed sink.new) }
    ensures quiet { OnOk result (K.faults sink.new ≡ K.faults sink.old) }
    ensures only { IfErr result IsWritingError }
    ensures later { K.faults sink.old ≤ K.faults sink.new }
{
    for ticket in 0..tickets(host) {
        line.clear();
        write_fate(line, host, ticket)?;
        write_piece(sink, line.as_bytes())?;
    }
    Ok(())
}

/// Answers each item in order, and counts the calls. Each answer is printed into `line` and then
/// written. Before it the kernel must have a place for each step and reset of the items (`spare`:
/// usb_kernel's specs/Value.antt), and the session must stand for the state before the first of
/// them (`Represents`: usb_session' specs/Relation.antt).
fn answer_each<K: Sink>(
    line: &mut String,
    items: Vec<Item>,
    session: &mut Session,
    sink: &mut K,
) -> Result<u32, SessionError>
    requires bounded { IsBounded items.items }
    requires stands { Represents session.old (start items.items) }
    requires room { place_count items.items ≤ session.old.host.kernel.spare }
    ensures ok { OnOk result
        (AllAnswered (K.written sink.old) (K.written sink.new) session.new items.items) }
    ensures calls { IfOk result (λ n. n ≡ count_by is_call items.items) }
    ensures err { OnErr result
        (WrotePrefix (K.written sink.old) (K.written sink.new) (output items.items)) }
    ensures stopped { OnErr result (StoppedBehind (K.written sink.old) (K.written sink.new)
        items.items session.new.host.kernel.past) }
    ensures cause { IsErrOf result SessionError.WriteFault →
        Rose (K.faults sink.old) (K.faults sink.new) }
    ensures stops { IsErrOf result SessionError.WriteFault →
        FailedLast (K.faults sink.old) (K.faults sink.new) (K.has_failed sink.new) }
    ensures quiet { OnOk result (K.faults sink.new ≡ K.faults sink.old) }
    ensures only { IfErr result IsWritingError }
    ensures later { K.faults sink.old ≤ K.faults sink.new }
{
    let mut calls = 0u32;
    for item in items {
        if item.is_call() {
            calls += 1;
        }
        line.clear();
        session.answer(line, item)?;
        write_piece(sink, line.as_bytes())?;
    }
    Ok(calls)
}

/// Writes the fate lines of a host, each of whose tickets has its end, and sums it up.
fn write_summary<K: Sink>(
    line: &mut String,
    host: &Host,
    calls: u32,
    sink: &mut K,
) -> Result<Summary, SessionError>
    requires ended { HasEnds host.now.tickets }
    ensures ok { OnOk result
        (Appends (K.written sink.old) (K.written sink.new) (fate_lines host.now)) }
    ensures summary { IfOk result (λ s. s ≡ counts_of calls host.now) }
    ensures err { OnErr result
        (WrotePrefix (K.written sink.old) (K.written sink.new) (fate_lines host.now)) }
    ensures cause { IsErrOf result SessionError.WriteFault →
        Rose (K.faults sink.old) (K.faults sink.new) }
    ensures stops { IsErrOf result SessionError.WriteFault →
        FailedLast (K.faults sink.old) (K.faults sink.new) (K.has_failed sink.new) }
    ensures quiet { OnOk result (K.faults sink.new ≡ K.faults sink.old) }
    ensures only { IfErr result IsWritingError }
    ensures later { K.faults sink.old ≤ K.faults sink.new }
{
    write_fates(line, host, sink)?;
    Ok(Summary::of(host, calls))
}

/// Answers each item in order, ends the session, and then writes the fate lines. The session can't be dropped, so it is ended also
/// where an answer could not be written.
fn answer_items<K: Sink>(alloc: Global, items: Vec<Item>, places: usize, sink: &mut K) -> Ran
    requires bounded { IsBounded items.items }
    requires places { places ≡ place_count items.items }
    ensures ok { OnOk result.result
        (Appends (K.written sink.old) (K.written sink.new) (output items.items)) }
    ensures summary { IfOk result.result (λ s. s ≡ sum_of items.items) }
    ensures ended { IfOk result.result (λ _. HasEnds (final_host items.items).tickets) }
    ensures last_reaped { IfOk result.result (λ _.
        HasCompletions (final_host items.items).kernel.past) }
    ensures keeps_nothing { IfOk result.result (λ _. KeepsNothing (final_host items.items)) }
    ensures counted { IfOk result.result (λ _. IsCounted items.items) }
    ensures served { IfOk result.result (λ _. EndpointsAreServed items.items) }
    ensures printed { IfOk result.result (λ _. CompletionsArePrinted items.items) }
    ensures controls { IfOk result.result (λ _. ControlsAreServed items.items) }
    ensures fates { IfOk result.result (λ _. HasFinalFates items.items) }
    ensures polled { IfOk result.result (λ _. PollsAnswer items.items) }
    ensures framed { IfOk result.result (λ _. FramedReadersFollow items.items) }
    ensures handed { IfOk result.result (λ _. BytesAreHandedOver items.items) }
    ensures told { IfOk result.result (λ _. WritersAreTold items.items) }
    ensures exchanged { IfOk result.result (λ _. MessagesAlwaysArrive items.items) }
    ensures keeps_arriving { IfOk result.result (λ _. MessagesKeepArriving items.items) }
    ensures clients { IfOk result.result (λ _. ClientsAreServed items.items) }
    ensures err { OnErr result.result
        (WrotePrefix (K.written sink.old) (K.written sink.new) (output items.items)) }
    ensures cause { IsErrOf result.result SessionError.WriteFault →
        Rose (K.faults sink.old) (K.faults sink.new) }
    ensures stops { IsErrOf result.result SessionError.WriteFault →
        FailedLast (K.faults sink.old) (K.faults sink.new) (K.has_failed sink.new) }
    ensures quiet { OnOk result.result (K.faults sink.new ≡ K.faults sink.old) }
    ensures only { IfErr result.result IsWritingError }
    ensures later { K.faults sink.old ≤ K.faults sink.new }
    ensures kernel { OnOk result.result
        (result.kernel ≡ Some (final_host items.items).kernel) }
    ensures none { result.kernel ≡ None → (result.result ≡ Err SessionError.Memory)
        × Keeps (K.written sink.old) (K.written sink.new) }
    ensures reaped { ForSome result.kernel (λ k. HasCompletions k.past) }
    ensures lawful { ForSome result.kernel (λ k. IsLawful k.past) }
    ensures unclaimed { ForSome result.kernel (λ k.
        (d n : ℕ) → is_claimed k.devices d n ≡ false) }
    ensures goes_on { ForSome result.kernel (λ k.
        KeepsAnswered (K.written sink.old) (K.written sink.new) items.items k.past) }
{
    let mut line = String::new(alloc);
    let Ok(mut session) = Session::new(alloc, items.as_slice(), places) else {
        return Ran {
            result: Err(SessionError::Memory),
            kernel: None,
        };
    };
    match answer_each(&mut line, items, &mut session, sink) {
        Ok(calls) => {
            let host = session.end();
            let result = write_summary(&mut line, &host, calls, sink);
            Ran {
                result,
                kernel: Some(host.into_kernel()),
            }
        }
        Err(error) => {
            let host = session.end();
            Ran {
                result: Err(error),
                kernel: Some(host.into_kernel()),
            }
        }
    }
}

/// Answers a script, writes the answers, and hands back the kernel it ran on. Each line is offered to the sink in one piece, and
/// again what the sink didn't take.
///
/// On `Ok` the sink got the whole output of the script. An `Err` says why the run was stopped: writing failed, or memory was
/// lacking; then a prefix of the output was written. What is open is closed and each transfer is reaped all the same.
pub fn run_script<K: Sink>(alloc: Global, script: Script, sink: &mut K) -> Ran
    ensures ok { OnOk result.result
        (Appends (K.written sink.old) (K.written sink.new) (output script)) }
    ensures summary { IfOk result.result (λ s. s ≡ sum_of script) }
    ensures ended { IfOk result.result (λ _. HasEnds (final_host script).tickets) }
    ensures last_reaped { IfOk result.result (λ _.
        HasCompletions (final_host script).kernel.past) }
    ensures keeps_nothing { IfOk result.result (λ _. KeepsNothing (final_host script)) }
    ensures counted { IfOk result.result (λ _. IsCounted script) }
    ensures served { IfOk result.result (λ _. EndpointsAreServed script) }
    ensures printed { IfOk result.result (λ _. CompletionsArePrinted script) }
    ensures controls { IfOk result.result (λ _. ControlsAreServed script) }
    ensures fates { IfOk result.result (λ _. HasFinalFates script) }
    ensures polled { IfOk result.result (λ _. PollsAnswer script) }
    ensures framed { IfOk result.result (λ _. FramedReadersFollow script) }
    ensures handed { IfOk result.result (λ _. BytesAreHandedOver script) }
    ensures told { IfOk result.result (λ _. WritersAreTold script) }
    ensures exchanged { IfOk result.result (λ _. MessagesAlwaysArrive script) }
    ensures keeps_arriving { IfOk result.result (λ _. MessagesKeepArriving script) }
    ensures clients { IfOk result.result (λ _. ClientsAreServed script) }
    ensures err { OnErr result.result
        (WrotePrefix (K.written sink.old) (K.written sink.new) (output script)) }
    ensures cause { IsErrOf result.result SessionError.WriteFault →
        Rose (K.faults sink.old) (K.faults sink.new) }
    ensures stops { IsErrOf result.result SessionError.WriteFault →
        FailedLast (K.faults sink.old) (K.faults sink.new) (K.has_failed sink.new) }
    ensures quiet { OnOk result.result (K.faults sink.new ≡ K.faults sink.old) }
    ensures only { IfErr result.result IsWritingError }
    ensures later { K.faults sink.old ≤ K.faults sink.new }
    // The kernel of a whole run is that of the script's last host.
    ensures kernel { OnOk result.result
        (result.kernel ≡ Some (final_host script).kernel) }
    // There is none only where memory was lacking before anything was written.
    ensures none { result.kernel ≡ None → (result.result ≡ Err SessionError.Memory)
        × Keeps (K.written sink.old) (K.written sink.new) }
    // Whatever stopped the run: each ticket has its completion, no interface is claimed, the journal is lawful, and it begins as
    // that behind each call whose answer the sink got.
    ensures reaped { ForSome result.kernel (λ k. HasCompletions k.past) }
    ensures lawful { ForSome result.kernel (λ k. IsLawful k.past) }
    ensures unclaimed { ForSome result.kernel (λ k.
        (d n : ℕ) → is_claimed k.devices d n ≡ false) }
    ensures goes_on { ForSome result.kernel (λ k.
        KeepsAnswered (K.written sink.old) (K.written sink.new) script k.past) }
{
    let places = script.place_count();
    answer_items(alloc, script.into_items(), places, sink)
}

/// Reads a script to its end, answers it, and writes the answers.
fn answer_source<S: Source, K: Sink>(
    alloc: Global,
    source: &mut S,
    sink: &mut K,
) -> Result<Summary, SessionError>
    requires { ¬ (S.has_ended source.old) }
    ensures ok { IfOk result (IsAnswered
        (streams S.left S.faults K.written K.faults source.old sink.old)
        (streams S.left S.faults K.written K.faults source.new sink.new)) }
    ensures err { IfErr result (HasReason
        (streams S.left S.faults K.written K.faults source.old sink.old)
        (streams S.left S.faults K.written K.faults source.new sink.new)) }
    ensures later { FaultsNeverFall
        (streams S.left S.faults K.written K.faults source.old sink.old)
        (streams S.left S.faults K.written K.faults source.new sink.new) }
    ensures stops { IsErrOf result SessionError.ReadFault →
        FailedLast (S.faults source.old) (S.faults source.new) (S.has_failed source.new) }
    ensures ends { EndsReading (S.has_ended source.new) result }
    ensures most { TookAtMost 1048577 (S.left source.old) (S.left source.new) }
    ensures spares { IsErrOf result SessionError.ReadFault →
        TookAtMost 1048576 (S.left source.old) (S.left source.new) }
    ensures stops_writing { IsErrOf result SessionError.WriteFault →
        FailedLast (K.faults sink.old) (K.faults sink.new) (K.has_failed sink.new) }
    ensures quiet { OnOk result (K.faults sink.new ≡ K.faults sink.old) }
{
    let bytes = read_whole(alloc, source, MAX_SCRIPT)?;
    let script = parse_script(alloc, bytes.as_slice())?;
    let Ran {
        result,
        kernel: _kernel,
    } = run_script(alloc, script, sink);
    result
}

/// Reads a script to its end, at most 2^20 + 1 bytes, answers it, and writes the answers. Each line is offered to the
/// sink in one piece, and again what the sink didn't take. Nothing is written before the whole script was read and
/// parsed.
///
/// On `Ok` the sink got the whole output of the script, and the summary counts its calls and tickets. An `Err` says why:
/// the script is malformed or too long, reading failed, writing failed (then a prefix of the output was written), or
/// memory was wanting.
pub fn run_session<S: Source, K: Sink>(
    alloc: Global,
    source: &mut S,
    sink: &mut K,
) -> Result<Summary, SessionError>
    requires { ¬ (S.has_ended source.old) }
    ensures ok { IfOk result (IsAnswered
        (streams S.left S.faults K.written K.faults source.old sink.old)
        (streams S.left S.faults K.written K.faults source.new sink.new)) }
    ensures err { IfErr result (HasReason
        (streams S.left S.faults K.written K.faults source.old sink.old)
        (streams S.left S.faults K.written K.faults source.new sink.new)) }
    ensures later { FaultsNeverFall
        (streams S.left S.faults K.written K.faults source.old sink.old)
        (streams S.left S.faults K.written K.faults source.new sink.new) }
    // Each ticket was taken, dropped or reclaimed.
    ensures ends { IfOk result (λ s. s.taken + s.dropped + s.reclaimed ≡ s.tickets) }
    // A valid script, whose source tells its bytes, is answered where no read or write fails, unless memory runs out.
    ensures complete { IsSmooth
        (streams S.left S.faults K.written K.faults source.old sink.old)
        (streams S.left S.faults K.written K.faults source.new sink.new) →
        IfErr result (λ e. e ≡ SessionError.Memory) }
    // Where nothing fails, the answer is what the script's bytes parse to, or want of memory.
    ensures exact { (bytes : List ℕ) → IsQuiet
        (streams S.left S.faults K.written K.faults source.old sink.old)
        (streams S.left S.faults K.written K.faults source.new sink.new) bytes →
        IsExact bytes result }
    // The source has ended exactly where the whole script was read (but for want of memory), and then the answer is what its bytes
    // parse to, or a write fault of a script that parses.
    ensures reads_on { EndsReading (S.has_ended source.new) result }
    ensures parsed { S.has_ended source.new → (bytes : List ℕ) → S.left source.old ≡ Some bytes →
        AnswersBytes bytes result }
    // The byte past the longest script is taken only where the script is too long, or memory was lacking.
    ensures too_many { GaveTooMany 1048576
        (streams S.left S.faults K.written K.faults source.old sink.old)
        (streams S.left S.faults K.written K.faults source.new sink.new) →
        (result ≡ Err SessionError.TooLong) ⊎ (result ≡ Err SessionError.Memory) }
    // After a read that failed nothing more is read, and never more than one byte past the longest script.
    ensures stops { IsErrOf result SessionError.ReadFault →
        FailedLast (S.faults source.old) (S.faults source.new) (S.has_failed source.new) }
    ensures most { TookAtMost 1048577 (S.left source.old) (S.left source.new) }
    // One write failed where the answer says that writing did, and none where it is Ok.
    ensures once { IsErrOf result SessionError.WriteFault →
        RoseByOne (K.faults sink.old) (K.faults sink.new) }
    // After a write that failed nothing more is offered to the sink.
    ensures stops_writing { IsErrOf result SessionError.WriteFault →
        FailedLast (K.faults sink.old) (K.faults sink.new) (K.has_failed sink.new) }
    ensures quiet { OnOk result (K.faults sink.new ≡ K.faults sink.old) }
{
    answer_source(alloc, source, sink)
}
