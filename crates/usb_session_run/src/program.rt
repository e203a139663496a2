//! The program.

ghost use Rattle.std.specs.Prelude.{ℕ, List, IsOk, ◌≡◌, ◌≢◌, ◌⊎◌, ◌↔◌, ◌≤◌, ◌^◌, ◌++◌, length, true, false, Some, None, map, string_bytes, decimal, IfSome, IsSome, OnOk, OnErr, IsTrue};
ghost use Rattle.std.specs.Io.KnownBytes.{Appends, Keeps};
ghost use Rattle.usb_session_run.specs.Causes.{RoseByOne, CountsFaults, WrotePrefix, FailedLast, TookAtMost};
ghost use Rattle.usb_script.specs.Parse.{script_of};
ghost use Rattle.usb_session_run.specs.Session.{streams, IsAnswered, HasReason, IsSmooth, IsQuiet, GaveTooMany};
ghost use Rattle.usb_session.specs.declared.summary.Summary.{Summary};
ghost use Rattle.usb_session_run.specs.Live.{live_count, live_line};
ghost use Rattle.usb_session_run.specs.Generate.{generate_count, generate_line};
ghost use Rattle.usb_session_run.specs.Disk.{disk_count, disk_line};
ghost use Rattle.usb_session_run.specs.Checks.{is_check, TellsForm, TellsText, TellsYes};
ghost use Rattle.usb_session_run.specs.Traces.{is_trace, WroteTrace};
ghost use Rattle.usb_session_run.specs.Program.{is_session, is_usage, status_of, report_of, error_line, usage_line, Reports, RunsSession, RunsLine, RunsCheck, RunsTrace};
ghost use Rattle.usb_trace.specs.Begins.{IsForm};
ghost use Rattle.usb_trace.specs.Verdicts.{IsTrace};

use crate::checking::check;
use crate::generation::generate;
use crate::live::live;
use crate::outside::{Failed, Gathers, Sink, Source};
use crate::rounds::run_disk;
use crate::run::run_session;
use crate::tracing::trace;
use crate::writing::offer;
use itoa::Buffer;
use std::alloc::Global;
use std::sync::Wait;
use std::thread::Threads;
use usb_live::{Gate, Seen};
use usb_script::SessionError;
use usb_script_lines::number_between;
use usb_session::Summary;

const USAGE: u8 = 2;

/// Whether the words ask for a session.
fn is_session(words: &[String]) -> bool
    ensures value { result ≡ is_session (map string_bytes words.now) }
{
    match words {
        [] => true,
        [word] => word.as_str() == "session",
        _ => false,
    }
}

/// Whether the words ask for a check.
fn is_check(words: &[String]) -> bool
    ensures value { result ≡ is_check (map string_bytes words.now) }
    ensures alone { IsTrue result → is_session (map string_bytes words.now) ≡ false }
    ensures no_transfers { IsTrue result → live_count (map string_bytes words.now) ≡ None }
    ensures no_script { IsTrue result → generate_count (map string_bytes words.now) ≡ None }
    ensures no_rounds { IsTrue result → disk_count (map string_bytes words.now) ≡ None }
{
    match words {
        [word] => word.as_str() == "check",
        _ => false,
    }
}

/// Words that ask for a check ask for no trace.
fn check_is_no_trace(words: &[String])
    ensures law { is_check (map string_bytes words.now) ≡ true →
        is_trace (map string_bytes words.now) ≡ false }
{}

/// Whether the words ask for a trace.
fn is_trace(words: &[String]) -> bool
    ensures value { result ≡ is_trace (map string_bytes words.now) }
    ensures alone { IsTrue result → is_session (map string_bytes words.now) ≡ false }
    ensures no_transfers { IsTrue result → live_count (map string_bytes words.now) ≡ None }
    ensures no_script { IsTrue result → generate_count (map string_bytes words.now) ≡ None }
    ensures no_rounds { IsTrue result → disk_count (map string_bytes words.now) ≡ None }
{
    match words {
        [word] => word.as_str() == "trace",
        _ => false,
    }
}

/// How many transfers the words ask for.
fn live_count(words: &[String]) -> Option<u32>
    ensures value { result ≡ live_count (map string_bytes words.now) }
    ensures small { IfSome result (λ n. n ≤ 1000) }
{
    let [word, count] = words else {
        return None;
    };
    if word.as_str() != "live" {
        return None;
    }
    let n = number_between(1, 1000, count.as_bytes())?;
    Some(n as u32)
}

/// Of how many messages the words ask for a script.
fn generate_count(words: &[String]) -> Option<u32>
    ensures value { result ≡ generate_count (map string_bytes words.now) }
    ensures some { IfSome result (λ n. 1 ≤ n) }
    ensures few { IfSome result (λ n. n ≤ 2000) }
{
    let [word, count] = words else {
        return None;
    };
    if word.as_str() != "generate" {
        return None;
    }
    let n = number_between(1, 2000, count.as_bytes())?;
    Some(n as u32)
}

/// How many rounds at a disk the words ask for.
fn disk_count(words: &[String]) -> Option<u32>
    ensures value { result ≡ disk_count (map string_bytes words.now) }
    ensures few { IfSome result (λ n. n ≤ 500) }
    ensures no_script { IsSome result → generate_count (map string_bytes words.now) ≡ None }
{
    let [word, count] = words else {
        return None;
    };
    if word.as_str() != "disk" {
        return None;
    }
    let n = number_between(1, 500, count.as_bytes())?;
    Some(n as u32)
}

/// The exit status of a run that ended so.
fn status_of<T>(answer: &Result<T, SessionError>) -> u8
    ensures status { result ≡ status_of answer.now }
{
    match answer {
        Ok(_) => 0,
        Err(SessionError::Malformed { .. }) => 3,
        Err(SessionError::TooLong) => 4,
        Err(SessionError::ReadFault) => 5,
        Err(SessionError::WriteFault) => 6,
        Err(SessionError::Memory) => 7,
    }
}

/// Writes a number between two texts.
fn offer_number<G: Sink>(diag: &mut G, front: &[u8], number: u32, back: &[u8]) -> Result<(), Failed>
    ensures ok { OnOk result (Appends (G.written diag.old) (G.written diag.new)
        (front.now ++ (decimal number ++ back.now))) }
    ensures err { OnErr result (WrotePrefix (G.written diag.old) (G.written diag.new)
        (front.now ++ (decimal number ++ back.now))) }
    ensures cause { CountsFaults (G.faults diag.old) (G.faults diag.new) result }
{
    offer(diag, front)?;
    let mut digits = Buffer::new();
    offer(diag, digits.format(number).as_bytes())?;
    offer(diag, back)
}

/// Writes the line that reports an error.
fn offer_error<G: Sink>(diag: &mut G, error: &SessionError) -> Result<(), Failed>
    ensures ok { OnOk result
        (Appends (G.written diag.old) (G.written diag.new) (error_line error.now)) }
    ensures err { OnErr result
        (WrotePrefix (G.written diag.old) (G.written diag.new) (error_line error.now)) }
    ensures cause { CountsFaults (G.faults diag.old) (G.faults diag.new) result }
{
    match error {
        SessionError::Malformed { line } => {
            offer_number(diag, b"nusb_sim: malformed line ", *line, b"\n")
        }
        SessionError::TooLong => offer(diag, b"nusb_sim: script too long\n"),
        SessionError::ReadFault => offer(diag, b"nusb_sim: read fault\n"),
        SessionError::WriteFault => offer(diag, b"nusb_sim: write fault\n"),
        SessionError::Memory => offer(diag, b"nusb_sim: out of memory\n"),
    }
}

/// Reports an answer, as far as the sink takes the line.
fn report<G: Sink, T>(diag: &mut G, answer: &Result<T, SessionError>)
    ensures line { Reports (G.written diag.old) (G.written diag.new) (G.faults diag.old)
        (G.faults diag.new) (report_of answer.now) }
    ensures untold { IsOk answer.now → diag.new ≡ diag.old }
{
    if let Err(error) = answer {
        let _ = offer_error(diag, error);
    }
}

/// Writes the line on how the program is used.
fn report_usage<G: Sink>(diag: &mut G)
    ensures line { Reports (G.written diag.old) (G.written diag.new) (G.faults diag.old)
        (G.faults diag.new) usage_line }
{
    let _ = offer(
        diag,
        b"usage: nusb_sim [session|generate N|live N|disk N|trace|check]\n",
    );
}

/// Reports words that couldn't be read as text, and answers the status of a faulty command line.
pub fn refuse_words<D: Sink>(diag: &mut D) -> u8
    ensures status { result ≡ 2 }
    ensures line { Reports (D.written diag.old) (D.written diag.new) (D.faults diag.old)
        (D.faults diag.new) usage_line }
{
    report_usage(diag);
    USAGE
}

/// Reports that there was no memory for the words, and answers the status of that.
pub fn lack_memory<D: Sink>(diag: &mut D) -> u8
    ensures status { result ≡ 7 }
    ensures line { Reports (D.written diag.old) (D.written diag.new) (D.faults diag.old)
        (D.faults diag.new) (error_line SessionError.Memory) }
{
    let answer: Result<Summary, SessionError> = Err(SessionError::Memory);
    report(diag, &answer);
    status_of(&answer)
}

/// Ends a run that has this status, and answers the status of the program: the sink hands on what
/// it still holds. (To contracts it took these bytes before, so clause `bytes` says that nothing of
/// this changes.) Where that fails and the status was 0, it is 6, and the write fault is reported;
/// any other status stays.
pub fn end_program<K: Gathers, D: Sink>(status: u8, sink: &mut K, diag: &mut D) -> u8
    ensures stays { status ≢ 0 → (result ≡ status) × (diag.new ≡ diag.old) }
    ensures done { result ≡ 0 → K.is_handed_on sink.new × (diag.new ≡ diag.old) }
    ensures fault { status ≡ 0 → result ≢ 0 →
        (result ≡ 6) × RoseByOne (K.faults sink.old) (K.faults sink.new) }
    ensures line { status ≡ 0 → result ≢ 0 → Reports (D.written diag.old) (D.written diag.new)
        (D.faults diag.old) (D.faults diag.new) (error_line SessionError.WriteFault) }
    // Whatever the status: nothing is held any more, or handing on failed.
    ensures tried { K.is_handed_on sink.new
        ⊎ FailedLast (K.faults sink.old) (K.faults sink.new) (K.has_failed sink.new) }
    ensures bytes { Keeps (K.written sink.old) (K.written sink.new) }
{
    let handed_on = sink.hand_on();
    if status != 0 || handed_on.is_ok() {
        return status;
    }
    let answer: Result<Summary, SessionError> = Err(SessionError::WriteFault);
    report(diag, &answer);
    status_of(&answer)
}

/// Checks the text of a source, and says the status.
fn answer_check<S: Source, K: Sink, D: Sink>(
    alloc: Global,
    source: &mut S,
    sink: &mut K,
    diag: &mut D,
) -> u8
    requires goes_on { ¬ (S.has_ended source.old) }
    ensures check { RunsCheck
        (streams S.left S.faults K.written K.faults source.old sink.old)
        (streams S.left S.faults K.written K.faults source.new sink.new)
        (D.written diag.old) (D.written diag.new) (D.faults diag.old) (D.faults diag.new) result }
    ensures known { result ≢ 2 }
    ensures exact { (text : List ℕ) → IsQuiet
        (streams S.left S.faults K.written K.faults source.old sink.old)
        (streams S.left S.faults K.written K.faults source.new sink.new) text →
        TellsText text result }
    ensures yes { (text : List ℕ) → IsQuiet
        (streams S.left S.faults K.written K.faults source.old sink.old)
        (streams S.left S.faults K.written K.faults source.new sink.new) text →
        length text ≤ 2 ^ 24 → IsTrace text →
        TellsYes (K.written sink.old) (K.written sink.new) result }
    ensures ended { (result ≡ 0) ⊎ (result ≡ 3) ⊎ (result ≡ 6) → S.has_ended source.new }
    ensures goes_on { (result ≡ 4) ⊎ (result ≡ 5) → ¬ (S.has_ended source.new) }
    ensures form { S.has_ended source.new → (text : List ℕ) → S.left source.old ≡ Some text →
        TellsForm text result ⊎ ((result ≡ 6) × IsForm text) }
    ensures too_many { GaveTooMany 16777216
        (streams S.left S.faults K.written K.faults source.old sink.old)
        (streams S.left S.faults K.written K.faults source.new sink.new) →
        (result ≡ 4) ⊎ (result ≡ 7) }
    ensures read_fault { result ≡ 5 → HasReason
        (streams S.left S.faults K.written K.faults source.old sink.old)
        (streams S.left S.faults K.written K.faults source.new sink.new)
        SessionError.ReadFault }
    ensures stops { result ≡ 5 →
        FailedLast (S.faults source.old) (S.faults source.new) (S.has_failed source.new) }
    ensures most { TookAtMost 16777217 (S.left source.old) (S.left source.new) }
    ensures once { result ≡ 6 → RoseByOne (K.faults sink.old) (K.faults sink.new) }
    ensures quiet { result ≡ 0 → K.faults sink.new ≡ K.faults sink.old }
    ensures stops_writing { result ≡ 6 →
        FailedLast (K.faults sink.old) (K.faults sink.new) (K.has_failed sink.new) }
    ensures untold { result ≡ 0 → diag.new ≡ diag.old }
{
    let answer = check(alloc, source, sink);
    report(diag, &answer);
    status_of(&answer)
}

/// Writes the trace of the script that a source gives, and says the status.
fn answer_trace<S: Source, K: Sink, D: Sink>(
    alloc: Global,
    source: &mut S,
    sink: &mut K,
    diag: &mut D,
) -> u8
    requires goes_on { ¬ (S.has_ended source.old) }
    ensures trace { RunsTrace
        (streams S.left S.faults K.written K.faults source.old sink.old)
        (streams S.left S.faults K.written K.faults source.new sink.new)
        (D.written diag.old) (D.written diag.new) (D.faults diag.old) (D.faults diag.new) result }
    ensures right { result ≡ 0 → WroteTrace (K.written sink.old) (K.written sink.new) }
    ensures known { result ≢ 2 }
    ensures malformed { result ≡ 3 → (line : ℕ) × HasReason
        (streams S.left S.faults K.written K.faults source.old sink.old)
        (streams S.left S.faults K.written K.faults source.new sink.new)
        (SessionError.Malformed line) }
    ensures too_long { result ≡ 4 → HasReason
        (streams S.left S.faults K.written K.faults source.old sink.old)
        (streams S.left S.faults K.written K.faults source.new sink.new)
        SessionError.TooLong }
    ensures read_fault { result ≡ 5 → HasReason
        (streams S.left S.faults K.written K.faults source.old sink.old)
        (streams S.left S.faults K.written K.faults source.new sink.new)
        SessionError.ReadFault }
    ensures exact { (bytes : List ℕ) → IsQuiet
        (streams S.left S.faults K.written K.faults source.old sink.old)
        (streams S.left S.faults K.written K.faults source.new sink.new) bytes →
        (result ≡ 7) ⊎ (result ≡ status_of (script_of bytes)) }
    ensures ended { (result ≡ 0) ⊎ (result ≡ 3) ⊎ (result ≡ 6) → S.has_ended source.new }
    ensures goes_on { (result ≡ 4) ⊎ (result ≡ 5) → ¬ (S.has_ended source.new) }
    ensures parsed { S.has_ended source.new → (bytes : List ℕ) → S.left source.old ≡ Some bytes →
        (result ≡ status_of (script_of bytes)) ⊎ (result ≡ 6) ⊎ (result ≡ 7) }
    ensures too_many { GaveTooMany 1048576
        (streams S.left S.faults K.written K.faults source.old sink.old)
        (streams S.left S.faults K.written K.faults source.new sink.new) →
        (result ≡ 4) ⊎ (result ≡ 7) }
    ensures stops { result ≡ 5 →
        FailedLast (S.faults source.old) (S.faults source.new) (S.has_failed source.new) }
    ensures most { TookAtMost 1048577 (S.left source.old) (S.left source.new) }
    ensures once { result ≡ 6 → RoseByOne (K.faults sink.old) (K.faults sink.new) }
    ensures quiet { result ≡ 0 → K.faults sink.new ≡ K.faults sink.old }
    ensures stops_writing { result ≡ 6 →
        FailedLast (K.faults sink.old) (K.faults sink.new) (K.has_failed sink.new) }
    ensures untold { result ≡ 0 → diag.new ≡ diag.old }
{
    let answer = trace(alloc, source, sink);
    report(diag, &answer);
    status_of(&answer)
}

/// Answers words that ask for no check, no trace and no transfers between threads, and says the status. What it may do is as its type says: it starts no
/// thread, waits for none, asks no gate and sets no flag.
fn answer_words<S: Source, K: Sink, D: Sink>(
    alloc: Global,
    words: &[String],
    source: &mut S,
    sink: &mut K,
    diag: &mut D,
) -> u8
    requires goes_on { ¬ (S.has_ended source.old) }
    requires no_check { is_check (map string_bytes words.now) ≡ false }
    requires no_trace { is_trace (map string_bytes words.now) ≡ false }
    requires no_transfers { live_count (map string_bytes words.now) ≡ None }
    ensures usage { result ≡ 2 ↔ (is_usage (map string_bytes words.now) ≡ true) }
    ensures usage_line { result ≡ 2 → Reports (D.written diag.old) (D.written diag.new)
        (D.faults diag.old) (D.faults diag.new) usage_line }
    // Nothing is read where no session is asked for, and nothing is written where the usage line is due.
    ensures unread { is_session (map string_bytes words.now) ≡ false →
        source.new ≡ source.old }
    ensures unwritten { is_usage (map string_bytes words.now) ≡ true → sink.new ≡ sink.old }
    ensures session { is_session (map string_bytes words.now) ≡ true → RunsSession
        (streams S.left S.faults K.written K.faults source.old sink.old)
        (streams S.left S.faults K.written K.faults source.new sink.new)
        (D.written diag.old) (D.written diag.new) (D.faults diag.old) (D.faults diag.new) result }
    ensures generate { (n : ℕ) → generate_count (map string_bytes words.now) ≡ Some n →
        RunsLine (generate_line n) (K.written sink.old) (K.written sink.new)
        (K.faults sink.old) (K.faults sink.new) (D.written diag.old) (D.written diag.new)
        (D.faults diag.old) (D.faults diag.new) result }
    ensures disk { (n : ℕ) → disk_count (map string_bytes words.now) ≡ Some n →
        RunsLine (disk_line n) (K.written sink.old) (K.written sink.new)
        (K.faults sink.old) (K.faults sink.new) (D.written diag.old) (D.written diag.new)
        (D.faults diag.old) (D.faults diag.new) result }
    // Of a session: where the status is 0, the whole output was written.
    ensures done { is_session (map string_bytes words.now) ≡ true → result ≡ 0 →
        (summary : Summary) × IsAnswered
        (streams S.left S.faults K.written K.faults source.old sink.old)
        (streams S.left S.faults K.written K.faults source.new sink.new)
        summary }
    ensures malformed { result ≡ 3 → (line : ℕ) × HasReason
        (streams S.left S.faults K.written K.faults source.old sink.old)
        (streams S.left S.faults K.written K.faults source.new sink.new)
        (SessionError.Malformed line) }
    ensures too_long { result ≡ 4 → HasReason
        (streams S.left S.faults K.written K.faults source.old sink.old)
        (streams S.left S.faults K.written K.faults source.new sink.new)
        SessionError.TooLong }
    ensures read_fault { result ≡ 5 → HasReason
        (streams S.left S.faults K.written K.faults source.old sink.old)
        (streams S.left S.faults K.written K.faults source.new sink.new)
        SessionError.ReadFault }
    ensures write_fault { is_session (map string_bytes words.now) ≡ true → result ≡ 6 →
        HasReason
        (streams S.left S.faults K.written K.faults source.old sink.old)
        (streams S.left S.faults K.written K.faults source.new sink.new)
        SessionError.WriteFault }
    ensures memory { is_session (map string_bytes words.now) ≡ true → result ≡ 7 →
        HasReason
        (streams S.left S.faults K.written K.faults source.old sink.old)
        (streams S.left S.faults K.written K.faults source.new sink.new)
        SessionError.Memory }
    // Where nothing fails, the status is what the script's bytes parse to, or want of memory.
    ensures exact { is_session (map string_bytes words.now) ≡ true →
        (bytes : List ℕ) → IsQuiet
        (streams S.left S.faults K.written K.faults source.old sink.old)
        (streams S.left S.faults K.written K.faults source.new sink.new) bytes →
        (result ≡ 7) ⊎ (result ≡ status_of (script_of bytes)) }
    // The source has ended exactly where the whole script was read (but for want of memory), and then the status is what its bytes
    // parse to, or that of a write fault.
    ensures ended { is_session (map string_bytes words.now) ≡ true →
        (result ≡ 0) ⊎ (result ≡ 3) ⊎ (result ≡ 6) → S.has_ended source.new }
    ensures goes_on { (result ≡ 4) ⊎ (result ≡ 5) → ¬ (S.has_ended source.new) }
    ensures parsed { is_session (map string_bytes words.now) ≡ true →
        S.has_ended source.new → (bytes : List ℕ) → S.left source.old ≡ Some bytes →
        (result ≡ status_of (script_of bytes)) ⊎ (result ≡ 6) ⊎ (result ≡ 7) }
    // The byte past the longest script is taken only where the script is too long, or memory was lacking.
    ensures too_many { is_session (map string_bytes words.now) ≡ true → GaveTooMany 1048576
        (streams S.left S.faults K.written K.faults source.old sink.old)
        (streams S.left S.faults K.written K.faults source.new sink.new) →
        (result ≡ 4) ⊎ (result ≡ 7) }
    // After a read that failed nothing more is read, and never more than one byte past the longest script.
    ensures stops { result ≡ 5 →
        FailedLast (S.faults source.old) (S.faults source.new) (S.has_failed source.new) }
    ensures most { TookAtMost 1048577 (S.left source.old) (S.left source.new) }
    // One write failed where the status is 6, and none where it is 0; then nothing is reported.
    ensures once { result ≡ 6 → RoseByOne (K.faults sink.old) (K.faults sink.new) }
    ensures quiet { result ≡ 0 → K.faults sink.new ≡ K.faults sink.old }
    // After a write that failed nothing more is offered to the sink.
    ensures stops_writing { result ≡ 6 →
        FailedLast (K.faults sink.old) (K.faults sink.new) (K.has_failed sink.new) }
    ensures untold { result ≡ 0 → diag.new ≡ diag.old }
    // A valid script, whose source tells its bytes, is answered where no read or write fails, unless memory runs out.
    ensures complete { is_session (map string_bytes words.now) ≡ true →
        IsSmooth
        (streams S.left S.faults K.written K.faults source.old sink.old)
        (streams S.left S.faults K.written K.faults source.new sink.new)
        → (result ≡ 0) ⊎ (result ≡ 7) }
{
    if is_session(words) {
        let answer = run_session(alloc, source, sink);
        report(diag, &answer);
        return status_of(&answer);
    }
    if let Some(n) = disk_count(words) {
        let answer = run_disk(alloc, n, sink);
        report(diag, &answer);
        return status_of(&answer);
    }
    let Some(n) = generate_count(words) else {
        report_usage(diag);
        return USAGE;
    };
    let answer = generate(alloc, n, sink);
    report(diag, &answer);
    status_of(&answer)
}

/// Runs the program on its words, and answers its status. The line that reports an error goes to `diag`. The gate (what the
/// loop of transfers between threads asks before each round) and the flag, which is set at the first poll of that run that is
/// pending, are for the word `live`.
pub fn run_program<R: Threads + Wait + Sync, S: Source, K: Sink, D: Sink, G: Gate + Send>(
    rt: &R,
    alloc: Global,
    words: &Vec<String>,
    source: &mut S,
    sink: &mut K,
    diag: &mut D,
    gate: G,
    seen: &Seen,
) -> u8
    requires { ¬ (S.has_ended source.old) }
    ensures usage { result ≡ 2 ↔ (is_usage (map string_bytes words.now.items) ≡ true) }
    ensures usage_line { result ≡ 2 → Reports (D.written diag.old) (D.written diag.new)
        (D.faults diag.old) (D.faults diag.new) usage_line }
    // Nothing is read where no session, no trace and no check is asked for, and nothing is written where the usage line is due.
    ensures unread { is_session (map string_bytes words.now.items) ≡ false →
        is_trace (map string_bytes words.now.items) ≡ false →
        is_check (map string_bytes words.now.items) ≡ false → source.new ≡ source.old }
    ensures unwritten { is_usage (map string_bytes words.now.items) ≡ true → sink.new ≡ sink.old }
    ensures session { is_session (map string_bytes words.now.items) ≡ true → RunsSession
        (streams S.left S.faults K.written K.faults source.old sink.old)
        (streams S.left S.faults K.written K.faults source.new sink.new)
        (D.written diag.old) (D.written diag.new) (D.faults diag.old) (D.faults diag.new) result }
    ensures live { (n : ℕ) → live_count (map string_bytes words.now.items) ≡ Some n →
        RunsLine (live_line n) (K.written sink.old) (K.written sink.new)
        (K.faults sink.old) (K.faults sink.new) (D.written diag.old) (D.written diag.new)
        (D.faults diag.old) (D.faults diag.new) result }
    ensures generate { (n : ℕ) → generate_count (map string_bytes words.now.items) ≡ Some n →
        RunsLine (generate_line n) (K.written sink.old) (K.written sink.new)
        (K.faults sink.old) (K.faults sink.new) (D.written diag.old) (D.written diag.new)
        (D.faults diag.old) (D.faults diag.new) result }
    ensures disk { (n : ℕ) → disk_count (map string_bytes words.now.items) ≡ Some n →
        RunsLine (disk_line n) (K.written sink.old) (K.written sink.new)
        (K.faults sink.old) (K.faults sink.new) (D.written diag.old) (D.written diag.new)
        (D.faults diag.old) (D.faults diag.new) result }
    // Of a session: where the status is 0, the whole output was written.
    ensures done { is_session (map string_bytes words.now.items) ≡ true → result ≡ 0 →
        (summary : Summary) × IsAnswered
        (streams S.left S.faults K.written K.faults source.old sink.old)
        (streams S.left S.faults K.written K.faults source.new sink.new)
        summary }
    ensures malformed { is_check (map string_bytes words.now.items) ≡ false → result ≡ 3 →
        (line : ℕ) × HasReason
        (streams S.left S.faults K.written K.faults source.old sink.old)
        (streams S.left S.faults K.written K.faults source.new sink.new)
        (SessionError.Malformed line) }
    ensures too_long { is_check (map string_bytes words.now.items) ≡ false → result ≡ 4 → HasReason
        (streams S.left S.faults K.written K.faults source.old sink.old)
        (streams S.left S.faults K.written K.faults source.new sink.new)
        SessionError.TooLong }
    ensures read_fault { result ≡ 5 → HasReason
        (streams S.left S.faults K.written K.faults source.old sink.old)
        (streams S.left S.faults K.written K.faults source.new sink.new)
        SessionError.ReadFault }
    ensures write_fault { is_session (map string_bytes words.now.items) ≡ true → result ≡ 6 →
        HasReason
        (streams S.left S.faults K.written K.faults source.old sink.old)
        (streams S.left S.faults K.written K.faults source.new sink.new)
        SessionError.WriteFault }
    ensures memory { is_session (map string_bytes words.now.items) ≡ true → result ≡ 7 →
        HasReason
        (streams S.left S.faults K.written K.faults source.old sink.old)
        (streams S.left S.faults K.written K.faults source.new sink.new)
        SessionError.Memory }
    // Where nothing fails, the status is what the script's bytes parse to, or want of memory.
    ensures exact { is_session (map string_bytes words.now.items) ≡ true →
        (bytes : List ℕ) → IsQuiet
        (streams S.left S.faults K.written K.faults source.old sink.old)
        (streams S.left S.faults K.written K.faults source.new sink.new) bytes →
        (result ≡ 7) ⊎ (result ≡ status_of (script_of bytes)) }
    // The source has ended exactly where the whole script was read (but for want of memory), and then the status is what its bytes
    // parse to, or that of a write fault.
    ensures ended { is_session (map string_bytes words.now.items) ≡ true →
        (result ≡ 0) ⊎ (result ≡ 3) ⊎ (result ≡ 6) → S.has_ended source.new }
    ensures goes_on { (result ≡ 4) ⊎ (result ≡ 5) → ¬ (S.has_ended source.new) }
    ensures parsed { is_session (map string_bytes words.now.items) ≡ true →
        S.has_ended source.new → (bytes : List ℕ) → S.left source.old ≡ Some bytes →
        (result ≡ status_of (script_of bytes)) ⊎ (result ≡ 6) ⊎ (result ≡ 7) }
    // The byte past the longest script is taken only where the script is too long, or memory was lacking.
    ensures too_many { is_session (map string_bytes words.now.items) ≡ true → GaveTooMany 1048576
        (streams S.left S.faults K.written K.faults source.old sink.old)
        (streams S.left S.faults K.written K.faults source.new sink.new) →
        (result ≡ 4) ⊎ (result ≡ 7) }
    // After a read that failed nothing more is read, and never more than one byte past the longest script.
    ensures stops { result ≡ 5 →
        FailedLast (S.faults source.old) (S.faults source.new) (S.has_failed source.new) }
    ensures most { is_check (map string_bytes words.now.items) ≡ false →
        TookAtMost 1048577 (S.left source.old) (S.left source.new) }
    // One write failed where the status is 6, and none where it is 0; then nothing is reported.
    ensures once { result ≡ 6 → RoseByOne (K.faults sink.old) (K.faults sink.new) }
    ensures quiet { result ≡ 0 → K.faults sink.new ≡ K.faults sink.old }
    // After a write that failed nothing more is offered to the sink.
    ensures stops_writing { result ≡ 6 →
        FailedLast (K.faults sink.old) (K.faults sink.new) (K.has_failed sink.new) }
    ensures untold { result ≡ 0 → diag.new ≡ diag.old }
    // A valid script, whose source tells its bytes, is answered where no read or write fails, unless memory runs out.
    ensures complete { is_session (map string_bytes words.now.items) ≡ true →
        IsSmooth
        (streams S.left S.faults K.written K.faults source.old sink.old)
        (streams S.left S.faults K.written K.faults source.new sink.new)
        → (result ≡ 0) ⊎ (result ≡ 7) }
    // Of a trace: that of the script's last journal is written, or it is told why it isn't.
    ensures trace { is_trace (map string_bytes words.now.items) ≡ true → RunsTrace
        (streams S.left S.faults K.written K.faults source.old sink.old)
        (streams S.left S.faults K.written K.faults source.new sink.new)
        (D.written diag.old) (D.written diag.new) (D.faults diag.old) (D.faults diag.new) result }
    // What is written then is the trace of a journal in which each event acts.
    ensures trace_is_trace { is_trace (map string_bytes words.now.items) ≡ true → result ≡ 0 →
        WroteTrace (K.written sink.old) (K.written sink.new) }
    // Where nothing fails, the status is what the script's bytes parse to, or want of memory.
    ensures trace_exact { is_trace (map string_bytes words.now.items) ≡ true →
        (bytes : List ℕ) → IsQuiet
        (streams S.left S.faults K.written K.faults source.old sink.old)
        (streams S.left S.faults K.written K.faults source.new sink.new) bytes →
        (result ≡ 7) ⊎ (result ≡ status_of (script_of bytes)) }
    // The source has ended exactly where the whole script was read (but for want of memory), and then the status is what its bytes
    // parse to, or that of a write fault.
    ensures trace_ended { is_trace (map string_bytes words.now.items) ≡ true →
        (result ≡ 0) ⊎ (result ≡ 3) ⊎ (result ≡ 6) → S.has_ended source.new }
    ensures trace_parsed { is_trace (map string_bytes words.now.items) ≡ true →
        S.has_ended source.new → (bytes : List ℕ) → S.left source.old ≡ Some bytes →
        (result ≡ status_of (script_of bytes)) ⊎ (result ≡ 6) ⊎ (result ≡ 7) }
    // The byte past the longest script is taken only where the script is too long, or memory was lacking.
    ensures trace_too_many { is_trace (map string_bytes words.now.items) ≡ true →
        GaveTooMany 1048576
        (streams S.left S.faults K.written K.faults source.old sink.old)
        (streams S.left S.faults K.written K.faults source.new sink.new) →
        (result ≡ 4) ⊎ (result ≡ 7) }
    // Of a check: the verdict on the whole text is written, or it is told why there is none.
    ensures check { is_check (map string_bytes words.now.items) ≡ true → RunsCheck
        (streams S.left S.faults K.written K.faults source.old sink.old)
        (streams S.left S.faults K.written K.faults source.new sink.new)
        (D.written diag.old) (D.written diag.new) (D.faults diag.old) (D.faults diag.new) result }
    // Where nothing fails, the status is by the length and the form of the source's text, and a trace is told so, or memory was lacking.
    ensures check_exact { is_check (map string_bytes words.now.items) ≡ true →
        (text : List ℕ) → IsQuiet
        (streams S.left S.faults K.written K.faults source.old sink.old)
        (streams S.left S.faults K.written K.faults source.new sink.new) text →
        TellsText text result }
    ensures check_yes { is_check (map string_bytes words.now.items) ≡ true →
        (text : List ℕ) → IsQuiet
        (streams S.left S.faults K.written K.faults source.old sink.old)
        (streams S.left S.faults K.written K.faults source.new sink.new) text →
        length text ≤ 2 ^ 24 → IsTrace text →
        TellsYes (K.written sink.old) (K.written sink.new) result }
    // The source has ended exactly where the whole text was read (but for want of memory), and then the status is by its form, or that
    // of a write fault.
    ensures check_ended { is_check (map string_bytes words.now.items) ≡ true →
        (result ≡ 0) ⊎ (result ≡ 3) ⊎ (result ≡ 6) → S.has_ended source.new }
    ensures check_form { is_check (map string_bytes words.now.items) ≡ true →
        S.has_ended source.new → (text : List ℕ) → S.left source.old ≡ Some text →
        TellsForm text result ⊎ ((result ≡ 6) × IsForm text) }
    // The byte past the longest text is taken only where the text is too long, or memory was lacking, and never more than that.
    ensures check_too_many { is_check (map string_bytes words.now.items) ≡ true →
        GaveTooMany 16777216
        (streams S.left S.faults K.written K.faults source.old sink.old)
        (streams S.left S.faults K.written K.faults source.new sink.new) →
        (result ≡ 4) ⊎ (result ≡ 7) }
    ensures check_most { is_check (map string_bytes words.now.items) ≡ true →
        TookAtMost 16777217 (S.left source.old) (S.left source.new) }
{
    let words = words.as_slice();
    check_is_no_trace(words);
    if is_check(words) {
        return answer_check(alloc, source, sink, diag);
    }
    if is_trace(words) {
        return answer_trace(alloc, source, sink, diag);
    }
    let Some(n) = live_count(words) else {
        return answer_words(alloc, words, source, sink, diag);
    };
    let answer = live(rt, alloc, n, sink, gate, seen);
    report(diag, &answer);
    status_of(&answer)
}
