//! Questions and their answers, one a line. A question is `WORD REST`, where the word says what is
//! asked.

mod attributes;
mod descriptors;
mod errors;
mod scripts;
mod transfers;

use attributes::{write_parse, write_value};
use descriptors::{write_reading, write_set};
use errors::{write_error, write_fault, write_text};
use scripts::{write_generated, write_script};
use std::alloc::{AllocError, Global};
use std::process::Abort;
use transfers::{write_code, write_status};

/// Compares that each question has its answer. A line is `QUESTION = ANSWER`, or a comment that
/// begins with #.
pub fn check<R: Abort + AllocGlobal>(rt: &R, lines: &str) -> Result<(), AllocError> {
    for line in lines.split('\n') {
        if !line.starts_with("#") {
            let (question, wanted) = line.split_once(" = ").unwrap_or((line, "no answer"));
            let (word, rest) = question.split_once(" ").unwrap_or((question, ""));
            assert!(rt; is_answer(rt.alloc(), word, rest, wanted)?, "{question}");
        }
    }
    Ok(())
}

/// Compares that each line has this answer, where it stands behind the word. A line that begins
/// with # is a comment.
pub fn check_each<R: Abort + AllocGlobal>(
    rt: &R,
    word: &str,
    lines: &str,
    wanted: &str,
) -> Result<(), AllocError> {
    for line in lines.split('\n') {
        if !line.starts_with("#") {
            assert!(rt; is_answer(rt.alloc(), word, line, wanted)?, "{line}");
        }
    }
    Ok(())
}

fn is_answer(alloc: Global, word: &str, rest: &str, wanted: &str) -> Result<bool, AllocError> {
    Ok(answer(alloc, word, rest)?.as_str() == wanted)
}

fn answer(alloc: Global, word: &str, rest: &str) -> Result<String, AllocError> {
    let mut out = String::new(alloc);
    match word {
        "error" => write_error(&mut out, rest),
        "fault" => write_fault(&mut out, rest),
        "text" => write_text(&mut out, rest),
        "status" => write_status(&mut out, rest, false),
        "refusal" => write_status(&mut out, rest, true),
        "code" => write_code(&mut out, rest),
        "script" | "fields" => write_script(&mut out, word, rest),
        "generated" => write_generated(&mut out, rest),
        "parse" => write_parse(&mut out, rest),
        "set" => write_set(&mut out, rest),
        "byte" | "word" | "decimal" | "speed" => write_value(&mut out, word, rest),
        _ => write_reading(&mut out, word, rest),
    }?;
    Ok(out)
}

/// The number of a decimal text.
fn decimal_of(text: &str) -> u16 {
    u16::from_str_radix(text, 10).unwrap_or(0)
}
