//! Reading a text from a source.

ghost use Rattle.std.specs.Prelude.{◌≡◌, ◌≢◌, ◌<◌, ◌≤◌, ◌+◌, ◌^◌, vec_len, IfOk, IfErr, IsErrOf, IsTrue, ◌↔◌, length};
ghost use Rattle.std.specs.Io.KnownBytes.{Keeps};
ghost use Rattle.usb_session_run.specs.Causes.{FailedLast, ReadWhole, ReadPiece, TookAtMost, TookTooMany, IsReadingError, EndsReading};

use crate::outside::Source;
use std::alloc::Global;
use usb_script::SessionError;

/// Reads once into this room, and appends what came. Answers whether anything did.
fn read_piece<S: Source>(
    source: &mut S,
    bytes: &mut Vec<u8>,
    room: &mut [u8],
) -> Result<bool, SessionError>
    requires room { 0 < length room.old }
    requires goes_on { ¬ (S.has_ended source.old) }
    ensures ok { IfOk result (λ more. ReadPiece (S.left source.old)
        (S.left source.new) bytes.old.items bytes.new.items (length room.old)) }
    ensures more { IfOk result (λ more. IsTrue more ↔ (vec_len bytes.old < vec_len bytes.new)) }
    ensures ended { IfOk result (λ more. S.has_ended source.new ↔ ¬ (IsTrue more)) }
    ensures fault { IsErrOf result SessionError.ReadFault →
        FailedLast (S.faults source.old) (S.faults source.new) (S.has_failed source.new) }
    ensures untaken { IsErrOf result SessionError.ReadFault →
        Keeps (S.left source.old) (S.left source.new) }
    ensures goes_on { IsErrOf result SessionError.ReadFault → ¬ (S.has_ended source.new) }
    ensures none { IfErr result
        (λ e. e ≢ SessionError.ReadFault → S.faults source.new ≡ S.faults source.old) }
    ensures quiet { IfOk result (λ more. S.faults source.new ≡ S.faults source.old) }
    ensures few { TookAtMost (length room.old) (S.left source.old) (S.left source.new) }
    ensures later { S.faults source.old ≤ S.faults source.new }
    ensures only { IfErr result IsReadingError }
    ensures not_long { IsErrOf result SessionError.TooLong → ⊥ }
{
    let Ok(count) = source.read(room) else {
        return Err(SessionError::ReadFault);
    };
    bytes.extend_from_slice(&room[..count])?;
    Ok(count != 0)
}

/// The bytes that the source gives, to its end. More than `most` bytes are too long: one more is
/// read then.
pub fn read_whole<S: Source>(
    alloc: Global,
    source: &mut S,
    most: usize,
) -> Result<Vec<u8>, SessionError>
    requires goes_on { ¬ (S.has_ended source.old) }
    requires some_more { most < 2 ^ 32 }
    ensures ok { IfOk result
        (λ bytes. ReadWhole (S.left source.old) (S.left source.new) bytes.items) }
    ensures few { IfOk result (λ bytes. vec_len bytes ≤ most) }
    ensures long { IsErrOf result SessionError.TooLong →
        TookTooMany most (S.left source.old) (S.left source.new) }
    ensures fault { IsErrOf result SessionError.ReadFault →
        FailedLast (S.faults source.old) (S.faults source.new) (S.has_failed source.new) }
    ensures none { IfErr result
        (λ e. e ≢ SessionError.ReadFault → S.faults source.new ≡ S.faults source.old) }
    ensures quiet { IfOk result (λ bytes. S.faults source.new ≡ S.faults source.old) }
    ensures ends { EndsReading (S.has_ended source.new) result }
    ensures most { TookAtMost (most + 1) (S.left source.old) (S.left source.new) }
    ensures spares { IsErrOf result SessionError.ReadFault →
        TookAtMost most (S.left source.old) (S.left source.new) }
    ensures later { S.faults source.old ≤ S.faults source.new }
    ensures only { IfErr result IsReadingError }
{
    let mut bytes = Vec::new(alloc);
    let mut buf = [0u8; 4096];
    'pieces: while bytes.len() <= most {
        let room = (most + 1 - bytes.len()).min(4096);
        if !read_piece(source, &mut bytes, &mut buf[..room])? {
            return Ok(bytes);
        }
    }
    Err(SessionError::TooLong)
}
