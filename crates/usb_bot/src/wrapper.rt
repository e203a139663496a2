//! The wrappers of commands and of their status: Bulk-Only Transport, sections 5.1 and 5.2.

ghost use Rattle.std.specs.Prelude.{◌≡◌, ◌≤◌, length};
ghost use Rattle.usb_bot.specs.Wrappers.{command_bytes, command_in, command_at, status_bytes, status_in, status_at, flags_of, code_of, data_length};

/// What a command asks for.
#[derive(Clone, Copy, Debug, PartialEq, Eq)]
pub enum Operation {
    /// READ(10).
    Read,
    /// WRITE(10).
    Write,
}

/// A command: what it asks for, its first block, the number of its blocks, and the tag by which its
/// status is known.
#[derive(Clone, Copy, Debug, PartialEq, Eq)]
pub struct Command {
    pub tag: u32,
    pub operation: Operation,
    pub block: u32,
    pub count: u16,
}

/// The status of a command: its tag, how many bytes of its data did not move, and 0 where it passed,
/// 1 where it failed, 2 where the phases did not fit.
#[derive(Clone, Copy, Debug, PartialEq, Eq)]
pub struct Status {
    pub tag: u32,
    pub residue: u32,
    pub outcome: u8,
}

impl Operation {
    /// `bmCBWFlags`: bit 7 is the direction of the data.
    fn flags(self) -> u8
        ensures flags { result ≡ flags_of self }
    {
        match self {
            Operation::Read => 0x80,
            Operation::Write => 0,
        }
    }

    /// The operation code of the command.
    fn code(self) -> u8
        ensures code { result ≡ code_of self }
    {
        match self {
            Operation::Read => 0x28,
            Operation::Write => 0x2a,
        }
    }
}

impl Command {
    /// How many bytes of data the command moves: 512 for each block.
    pub fn data_length(self) -> u32
        ensures length { result ≡ data_length self }
    {
        512 * self.count as u32
    }

    /// The 31 bytes of the wrapper.
    pub fn to_bytes(self) -> [u8; 31]
        ensures bytes { result ≡ command_bytes self }
    {
        let tag = self.tag.to_le_bytes();
        let length = self.data_length().to_le_bytes();
        let block = self.block.to_be_bytes();
        let count = self.count.to_be_bytes();
        [
            0x55,
            0x53,
            0x42,
            0x43,
            tag[0],
            tag[1],
            tag[2],
            tag[3],
            length[0],
            length[1],
            length[2],
            length[3],
            self.operation.flags(),
            0,
            10,
            self.operation.code(),
            0,
            block[0],
            block[1],
            block[2],
            block[3],
            0,
            count[0],
            count[1],
            0,
            0,
            0,
            0,
            0,
            0,
            0,
        ]
    }

    /// The fields of a wrapper of 31 bytes, whatever else these are.
    fn at(bytes: &[u8]) -> Command
        requires whole { 31 ≤ length bytes.now }
        ensures command { result ≡ command_at bytes.now }
    {
        let operation = if bytes[15] == 0x28 {
            Operation::Read
        } else {
            Operation::Write
        };
        Command {
            tag: u32::from_le_bytes([bytes[4], bytes[5], bytes[6], bytes[7]]),
            operation,
            block: u32::from_be_bytes([bytes[17], bytes[18], bytes[19], bytes[20]]),
            count: u16::from_be_bytes([bytes[22], bytes[23]]),
        }
    }

    /// The command of which these bytes are the wrapper. None where they are none.
    pub fn from_bytes(bytes: &[u8]) -> Option<Command>
        ensures command { result ≡ command_in bytes.now }
    {
        if bytes.len() != 31 {
            return None;
        }
        let command = Command::at(bytes);
        let wrapper = command.to_bytes();
        if bytes == &wrapper[..] {
            Some(command)
        } else {
            None
        }
    }
}

impl Status {
    /// The 13 bytes of the wrapper.
    pub fn to_bytes(self) -> [u8; 13]
        ensures bytes { result ≡ status_bytes self }
    {
        let tag = self.tag.to_le_bytes();
        let residue = self.residue.to_le_bytes();
        [
            0x55,
            0x53,
            0x42,
            0x53,
            tag[0],
            tag[1],
            tag[2],
            tag[3],
            residue[0],
            residue[1],
            residue[2],
            residue[3],
            self.outcome,
        ]
    }

    /// The fields of a wrapper of 13 bytes, whatever its signature is.
    fn at(bytes: &[u8]) -> Status
        requires whole { 13 ≤ length bytes.now }
        ensures status { result ≡ status_at bytes.now }
    {
        Status {
            tag: u32::from_le_bytes([bytes[4], bytes[5], bytes[6], bytes[7]]),
            residue: u32::from_le_bytes([bytes[8], bytes[9], bytes[10], bytes[11]]),
            outcome: bytes[12],
        }
    }

    /// The status of which these bytes are the wrapper. None where they are none.
    pub fn from_bytes(bytes: &[u8]) -> Option<Status>
        ensures status { result ≡ status_in bytes.now }
    {
        if bytes.len() != 13 {
            return None;
        }
        let status = Status::at(bytes);
        let wrapper = status.to_bytes();
        if bytes == &wrapper[..] {
            Some(status)
        } else {
            None
        }
    }
}
