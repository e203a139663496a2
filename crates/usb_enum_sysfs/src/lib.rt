//! The tree of attributes that stands in for the file system under `/sys`, and what its attributes
//! are read as.
#![tactic(auto)]

mod attributes;
mod folders;
mod names;
mod numbers;
mod ports;
mod speed;
mod sysfs;
mod text;
mod text_map;
mod tree;

pub use attributes::{read_decimal, read_hex, read_string, read_version};
pub use names::Names;
pub use numbers::{FromHexStr, decimal_byte};
pub use ports::read_ports;
pub use speed::{Speed, read_speed};
pub use sysfs::{SysfsError, SysfsErrorKind, SysfsPath};
pub use text::Text;
pub use tree::{AttrTree, Attribute, path_in};
