//! Where descriptors stand among the bytes that have them (USB 2.0, sections 9.5 and 9.6). The walks
//! of `usb_desc` hand out bytes. A caller in C is told the places of them.

ghost use Rattle.std.specs.Prelude.{◌≡◌, ℕ, ◌≤◌, ◌++◌, [], false, true, length, take, drop, MatchOption, ⊤, if◌then◌else◌};
ghost use Rattle.usb_desc.specs.Bytes.{length_field};
ghost use Rattle.usb_desc.specs.Chain.{begins_descriptor, first_descriptor, behind_first, chain};
ghost use Rattle.usb_desc.specs.Configurations.{is_configuration, total_length};
ghost use Rattle.usb_desc.specs.Forms.{IsDescriptor};
ghost use Rattle.usb_desc.specs.Groups.{begins_group, goes_on, run_bytes, groups};
ghost use Rattle.usb_core_c.specs.Parts.{IsFirstGroup};

use usb_desc::ConfigurationDescriptor;

/// A part of some bytes: where it begins, and how many bytes it has.
#[repr(C)]
#[derive(Drop)]
pub struct Part {
    pub start: usize,
    pub len: usize,
}

/// The first descriptor, and the bytes behind it; `None` where no descriptor stands at the front.
fn split_first(bytes: &[u8]) -> Option<(&[u8], &[u8])>
    ensures begins { MatchOption result
        (begins_descriptor bytes.now ≡ false)
        (λ _. begins_descriptor bytes.now ≡ true) }
    ensures parts { MatchOption result ⊤
        (λ p. (p.0.now ≡ first_descriptor bytes.now) × (p.1.now ≡ behind_first bytes.now)) }
    ensures joined { MatchOption result ⊤ (λ p. bytes.now ≡ p.0.now ++ p.1.now) }
    ensures form { MatchOption result ⊤ (λ p. IsDescriptor p.0.now) }
{
    let [first, _, ..] = bytes else {
        return None;
    };
    let len = *first as usize;
    if len < 2 || len > bytes.len() {
        return None;
    }
    Some(bytes.split_at(len))
}

// Whether a descriptor goes on with a group of this type.
fn goes_on(descriptor: &[u8], kind: u8) -> bool
    requires two { 2 ≤ length descriptor.now }
    ensures value { result ≡ goes_on kind descriptor.now }
{
    descriptor[0] > 2 && descriptor[1] != kind
}

// Whether a descriptor begins a group of this type, of which it has at least `least` bytes.
fn begins_group(descriptor: &[u8], kind: u8, least: u8) -> bool
    requires two { 2 ≤ length descriptor.now }
    ensures value { result ≡ begins_group kind least descriptor.now }
{
    descriptor[1] == kind && descriptor[0] >= least
}

// How many bytes at the front go on with a group of this type.
fn run_len(bytes: &[u8], kind: u8) -> usize
    ensures within { result ≤ length bytes.now }
    ensures run { run_bytes kind (chain bytes.now) ≡ take result bytes.now }
    ensures behind { (least : ℕ) → groups kind least bytes.now
        ≡ groups kind least (drop result bytes.now) }
{
    let mut rest = bytes;
    while let Some((descriptor, behind)) = split_first(rest) {
        if !goes_on(descriptor, kind) {
            break;
        }
        rest = behind;
    }
    bytes.len() - rest.len()
}

/// Where the first group of this type stands; `None` where there is no group.
fn first_group(bytes: &[u8], kind: u8, least: u8) -> Option<Part>
    ensures first { MatchOption result
        (groups kind least bytes.now ≡ [])
        (IsFirstGroup kind least bytes.now) }
{
    let mut rest = bytes;
    while let Some((descriptor, behind)) = split_first(rest) {
        if begins_group(descriptor, kind, least) {
            let start = bytes.len() - rest.len();
            let len = descriptor.len() + run_len(behind, kind);
            return Some(Part { start, len });
        }
        rest = behind;
    }
    None
}

/// How many bytes the descriptor at the front of `bytes` has; 0 where none stands there.
#[unsafe(no_mangle)]
pub extern "C" fn usb_core_descriptor_len(bytes: &[u8]) -> usize
    ensures len { result
        ≡ (if begins_descriptor bytes.now then length_field bytes.now else 0) }
{
    match split_first(bytes) {
        Some((descriptor, _behind)) => descriptor.len(),
        None => 0,
    }
}

/// How many bytes the configuration at the front of `bytes` has; 0 where none stands there.
#[unsafe(no_mangle)]
pub extern "C" fn usb_core_configuration_len(bytes: &[u8]) -> usize
    ensures len { result
        ≡ (if is_configuration bytes.now then total_length bytes.now else 0) }
{
    match ConfigurationDescriptor::new(bytes) {
        Some(configuration) => configuration.as_bytes().len(),
        None => 0,
    }
}

/// Writes to `out` where the first group of this type stands: a descriptor of at least `least`
/// bytes, and those behind it that belong to it. Says whether there is one. Where there is none
/// `out` stays as it was.
#[unsafe(no_mangle)]
pub extern "C" fn usb_core_group(bytes: &[u8], kind: u8, least: u8, out: &mut Part) -> bool
    ensures none { result ≡ false → groups kind least bytes.now ≡ [] }
    ensures first { result ≡ true → IsFirstGroup kind least bytes.now out.new }
    ensures kept { result ≡ false → out.new ≡ out.old }
{
    let Some(part) = first_group(bytes, kind, least) else {
        return false;
    };
    *out = part;
    true
}
