//! How much work a run may be.
use hs_casebook::Pass;

/// A bound of the work of a run: a number of calls, a step for each byte that it is given, and one
/// for each two of its lines.
pub fn cost_of(pass: &Pass) -> u64 {
    let lines = line_feeds(&pass.script);
    let pairs = lines.saturating_mul(lines);
    let bytes = bytes_in(pass).saturating_mul(8);
    pairs.saturating_add(bytes).saturating_add(10_000)
}

/// How many lines of a text end.
pub fn line_feeds(text: &[u8]) -> u64 {
    let mut count = 0u64;
    for byte in text {
        count = count.saturating_add(u64::from(*byte == b'\n'));
    }
    count
}

/// How many bytes a run is given, in its script and on its disks.
fn bytes_in(pass: &Pass) -> u64 {
    let mut bytes = pass.script.len() as u64;
    for side in pass.given.zero.values() {
        bytes = bytes.saturating_add(side.len() as u64);
    }
    for side in pass.given.one.values() {
        bytes = bytes.saturating_add(side.len() as u64);
    }
    bytes
}

/// How many bytes runs are given.
pub fn bytes_of(passes: &[Pass]) -> u64 {
    let mut bytes = 0u64;
    for pass in passes {
        bytes = bytes.saturating_add(bytes_in(pass));
    }
    bytes
}
