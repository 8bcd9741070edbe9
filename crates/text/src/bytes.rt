//! Searches for a byte, and removal from the beginning.
ghost use Rattle.std.specs.Prelude.{◌≡◌, ◌==◌, ◌≤◌, ◌-◌, drop, length, position};

/// The first place of a byte.
pub fn find_byte(bytes: &[u8], wanted: u8) -> Option<usize>
    ensures { result ≡ position (λ byte. byte == wanted) bytes.now }
{
    bytes.iter().position(|byte| *byte == wanted)
}

/// Removes `count` bytes from the beginning.
pub fn drop_prefix(bytes: &mut Vec<u8>, count: usize)
    requires { count ≤ length bytes.old.items }
    ensures { bytes.new.items ≡ drop count bytes.old.items }
{
    if count == bytes.len() {
        bytes.clear();
    } else {
        bytes.drain(..count);
    }
}
