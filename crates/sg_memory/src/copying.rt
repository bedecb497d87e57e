// Copies into a buffer.
ghost use Rattle.std.specs.Prelude.{◌≡◌, ◌≤◌, take, length};

/// Copies bytes to the front of a buffer.
pub fn copy_front(into: &mut [u8], bytes: &[u8])
    requires { length bytes.now ≤ length into.old }
    ensures size { length into.new ≡ length into.old }
    ensures front { take (length bytes.now) into.new ≡ bytes.now }
{
    into[..bytes.len()].copy_from_slice(bytes);
}
