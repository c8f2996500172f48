ghost use Rattle.std.specs.Prelude.{◌≡◌, ◌≤◌, length};
ghost use Rattle.apdu.specs.Applications.{opened};

// Opens the buffer with an answer, and counts its bytes.
pub(crate) fn write(answer: &[u8], buffer: &mut [u8; 256]) -> usize
    requires { length answer.now ≤ 256 }
    ensures answer { buffer.new ≡ opened answer.now buffer.old }
    ensures count { result ≡ length answer.now }
{
    buffer[..answer.len()].copy_from_slice(answer);
    answer.len()
}
