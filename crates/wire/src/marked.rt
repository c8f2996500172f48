ghost use Rattle.std.specs.Prelude.{ℕ, ◌<◌, ◌≤◌, slice_index};

// A line that damages the characters at marked positions, counted from 0: the first `count` of the marks. It counts the
// characters up to position 65,536, past which none is marked.
#[derive(Clone, Copy)]
pub struct MarkedLine {
    marks: [u16; 64],
    count: usize,
    at: u32,
    ghost few: { count ≤ 64 },
    ghost low: { (i : ℕ) → slice_index marks i < 65536 },
}

mod positions;
