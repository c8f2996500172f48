ghost use Rattle.std.specs.Prelude.{◌≡◌};
ghost use Rattle.link.specs.Refusals.{run_number};

// Why a run is refused before its first turn, with the refusal's number; nothing changes then.
#[derive(Clone, Copy, Debug, PartialEq, Eq)]
pub enum RunRefusal {
    // the journal has fewer free places than the run has turns
    JournalFull = 8,
}

impl From<RunRefusal> for u8 {
    ghost from_gives = { λ refusal n. n ≡ run_number refusal };

    fn from(refusal: RunRefusal) -> u8 {
        refusal as u8
    }
}
