ghost use Rattle.std.specs.Prelude.{◌≡◌};
ghost use Rattle.t0.specs.Talks.{refusal_of};

use crate::talk::Failure;
use apdu::Refusal;

impl From<Failure> for Refusal {
    ghost from_gives = { λ failure refusal. refusal ≡ refusal_of failure };

    fn from(failure: Failure) -> Refusal {
        match failure {
            Failure::Broken => Refusal::Protocol,
            Failure::Lost => Refusal::Lost,
        }
    }
}
