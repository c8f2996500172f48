ghost use Rattle.std.specs.Prelude.{◌≡◌};
ghost use Rattle.t0.specs.Carrying.{Carries};
ghost use Rattle.t0.specs.Delivery.{tried};

use wire::{Line, Record, Sender, Traced};

// Sends a character over the line until it arrives, at most four times, and traces each try: what arrived, or None.
pub(crate) fn carry<L: Line>(
    line: &mut L,
    sender: Sender,
    byte: u8,
    trace: &mut Record<'_, Traced>,
) -> Option<u8>
    ensures { Carries byte (tried (L.damage line.old) sender byte 4) result (L.damage line.new) trace.old trace.new }
{
    for _ in 0..4u8 {
        let arrived = line.carry(byte);
        trace.note(Traced {
            by_card: sender.is_card(),
            byte,
            damaged: arrived.is_none(),
        });
        if arrived.is_some() {
            return arrived;
        }
    }
    None
}
