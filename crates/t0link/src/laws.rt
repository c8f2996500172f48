ghost use Rattle.t0.specs.Delivery.{LostExactly};
ghost use Rattle.t0link.specs.Laws.{ConversationLaw};
ghost use Rattle.t0link.specs.LinkLaws.{T0Law};

use apdu::Application;

// The terminal and the card, joined by any line, exchange exactly the dialogue of a command as the line delivers it, for every
// application.
pub fn conversation_law<A: Application>() -> u8
    ensures { ConversationLaw A.Application.means }
{
    0
}

// A dialogue is lost exactly if four characters running in its trace are damaged.
pub fn lost_exactly() -> u8
    ensures { LostExactly }
{
    0
}

// The law of the T=0 link, for every application, setting, line and list of calls: entries, buffers and states are those of the
// direct card that is told the turn of the loss; the characters of each turn are its dialogue as the line delivers it; the link is
// lost in exactly the first turn with four damaged characters running; no turn gives 6.
pub fn t0_law<A: Application>() -> u8
    ensures { T0Law A.Application.means }
{
    0
}
