ghost use Rattle.link.specs.Laws.{DirectLaw, Agreement, RunLaw, AloneLaw, RowsLaw};
ghost use Rattle.link.specs.Examples.{Examples};
ghost use Rattle.link.specs.Exchange.{ToldLaw, ExchangeLaw};
ghost use Rattle.link.specs.Meaning.{Asked, Crossing};

use apdu::Application;

// The law of the direct card, for every application and every link: entries, buffers and states of calls over a link that is
// not lost are those of the direct card that is told that link's turn of the loss. And agreement: two links that begin in the
// same state give equal entries and buffers exactly when neither is lost or both at the same turn.
pub fn direct_card_law<A: Application>() -> u8
    ensures direct { DirectLaw A.Application.means }
    ensures agreement { Agreement A.Application.means }
{
    0
}

// A run of some turns and then others is the run of the first, then of the others on what these left free. And a run that is
// not refused is its turns alone, with the data buffer shared out among them.
pub fn runs_compose<A: Application>() -> u8
    ensures joined { RunLaw A.Application.means }
    ensures alone { AloneLaw A.Application.means }
{
    0
}

// The rows of a run and its whole data buffer give its entries.
pub fn rows_give_entries<A: Application>() -> u8
    ensures { RowsLaw A.Application.means }
{
    0
}

// For every application and every transport, given as what crosses (`cross`) and what then stands (`next`) with any type W of
// what stands between turns: a link over it tells true, and turn by turn its characters are those that the transport says and
// no others, and it is lost exactly where the transport says.
pub fn turns_told_true<A: Application, W>() -> u8
    ensures told { (cross : W → Asked → Crossing) (next : W → Asked → W) → ToldLaw A.Application.means cross next }
    ensures exchanged { (cross : W → Asked → Crossing) (next : W → Asked → W) → ExchangeLaw A.Application.means cross next }
{
    0
}

// Worked examples of the definitions: a lost reset, a refused turn after the loss, a full journal, a short rest of the data
// buffer, tag 2, a place past the end.
pub fn examples_stand() -> u8
    ensures { Examples }
{
    0
}
