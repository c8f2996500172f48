ghost use Rattle.std.specs.Prelude.{◌≡◌, if◌then◌else◌, Some, None};
ghost use Rattle.std.specs.Option.{option_map};
ghost use Rattle.apps.specs.FileValues.{files_app};
ghost use Rattle.wire.specs.MarkedLines.{are_marks};
ghost use Rattle.cardtrace_t0.specs.Cards.{first_shelf, link_said};
ghost use Rattle.cardtrace_t0.specs.Plays.{over, linked_up, marked, opened};
ghost use Rattle.cardtrace_t0.specs.Sessions.{stand_of};

use crate::session::Stand;
use apps::{Entry, Files};
use arrayvec::ArrayVec;
use link::DirectLink;
use script::line::{Protocol, Settings};
use t0link::T0Link;
use wire::MarkedLine;

// The one card of the program: file 2F01, which holds 41 42.
fn first_card() -> Files
    ensures { files_app.state result ≡ first_shelf }
{
    let table = [Entry {
        id: 0x2f01,
        start: 0,
        length: 2,
    }];
    Files::new(&table, b"AB").unwrap()
}

// The link that a link line and the positions of the damage lines say, with the card as it is at first; none where the positions
// pass the limits of a line.
fn link_said(settings: Settings, marks: &[u16]) -> Option<Stand>
    ensures { option_map stand_of result ≡ (if are_marks marks.now then Some (over (link_said settings marks.now)) else None) }
{
    let line = MarkedLine::new(marks).ok()?;
    match settings.protocol {
        Protocol::T0 => {
            let settings = t0::Settings::new(settings.waits.min(15), settings.style).unwrap();
            Some(Stand::OverT0(T0Link::new(settings, first_card(), line)))
        }
        Protocol::T1 => Some(Stand::Direct(DirectLink::new(first_card()))),
    }
}

impl Stand {
    // The link line is read.
    pub(crate) fn link(&mut self, settings: Settings)
        ensures { stand_of self.new ≡ linked_up (stand_of self.old) settings }
    {
        if let Stand::Unlinked = self {
            *self = Stand::Opening {
                settings,
                marks: ArrayVec::new(),
            };
        }
    }

    // A damage line is read: one position more, up to 64.
    pub(crate) fn mark(&mut self, position: u16)
        ensures { stand_of self.new ≡ marked (stand_of self.old) position }
    {
        if let Stand::Opening { marks, .. } = self
            && !marks.is_full()
        {
            marks.push(position);
        }
    }

    // The first turn makes the link.
    pub(crate) fn open(&mut self)
        ensures { stand_of self.new ≡ opened (stand_of self.old) }
    {
        if let Stand::Opening { settings, marks } = self
            && let Some(link) = link_said(*settings, marks)
        {
            *self = link;
        }
    }
}
