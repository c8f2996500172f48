ghost use Rattle.std.specs.Prelude.{◌≡◌, [], ◌∷◌, ◌++◌, take};
ghost use Rattle.apdu.specs.Commands.{wanted};
ghost use Rattle.t0.specs.Cards.{same_header, is_get_response, fetched, begun, answered, headed, asks_next, data_so_far};
ghost use Rattle.t0.specs.CardValues.{Becomes, pending_of};

use crate::card::{Card, Kept, Out, Receiving, Taking, Then};
use crate::settings::Style;
use apdu::{Application, Header};

// Whether it is the header of GET RESPONSE.
fn is_get_response(header: Header) -> bool
    ensures { result ≡ is_get_response header }
{
    header.ins == 0xc0 && header.p1 == 0 && header.p2 == 0
}

impl<A: Application> Card<A> {
    // GET RESPONSE.
    fn fetch(&mut self, p3: u8)
        ensures { Becomes A.Application.means self.old self.new (λ s c. fetched s c.state c.held (wanted p3)) }
    {
        match self.kept {
            Kept::By61(answer) => self.serve(0xc0, p3, answer, Kept::By61(answer)),
            Kept::Nothing | Kept::By6C(_, _) => self.close(Kept::Nothing, 0x69, 0x85),
        }
    }

    // A header that nothing held answers.
    fn begin(&mut self, header: Header, p3: u8)
        ensures { Becomes A.Application.means self.old self.new (λ s c. begun A.Application.means s c.state header p3) }
    {
        if header.is_reserved() {
            self.close(Kept::Nothing, 0x6d, 0x00);
        } else if !header.is_inward() {
            self.run_outward(header, p3);
        } else if p3 == 0 {
            self.run_inward(header, 0);
        } else {
            self.kept = Kept::Nothing;
            self.receiving = Receiving::Data(Taking {
                header,
                lc: p3,
                have: 0,
            });
            self.out = Out::after_waits(self.settings, Then::Ask(header.ins));
        }
    }

    // A header that is not GET RESPONSE.
    fn respond(&mut self, header: Header, p3: u8)
        ensures { Becomes A.Application.means self.old self.new (λ s c. answered A.Application.means s c.state c.held header p3) }
    {
        if let Kept::By6C(asked, answer) = self.kept
            && asked == header
            && p3 as usize == answer.count()
        {
            self.give(header.ins, answer.last, answer.status);
        } else {
            self.begin(header, p3);
        }
    }

    // A whole header.
    pub(super) fn head(&mut self, header: Header, p3: u8)
        ensures { Becomes A.Application.means self.old self.new (λ s c. headed A.Application.means s c.state c.held header p3) }
    {
        if is_get_response(header) {
            self.fetch(p3);
        } else {
            self.respond(header, p3);
        }
    }

    // What the card sends between two bytes of data.
    fn next_asking(&self, ins: u8) -> Out
        ensures { pending_of self.now.settings self.now.answer result ≡ asks_next A.Application.means self.now.settings self.now.settings.style ins }
    {
        match self.settings.style() {
            Style::Whole => Out::nothing(),
            Style::Bytewise => Out::after_waits(self.settings, Then::Ask(ins)),
        }
    }

    // One more byte of data; with the last one the command runs.
    pub(super) fn take(&mut self, taking: Taking, byte: u8)
        ensures { Becomes A.Application.means self.old self.new (λ s c. data_so_far A.Application.means s c taking.header taking.lc (take taking.have self.old.body ++ (byte ∷ []))) }
    {
        self.body[taking.have as usize] = byte;
        let have = taking.have + 1;
        if have == taking.lc {
            self.run_inward(taking.header, have);
            return;
        }
        self.receiving = Receiving::Data(Taking {
            header: taking.header,
            lc: taking.lc,
            have,
        });
        self.out = self.next_asking(taking.header.ins);
    }
}
